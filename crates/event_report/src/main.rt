// 000's event report (5.4.1) and the expressions of its chapters 5.4.2 to 5.4.12: the times that 000 states for each,
// and beside them the times at which it is true here, as written and by its alternatives, with steady pins off and on.
// The reports and the cases come from standard input, where 000's sentence stands beside each.
#![tactic(auto)]

mod reports;
mod shown;

use loading::files::read_all;
use std::io;
use text_parts::parts::front;

fn main(rt: HostRuntime) -> io::Result<()> {
    let mut input = [0u8; 65536];
    let n = read_all(&mut rt.reader(), &mut input)?;
    crate::shown::show_lines(rt.stdout(), front(&input, n));
    Ok(())
}
