// Runs of the calls over rows: table T by all three routes, corrections, and each refusal at its boundary. The cases
// come from standard input, one a line; its first lines say how a case is written.
#![tactic(auto)]

mod cases;

use loading::files::read_all;
use run_words::lists::decode;
use std::io;
use text_parts::parts::front;

fn main(rt: HostRuntime) -> io::Result<()> {
    let mut input = [0u8; 65536];
    let n = read_all(&mut rt.reader(), &mut input)?;
    decode(&mut input);
    crate::cases::show_lines(rt.stdout(), front(&input, n));
    Ok(())
}
