// Texts read as expressions and written back, each with what is written, or with the number and place of its refusal;
// then lists of names and trees. All come from standard input, each with the reason for what is expected. The expected
// output was worked out from document 01. The usual names stand on the first line of the input.
#![tactic(auto)]

mod lines;
mod name_lists;
mod shown;

use loading::files::read_all;
use std::io;
use text_parts::parts::front;

fn main(rt: HostRuntime) -> io::Result<()> {
    let mut input = [0u8; 65536];
    let n = read_all(&mut rt.reader(), &mut input)?;
    crate::lines::show_lines(rt.stdout(), front(&input, n));
    Ok(())
}
