// A file of patterns, read whole or not at all.
use crate::files::fill;
use console::output::{Console, complain, note};
use std::rt::Files;

// What was read; a file that fills all of the room is too long.
fn whole(console: &Console, path: &[u8], room: usize, m: usize) -> Option<usize> {
    if room <= m {
        complain(console);
        note(console, path);
        note(
            console,
            b": a file of patterns has at most 1,048,576 bytes\n",
        );
        return None;
    }
    Some(m)
}

// The bytes of the file of this name. The room is one byte more than a file may have.
pub fn fill_patterns<R: Files + Input>(
    rt: &R,
    console: &Console,
    path: &[u8],
    data: &mut [u8],
) -> Option<usize> {
    let m = fill(rt, console, path, data)?;
    whole(console, path, data.len(), m)
}
