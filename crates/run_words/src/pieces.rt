// Texts as the input has them: {P*N} stands for N times P, \xHH for the byte with these digits.
ghost use Rattle.std.specs.Prelude.{◌≤◌, ◌<◌, length};

use crate::words::{digit, number_from};
use text_parts::parts::find;
use text_parts::puts::put;

// A piece so many times.
fn repeat(out: &mut [u8], at: usize, piece: &[u8], times: usize) -> usize {
    let mut to = at;
    for _ in 0..times {
        to = put(out, to, piece);
    }
    to
}

// What stands between `{` and `*`, so many times.
fn put_times(out: &mut [u8], at: usize, part: &[u8]) -> usize {
    let star = find(part, 0, b'*');
    if star < 1 {
        return at;
    }
    let times = number_from(part, star);
    repeat(out, at, &part[1..star], times)
}

// One byte, a byte by its digits, or a piece so many times.
fn put_part(out: &mut [u8], at: usize, part: &[u8]) -> usize {
    if part.len() < 4 {
        return put(out, at, part);
    }
    if part[0] == b'{' {
        return put_times(out, at, part);
    }
    let one = [16 * digit(part[2]) + digit(part[3])];
    put(out, at, &one)
}

// Where the part that starts at i ends.
fn part_end(text: &[u8], i: usize) -> usize
    requires { i < length text.now }
    ensures { (i < result) × (result ≤ length text.now) }
{
    let b = text[i];
    if b == b'{' {
        let close = find(text, i, b'}');
        if close < text.len() {
            return close + 1;
        }
        return close;
    }
    if b != b'\\' {
        return i + 1;
    }
    if text.len() - i < 4 {
        return i + 1;
    }
    i + 4
}

// The text that the input's stands for; its length.
pub fn expand(out: &mut [u8], text: &[u8]) -> usize {
    let mut to: usize = 0;
    let mut i: usize = 0;
    // Where a piece ends is known behind it: no range to go over.
    while i < text.len() {
        let next = part_end(text, i);
        to = put_part(out, to, &text[i..next]);
        i = next;
    }
    to
}
