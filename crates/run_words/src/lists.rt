// Lists inside lines. A word that starts with `:` is a list: `decode` turns each character behind the colon into the
// byte that it stands for. A list that is lent is a copy.
ghost use Rattle.std.specs.Prelude.{◌≤◌};

use text_parts::puts::put;

// What a character stands for inside a list: a digit for itself, a letter for a state, `F` for 255, in a
// tree `s` for `->` and `m` for the edge `?-`, any other for its own byte.
fn code_of(inside: bool, b: u8) -> u8 {
    if !inside {
        return b;
    }
    match b {
        b'0'..=b'9' => b - 48,
        b'X' => 2,
        b'H' => 3,
        b'L' => 4,
        b'W' => 5,
        b'Z' => 6,
        b'U' => 7,
        b'F' => 255,
        b's' => 50,
        b'm' => 146,
        _ => b,
    }
}

// Whether a list goes on behind a byte.
fn goes_on(inside: bool, b: u8) -> bool {
    match b {
        b':' => true,
        b' ' | b'\n' => false,
        _ => inside,
    }
}

// Each list of the input, in place.
pub fn decode(input: &mut [u8]) {
    let mut inside = false;
    for b in input.iter_mut() {
        let read = *b;
        *b = code_of(inside, read);
        inside = goes_on(inside, read);
    }
}

// At most 64.
pub fn least(n: usize) -> usize
    ensures { result ≤ 64 }
{
    n.min(64)
}

// A number as a u32, at most the largest.
pub fn narrow(n: usize) -> u32 {
    u32::try_from(n).unwrap_or(u32::MAX)
}

pub fn zeros() -> [u8; 64] {
    [0u8; 64]
}

// The first 64 entries of a list, and zeros behind.
pub fn copy_of(list: &[u8]) -> [u8; 64] {
    let mut out = zeros();
    put(&mut out, 0, list);
    out
}
