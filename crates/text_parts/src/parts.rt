// The parts of a text that a byte separates, and the front of a list.
ghost use Rattle.std.specs.Prelude.{◌≤◌, length};

// The first such byte from `from` on, or the length.
pub fn find(text: &[u8], from: usize, byte: u8) -> usize
    requires { from ≤ length text.now }
    ensures { (from ≤ result) × (result ≤ length text.now) }
{
    match text[from..].iter().position(|b| *b == byte) {
        Some(n) => from + n,
        None => text.len(),
    }
}

// Part k, counted from 0; no bytes where there is none.
pub fn part(text: &[u8], k: usize, byte: u8) -> &[u8] {
    text.split(|b| *b == byte).nth(k).unwrap_or(b"")
}

// Where part k starts, counted from 0; the length where there is none.
pub fn start_of(text: &[u8], k: usize, byte: u8) -> usize
    ensures { result ≤ length text.now }
{
    let rest = text.splitn(k.saturating_add(1), |b| *b == byte).nth(k);
    text.len()
        .saturating_sub(rest.map_or(0, |parts| parts.len()))
}

// The text from part k on; no bytes where there is none.
pub fn parts_from(text: &[u8], k: usize, byte: u8) -> &[u8] {
    &text[start_of(text, k, byte)..]
}

// The first n entries, or all: a list that is too short is refused by what takes it.
pub fn front<T>(list: &[T], n: usize) -> &[T] {
    &list[..n.min(list.len())]
}

pub fn front_mut<T>(list: &mut [T], n: usize) -> &mut [T] {
    let n = n.min(list.len());
    &mut list[..n]
}
