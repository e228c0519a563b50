// Where a byte of a text is: its line, and its place in the line.
ghost use Rattle.std.specs.Prelude.{◌≤◌, length};

// A line by its number, counted from 1, and by where it starts in the text, and a byte of the line counted from 0.
#[derive(Clone, Copy)]
pub struct Spot {
    pub number: usize,
    pub start: usize,
    pub at: usize,
}

fn is_end(b: &u8) -> bool {
    *b == b'\n'
}

// The line that a byte of the text is in; of a place behind its end, the last line.
pub fn spot_of(text: &[u8], place: usize) -> Spot
    ensures { result.start ≤ length text.now }
{
    let before = &text[..place.min(text.len())];
    let start = before.iter().rposition(is_end).map_or(0, |end| end + 1);
    Spot {
        number: before.iter().filter(|b| is_end(b)).count() + 1,
        start,
        at: before.len() - start,
    }
}
