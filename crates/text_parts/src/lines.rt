// The lines of a text one after the other; whether a line is blank, and how much of it is kept.
ghost use Rattle.std.specs.Prelude.{length};
ghost use Rattle.std.specs.Iterator.{at_most};

use crate::parts::front;

// What is left of a text, whose lines come without the LF that ends each. Behind the last LF there is no empty line.
#[derive(Drop)]
pub struct Lines<'a>(pub &'a [u8]);

impl<'a> Iterator for Lines<'a> {
    type Item = &'a [u8];

    ghost remaining = { λ s. at_most (length s.0.now) };

    fn next(&mut self) -> Option<&'a [u8]> {
        let text = self.0;
        if text.is_empty() {
            return None;
        }
        match text.iter().position(|b| *b == b'\n') {
            Some(n) => {
                self.0 = &text[n + 1..];
                Some(&text[..n])
            }
            None => {
                self.0 = &text[text.len()..];
                Some(text)
            }
        }
    }
}

fn is_space(b: u8) -> bool {
    matches!(b, b'\t' | b'\r' | b' ')
}

// Whether a line is blank.
pub fn is_blank(text: &[u8]) -> bool {
    text.iter().all(|b| is_space(*b))
}

// A line without the CR of a line end in two bytes, and at most as long as an argument can be: a longer one is refused
// by its front.
pub fn kept(text: &[u8]) -> &[u8] {
    front(text.strip_suffix(b"\r").unwrap_or(text), 65536)
}
