// Lines: where a line ends, and where the next one that says something starts.
ghost use Rattle.std.specs.Prelude.{◌≡◌, ◌≤◌, length};
ghost use Rattle.trace_texts.specs.Finding.{is_opening, Passes, Next};

use crate::words::skip_blanks;

// The place behind the LF of the line at p; where there is none, the text's end.
pub fn behind_line(text: &[u8], p: usize) -> usize
    requires { p ≤ length text.now }
    ensures { Passes text.now p result }
{
    for i in p..text.len() {
        if text[i] == b'\n' {
            return i + 1;
        }
    }
    text.len()
}

// Whether a line whose first byte behind blanks this is says something.
#[tactic(auto, unfolding(crate::specs::Finding::is_opening))]
fn opens(b: u8) -> bool
    ensures { result ≡ is_opening b }
{
    b != b'\n' && b != b'#'
}

// The first word of the next line that says something, from the line at p on; the text's end where there is none.
pub fn next_line(text: &[u8], p: usize) -> usize
    requires { p ≤ length text.now }
    ensures { Next text.now p result }
{
    let mut at = p;
    // Where a line ends is known behind it: no range to go over.
    while at < text.len() {
        let w = skip_blanks(text, at);
        if w == text.len() {
            return w;
        }
        if opens(text[w]) {
            return w;
        }
        at = behind_line(text, w);
    }
    at
}
