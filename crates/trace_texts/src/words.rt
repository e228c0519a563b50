// Words: where blanks end, and where a word ends.
ghost use Rattle.std.specs.Prelude.{◌≡◌, ◌≤◌, length};
ghost use Rattle.trace_texts.specs.Words.{is_blank_lem};
ghost use Rattle.trace_texts.specs.Finding.{is_solid_lem, Skips, Runs, Finds};

// Whether a byte is a space, a tab or CR.
#[tactic(auto, unfolding(crate::specs::Words::is_blank_lem))]
pub fn is_blank(b: u8) -> bool
    ensures { result ≡ is_blank_lem b }
{
    matches!(b, b' ' | b'\t' | b'\r')
}

// Whether a byte belongs to a word.
#[tactic(auto, unfolding(crate::specs::Finding::is_solid_lem))]
pub fn is_solid(b: u8) -> bool
    ensures { result ≡ is_solid_lem b }
{
    b != b'\n' && !is_blank(b)
}

// The first place from p on where no blank stands.
pub fn skip_blanks(text: &[u8], p: usize) -> usize
    requires { p ≤ length text.now }
    ensures { Skips text.now p result }
{
    for i in p..text.len() {
        if !is_blank(text[i]) {
            return i;
        }
    }
    text.len()
}

// The first place from p on where no byte of a word stands.
pub fn skip_word(text: &[u8], p: usize) -> usize
    requires { p ≤ length text.now }
    ensures { Runs text.now p result }
{
    for i in p..text.len() {
        if !is_solid(text[i]) {
            return i;
        }
    }
    text.len()
}

// A word: where it starts, and where it ends.
#[derive(Clone, Copy)]
pub struct Span {
    pub start: usize,
    pub end: usize,
}

// Word n of the line at p.
pub fn find_word(text: &[u8], p: usize, n: usize) -> Span
    requires { p ≤ length text.now }
    ensures { Finds text.now p n result.start result.end }
{
    let mut at = skip_blanks(text, p);
    for i in 0..n {
        let behind = skip_word(text, at);
        at = skip_blanks(text, behind);
    }
    let end = skip_word(text, at);
    Span { start: at, end }
}
