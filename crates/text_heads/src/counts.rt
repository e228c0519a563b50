// How many names a head has: they end at the last word `changed`, or at the line's end.
ghost use Rattle.std.specs.Prelude.{◌≡◌, ◌+◌, ◌<◌, ◌≤◌, length, if◌then◌else◌};
ghost use Rattle.trace_texts.specs.Texts.{is_changed};
ghost use Rattle.trace_texts.specs.Finding.{from};
ghost use Rattle.text_heads.specs.Heads.{CountsNames};

use trace_texts::words::find_word;

// The word `changed`.
fn is_changed(word: &[u8]) -> bool
    ensures { result ≡ is_changed word.now }
{
    check::same(word, b"changed")
}

// A head: how many names it has, whether what follows is passed over, and where its line ends.
#[derive(Clone, Copy)]
pub struct Head {
    pub names: usize,
    pub wide: bool,
    pub end: usize,
}

// The names of the head at p, counted: the words up to the last `changed`, which `changed` tells, or all n.
pub fn count_names(text: &[u8], p: usize) -> Head
    requires { p ≤ length text.now }
    ensures { CountsNames (from text.now p).first result.names result.wide result.end }
{
    let mut word = find_word(text, p, 1);
    let mut n: usize = 0;
    let mut changed = None;
    // Where a word ends is known behind it: no range to go over.
    while word.start < word.end {
        if is_changed(&text[word.start..word.end]) {
            changed = Some(n);
        }
        word = find_word(text, word.start, 1);
        n += 1;
    }
    Head {
        names: changed.unwrap_or(n),
        wide: changed.is_some(),
        end: word.start,
    }
}
