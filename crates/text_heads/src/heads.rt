// The check of a head: the word `time`, names that are new, at most 32, at least one. Refusals 11, 12, 14.
ghost use Rattle.std.specs.Prelude.{◌≡◌, ◌≤◌};
ghost use Rattle.basics.specs.Text.{bytes};
ghost use Rattle.basics.specs.Words.{same};
ghost use Rattle.basics.specs.Deciding.{Decides};
ghost use Rattle.alf.specs.Refusals.{Comes};
ghost use Rattle.trace_texts.specs.Texts.{name_words, NewName, names_order, head_order};
ghost use Rattle.trace_texts.specs.Finding.{from};
ghost use Rattle.text_heads.specs.Heads.{NamesIn, WordIs, HeadIn};

use basics::Refusal;
use basics::refusing::refuse;
use names::is_name;
use trace_texts::words::{Span, find_word};

// The word `time`.
fn is_time(word: &[u8]) -> bool
    ensures { result ≡ same word.now (bytes "time") }
{
    check::same(word, b"time")
}

// Whether name i of the head at p, which stands at a word, is a name and no earlier one.
fn is_new_name(text: &[u8], p: usize, i: usize, word: Span) -> bool
    requires { WordIs text.now p i word.start word.end }
    ensures { Decides result (NewName (name_words (from text.now p).first) i) }
{
    if !is_name(&text[word.start..word.end]) {
        return false;
    }
    let mut earlier = find_word(text, p, 1);
    for j in 0..i {
        if check::same(
            &text[earlier.start..earlier.end],
            &text[word.start..word.end],
        ) {
            return false;
        }
        earlier = find_word(text, earlier.start, 1);
    }
    true
}

// The k names of the head at p; done, k.
pub fn check_names(text: &[u8], p: usize, k: usize) -> Result<usize, Refusal>
    requires { NamesIn text.now p k }
    ensures { Comes (names_order (name_words (from text.now p).first) k) (λ m. m ≡ k) result }
{
    let mut word = find_word(text, p, 1);
    for i in 0..k {
        if 32 <= i {
            return refuse(11, word.start);
        }
        if !is_new_name(text, p, i, word) {
            return refuse(12, word.start);
        }
        word = find_word(text, word.start, 1);
    }
    Ok(k)
}

// The head at p, of k names, whose line ends at `end`; done, k.
pub fn check_head(text: &[u8], p: usize, k: usize, end: usize) -> Result<usize, Refusal>
    requires { HeadIn text.now p k end }
    ensures { Comes (head_order (from text.now p).first) (λ m. m ≡ k) result }
{
    let first = find_word(text, p, 0);
    if !is_time(&text[first.start..first.end]) {
        return refuse(11, first.start);
    }
    check_names(text, p, k)?;
    if k == 0 {
        return refuse(14, end);
    }
    Ok(k)
}
