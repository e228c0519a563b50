// The states of a row's line: 14 where one is missing, 15 where a word is no state's letter.
ghost use Rattle.std.specs.Prelude.{◌≡◌, ◌-◌, take, drop};
ghost use Rattle.alf.specs.Refusals.{Comes};
ghost use Rattle.trace_texts.specs.Texts.{code_of, states_order};
ghost use Rattle.trace_texts.specs.Finding.{from};
ghost use Rattle.text_checks.specs.Inner.{SpanIn, LineIn};

use basics::Refusal;
use basics::refusing::refuse;
use state_letters::code_of;
use trace_texts::words::find_word;

// The code of the bytes from start to end of a text; 8 where they are no state's letter.
pub fn code_at(text: &[u8], start: usize, end: usize) -> u8
    requires { SpanIn text.now start end }
    ensures { result ≡ code_of (take (end - start) (drop start text.now)) }
{
    if end - start != 1 {
        return 8;
    }
    code_of(text[start])
}

// The states of the first k names, on the line at p; done, k. Each word is found from where the last one starts.
pub fn check_states(text: &[u8], p: usize, k: usize) -> Result<usize, Refusal>
    requires { LineIn text.now p k }
    ensures { Comes (states_order (from text.now p).first k) (λ m. m ≡ k) result }
{
    let mut word = find_word(text, p, 1);
    for i in 0..k {
        if word.end <= word.start {
            return refuse(14, word.start);
        }
        if 7 < code_at(text, word.start, word.end) {
            return refuse(15, word.start);
        }
        word = find_word(text, word.start, 1);
    }
    Ok(k)
}
