// The names of a text in slots, its times and its states.
ghost use Rattle.std.specs.Prelude.{◌≡◌, length};
ghost use Rattle.basics.specs.Memory.{Put, front};
ghost use Rattle.trace_texts.specs.Texts.{names_made};
ghost use Rattle.trace_texts.specs.Finding.{from, said_from};
ghost use Rattle.text_copies.specs.Copies.{NamesFit, CodesFit, RowsFit, codes_at, RowsMade};

use record_copies::copies::put_slot;
use text_checks::states::code_at;
use text_rows::rows::row_time;
use trace_texts::lines::{behind_line, next_line};
use trace_texts::words::find_word;

// The k names of the head at p.
pub fn copy_names(text: &[u8], p: usize, k: usize, out: &mut [u8])
    requires { NamesFit text.now p k out.old }
    ensures { out.new ≡ front (names_made (from text.now p).first) out.old }
{
    let mut word = find_word(text, p, 1);
    let mut at: usize = 0;
    for i in 0..k {
        at = put_slot(&text[word.start..word.end], out, at);
        word = find_word(text, word.start, 1);
    }
}

// The k states of the row at p, from `at` on; the place behind them.
fn put_codes(text: &[u8], p: usize, k: usize, out: &mut [u8], at: usize) -> usize
    requires { CodesFit text.now p k out.old at }
    ensures { Put out.old at (codes_at k (from text.now p).first) out.new result }
{
    let mut word = find_word(text, p, 1);
    for i in 0..k {
        out[at + i] = code_at(text, word.start, word.end);
        word = find_word(text, word.start, 1);
    }
    at + k
}

// The times and states of the n rows from p on, of k names each.
pub fn copy_rows(text: &[u8], p: usize, k: usize, n: usize, times: &mut [u64], states: &mut [u8])
    requires { RowsFit text.now p k n times.old states.old }
    ensures { RowsMade k (said_from text.now p) times.old states.old times.new
        states.new }
{
    let mut line = next_line(text, p);
    let mut to: usize = 0;
    for r in 0..n {
        times[r] = row_time(text, line).time.unwrap();
        to = put_codes(text, line, k, states, to);
        let behind = behind_line(text, line);
        line = next_line(text, behind);
    }
}
