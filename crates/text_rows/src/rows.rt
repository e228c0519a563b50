// The check of rows: each has a time above the last and a state for each name. Refusals 11, 13, 14, 15.
ghost use Rattle.std.specs.Prelude.{◌≡◌, ◌++◌, ◌≤◌, length};
ghost use Rattle.alf.specs.Refusals.{Comes};
ghost use Rattle.trace_texts.specs.Finding.{from, said_from};
ghost use Rattle.trace_texts.specs.Texts.{time_of_lem};
ghost use Rattle.text_checks.specs.Inner.{LineIn};
ghost use Rattle.text_rows.specs.Rows.{TimeIn, RowIn, TimedAt, early, time_order, rest_order, lines_order};

use basics::Refusal;
use basics::refusing::refuse;
use text_checks::states::check_states;
use text_checks::times::time_of;
use trace_texts::lines::{behind_line, next_line};
use trace_texts::words::find_word;

// A row's time: where it stands, and which it is; none where the word there is no time.
#[derive(Clone, Copy)]
pub struct TimeAt {
    pub at: usize,
    pub time: Option<u64>,
}

// The time of the row at p.
pub fn row_time(text: &[u8], p: usize) -> TimeAt
    requires { TimeIn text.now p }
    ensures { TimedAt (from text.now p).first result.at result.time }
{
    let s = find_word(text, p, 0);
    TimeAt {
        at: s.start,
        time: time_of(&text[s.start..s.end]),
    }
}

// Row r, at p, behind a row with the time `last`: its time is checked; done, the time.
fn check_time(text: &[u8], p: usize, r: usize, last: u64) -> Result<u64, Refusal>
    requires { TimeIn text.now p }
    ensures { Comes (time_order r (early r last (from text.now p).first) (from text.now p).first)
        (λ t. t ≡ time_of_lem (from text.now p).first) result }
{
    let t = row_time(text, p);
    if 65535 <= r {
        return refuse(11, t.at);
    }
    let Some(time) = t.time else {
        return refuse(11, t.at);
    };
    if 0 < r && time <= last {
        return refuse(13, t.at);
    }
    Ok(time)
}

// What stands behind the time of the row at p: k states, and nothing more where nothing is passed over; done, k.
fn check_rest(text: &[u8], p: usize, k: usize, wide: bool) -> Result<usize, Refusal>
    requires { LineIn text.now p k }
    ensures { Comes (rest_order k wide (from text.now p).first) (λ m. m ≡ k) result }
{
    check_states(text, p, k)?;
    if wide {
        return Ok(k);
    }
    let s = find_word(text, p, k + 1);
    if s.start < s.end {
        return refuse(11, s.start);
    }
    Ok(k)
}

// Row r, at p; done, its time.
fn check_row(
    text: &[u8],
    p: usize,
    k: usize,
    wide: bool,
    r: usize,
    last: u64,
) -> Result<u64, Refusal>
    requires { RowIn text.now p k }
    ensures { Comes (time_order r (early r last (from text.now p).first) (from text.now p).first
        ++ rest_order k wide (from text.now p).first) (λ t. t ≡ time_of_lem (from text.now p).first) result }
{
    let time = check_time(text, p, r, last)?;
    check_rest(text, p, k, wide)?;
    Ok(time)
}

// The rows from p on, of k names; done, how many they are.
pub fn check_rows(text: &[u8], p: usize, k: usize, wide: bool) -> Result<usize, Refusal>
    requires { LineIn text.now p k }
    ensures { Comes (lines_order k wide (length text.now) (said_from text.now p))
        (λ n. n ≡ length (said_from text.now p)) result }
{
    let mut at = next_line(text, p);
    let mut r: usize = 0;
    let mut last: u64 = 0;
    // Where a row ends is known behind it: no range to go over.
    while at < text.len() {
        last = check_row(text, at, k, wide, r, last)?;
        let behind = behind_line(text, at);
        at = next_line(text, behind);
        r += 1;
    }
    if r == 0 {
        return refuse(14, at);
    }
    Ok(r)
}
