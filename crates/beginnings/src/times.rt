// The time where a match began: the alternative that was tried last is the first that answers yes, so its number of
// steps tells how many rows before its window begins.
ghost use Rattle.std.specs.Prelude.{◌≡◌};
ghost use Rattle.alf.specs.Beginnings.{is_given, time_of_lem};
ghost use Rattle.beginnings.specs.Times.{time_from, TimeAsked, began_by, BeganAsked, DateAsked, Dating};
ghost use Rattle.beginnings.specs.Times.{MarksAsked, Marks};

use alf::{Answer, Stamp};
use matcher::answers::Matched;
use matcher::tables::number_of;

// What a row is told, with the time where its match began.
#[derive(Clone, Copy)]
pub struct Dated {
    pub answer: Answer,
    pub tries: u32,
    pub began: Option<Stamp>,
}

// The time of the row where the window of the alternative tried last begins.
fn time_from(times: &[u64], steps: &[u8], row: usize, tries: u32) -> Stamp
    requires { TimeAsked times.now steps.now row tries }
    ensures { result.0 ≡ time_from times.now steps.now row tries }
{
    let k = steps[tries as usize - 1] as usize;
    Stamp(times[row - k])
}

// At a row, from whether it answers yes and the number tried.
fn began_at(times: &[u64], steps: &[u8], row: usize, said: bool, tries: u32) -> Option<Stamp>
    requires { BeganAsked times.now steps.now row said tries }
    ensures { result ≡ began_by times.now steps.now row said tries }
{
    if !said {
        return None;
    }
    Some(time_from(times, steps, row, tries))
}

// What was found at a row, with the time.
pub fn date(times: &[u64], steps: &[u8], row: usize, found: Matched) -> Dated
    requires { DateAsked times.now steps.now row found.answer found.tries }
    ensures { Dating times.now steps.now row found.answer found.tries
        result.answer result.tries result.began }
{
    let answer = found.answer;
    let tries = found.tries;
    let began = began_at(times, steps, row, number_of(answer) == 1, tries);
    Dated {
        answer,
        tries,
        began,
    }
}

// The flag and the time, as lists have them.
pub fn given_of(b: Option<Stamp>) -> u8
    ensures { result ≡ is_given b }
{
    match b {
        Some(_) => 1,
        None => 0,
    }
}

pub fn time_of(b: Option<Stamp>) -> u64
    ensures { result ≡ time_of_lem b }
{
    match b {
        Some(t) => t.0,
        None => 0,
    }
}

// At rows 0 to n-1, from their answers and numbers tried: flags and times into lent lists.
pub fn mark(
    times: &[u64],
    steps: &[u8],
    n: usize,
    answers: &[u8],
    tried: &[u32],
    given: &mut [u8],
    began: &mut [u64],
)
    requires { MarksAsked times.now steps.now n answers.now tried.now given.old began.old }
    ensures { Marks times.now steps.now n answers.now tried.now
        given.new began.new }
{
    for r in 0..n {
        let b = began_at(times, steps, r, answers[r] == 1, tried[r]);
        given[r] = given_of(b);
        began[r] = time_of(b);
    }
}
