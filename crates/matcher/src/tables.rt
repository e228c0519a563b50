// All rows: the list of answers, the list of numbers tried, the totals.
ghost use Rattle.std.specs.Prelude.{◌≡◌};
ghost use Rattle.alf.specs.Answers.{number_of};
ghost use Rattle.alf.specs.Alternatives.{answer_of};
ghost use Rattle.matcher.specs.Answers.{RowAskedOn};
ghost use Rattle.matcher.specs.Scenes.{state_on, alternatives_on};
ghost use Rattle.matcher.specs.Tables.{RowsAskedOn, FillAskedOn, FilledOn, TotalsOn};

use crate::answers::match_row;
use crate::scenes::Scene;
use alf::Answer;
use alternatives::lists::Lists;

// How often each answer is given.
#[derive(Clone, Copy)]
pub struct Total {
    pub yes: u32,
    pub no: u32,
    pub unknown: u32,
}

// Document 01's number of an answer: 0 no, 1 yes, 2 unknown, 3 no event.
pub fn number_of(a: Answer) -> u8
    ensures { result ≡ number_of a }
{
    match a {
        Answer::No => 0,
        Answer::Yes => 1,
        Answer::Unknown => 2,
        Answer::NoEvent => 3,
    }
}

// The number of a row's answer.
pub fn number_at(scene: &Scene, lists: &Lists, row: usize) -> u8
    requires { RowAskedOn scene.now lists.now row }
    ensures { result ≡ answer_of (state_on scene.now) (alternatives_on scene.now lists.now) row }
{
    let m = match_row(scene, lists, row);
    let a = m.answer;
    number_of(a)
}

// Rows 0 to n-1: each one's answer and number tried into lent lists.
pub fn match_all(scene: &Scene, lists: &Lists, n: usize, answers: &mut [u8], tried: &mut [u32])
    requires { FillAskedOn scene.now lists.now n
        answers.old tried.old }
    ensures { FilledOn scene.now lists.now n answers.old tried.old answers.new
        tried.new }
{
    for i in 0..n {
        let m = match_row(scene, lists, i);
        let a = m.answer;
        answers[i] = number_of(a);
        tried[i] = m.tries;
    }
}

// The totals of rows 0 to n-1.
pub fn totals(scene: &Scene, lists: &Lists, n: usize) -> Total
    requires { RowsAskedOn scene.now lists.now n }
    ensures { TotalsOn scene.now lists.now n result.yes result.no result.unknown }
{
    let mut yes: u32 = 0;
    let mut no: u32 = 0;
    let mut unknown: u32 = 0;
    for i in 0..n {
        let a = number_at(scene, lists, i);
        yes += u32::from(a == 1);
        no += u32::from(a == 0);
        unknown += u32::from(a == 2);
    }
    Total { yes, no, unknown }
}
