// The answer of alternatives at a row, and beside it the number of alternatives tried: in order up to and including the
// first yes, or all. An answer inside is 0 no, 1 unknown, 2 yes.
ghost use Rattle.std.specs.Prelude.{◌≡◌, ◌+◌, ◌-◌, ◌<◌};
ghost use Rattle.alf.specs.Alternatives.{test_at, step_at, at_row};
ghost use Rattle.alternatives.specs.InMemory.{test_of, step_in, alternative_in};
ghost use Rattle.matcher.specs.Answers.{TestAskedOn, StepAskedOn, AlternativeAskedOn, RowAskedOn, EventAskedOn};
ghost use Rattle.matcher.specs.Answers.{MatchesOn};
ghost use Rattle.matcher.specs.Scenes.{state_on, tests_on};

use crate::scenes::Scene;
use alf::Answer;
use alternatives::lists::Lists;
use alternatives::walking::pass;
use evaluator::ranks::name_of;
use evaluator::values::state;
use states::edges::edge_on;

// What a row is told.
#[derive(Clone, Copy)]
pub struct Matched {
    pub answer: Answer,
    pub tries: u32,
}

// Edge k of the operand that ends at `end`, on the event from row a to row a + 1.
pub fn test_at(scene: &Scene, k: u8, end: usize, a: usize) -> u8
    requires { TestAskedOn scene.now end a }
    ensures { result ≡ test_at (state_on scene.now) a
        (test_of scene.now.tree.now scene.now.names k end) }
{
    let before = state(scene.rules, scene.tree, end, scene.states, scene.names, a);
    let after = state(
        scene.rules,
        scene.tree,
        end,
        scene.states,
        scene.names,
        a + 1,
    );
    edge_on(k, before, after)
}

// The n tests from t on, on that event: the least of their answers.
pub fn step_at(scene: &Scene, lists: &Lists, t: usize, n: usize, a: usize) -> u8
    requires { StepAskedOn scene.now lists.now t n a }
    ensures { result ≡ step_at (state_on scene.now)
        (step_in (tests_on scene.now lists.now) t n) a }
{
    let mut least: u8 = 2;
    for i in 0..n {
        let k = lists.edges[t + i];
        let end = lists.operands[t + i] as usize;
        least = least.min(test_at(scene, k, end, a));
    }
    least
}

// The n steps from step s on, whose tests start at t, ending at a row: the least of their answers; no where the row has
// fewer events before it.
pub fn alternative_at(scene: &Scene, lists: &Lists, s: usize, n: usize, t: usize, row: usize) -> u8
    requires { AlternativeAskedOn scene.now lists.now s n t row }
    ensures { result ≡ at_row (state_on scene.now) row (alternative_in lists.now.tests.now
        (tests_on scene.now lists.now) s t n) }
{
    if row < n {
        return 0;
    }
    let a = row - n;
    let mut least: u8 = 2;
    let mut at = t;
    for j in 0..n {
        let many = lists.tests[s + j] as usize;
        least = least.min(step_at(scene, lists, at, many, a + j));
        at += many;
    }
    least
}

// All alternatives at a row above 0, in order up to the first yes.
fn match_event(scene: &Scene, lists: &Lists, row: usize) -> Matched
    requires { EventAskedOn scene.now lists.now row }
    ensures { MatchesOn scene.now lists.now row result.answer result.tries }
{
    let mut best: u8 = 0;
    let mut s: usize = 0;
    let mut t: usize = 0;
    for k in 0..lists.steps.len() {
        let n = lists.steps[k] as usize;
        let r = alternative_at(scene, lists, s, n, t, row);
        if r == 2 {
            return Matched {
                answer: Answer::Yes,
                tries: (k + 1) as u32,
            };
        }
        best = best.max(r);
        t = pass(lists.tests, s, n, t);
        s += n;
    }
    Matched {
        answer: name_of(best),
        tries: lists.steps.len() as u32,
    }
}

// The answer of all alternatives at a row, and the number tried; row 0 has no event.
pub fn match_row(scene: &Scene, lists: &Lists, row: usize) -> Matched
    requires { RowAskedOn scene.now lists.now row }
    ensures { MatchesOn scene.now lists.now row result.answer result.tries }
{
    if row == 0 {
        return Matched {
            answer: Answer::NoEvent,
            tries: 0,
        };
    }
    match_event(scene, lists, row)
}
