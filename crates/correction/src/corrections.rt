// The correction of one row: the new states are stored, and the answers that depend on them are rewritten.
ghost use Rattle.std.specs.Prelude.{◌≡◌, ◌+◌, ◌-◌};
ghost use Rattle.alf.specs.Alternatives.{answer_of};
ghost use Rattle.alf.specs.Traces.{last_rewritten};
ghost use Rattle.alternatives.specs.Listed.{alternatives_listed};
ghost use Rattle.basics.specs.Words.{listed};
ghost use Rattle.matcher.specs.Scenes.{state_on, alternatives_on};
ghost use Rattle.basics.specs.Memory.{placed};
ghost use Rattle.correction.specs.Corrections.{Reaching, RewriteAskedOn, CorrectionAskedOn, Corrects};

use alf::{RowNo, Rules};
use alternatives::lists::Lists;
use alternatives::walking::longest;
use basics::puts::put;
use matcher::scenes::Scene;
use matcher::tables::number_at;

// The answers of the m rows from r on.
pub fn rewrite(scene: &Scene, lists: &Lists, n: usize, r: usize, m: usize, answers: &mut [u8])
    requires { RewriteAskedOn scene.now lists.now n r m
        answers.old }
    ensures { answers.new ≡ placed answers.old r (listed r m
        (answer_of (state_on scene.now)
        (alternatives_on scene.now lists.now))) }
{
    for i in 0..m {
        answers[r + i] = number_at(scene, lists, r + i);
    }
}

// How many rows of n from r on a change at row r reaches, where the longest alternative has k steps.
fn reached(k: usize, n: usize, r: usize) -> usize
    requires { Reaching k n r }
    ensures { result ≡ last_rewritten k n r + 1 - r }
{
    if r + k < n - 1 {
        return k + 1;
    }
    n - r
}

// Row r of n rows is corrected.
pub fn correct(
    rules: Rules,
    tree: &[u8],
    names: usize,
    lists: &Lists,
    n: usize,
    states: &mut [u8],
    answers: &mut [u8],
    row: RowNo,
    new: &[u8],
)
    requires { CorrectionAskedOn tree.now names states.old lists.now n
        row.0 answers.old new.now }
    ensures { Corrects rules names (alternatives_listed tree.now names lists.now) n row.0 states.old answers.old
        new.now states.new answers.new }
{
    let r = row.0 as usize;
    put(new, states, r * names);
    let k = longest(lists.steps) as usize;
    let m = reached(k, n, r);
    let scene = Scene {
        rules,
        tree,
        names,
        states,
    };
    rewrite(&scene, lists, n, r, m, answers)
}
