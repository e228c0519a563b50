// Document 01's listing of a pattern's answers, from its tree and a trace. The answers stand in a list of this call's
// own, without the numbers tried.
ghost use Rattle.std.specs.Prelude.{◌≡◌, length};
ghost use Rattle.basics.specs.Words.{listed};
ghost use Rattle.figures.specs.Delivering.{Delivers};
ghost use Rattle.matching_calls.specs.Matching.{expression, answers_on};
ghost use Rattle.tree_listings.specs.TreeTexts.{pattern_listing, ListsTree, Answered, Filling, Holding};

use alf::{Rules, Sort};
use basics::Refusal;
use column_listings::listings::write_listing;
use correction::corrections::rewrite;
use judging::checks::check_rows;
use matcher::scenes::Scene;
use rewriting::lists::alternatives_of;

// The answers of an accepted tree at n rows, into a list of n.
fn fill_answers(
    rules: Rules,
    names: usize,
    n: usize,
    tree: &[u8],
    states: &[u8],
    answers: &mut [u8],
)
    requires { Filling rules names n tree.now states.now answers.old }
    ensures { answers.new ≡ listed 0 n (answers_on rules names tree.now
        states.now) }
{
    let a = alternatives_of(rules, tree, names);
    let lists = a.lists();
    let scene = Scene {
        rules,
        tree,
        names,
        states,
    };
    rewrite(&scene, &lists, n, 0, n, answers)
}

// They are found, and listed.
fn list_filled(
    rules: Rules,
    names: usize,
    tree: &[u8],
    times: &[u64],
    states: &[u8],
    answers: &mut [u8],
    out: &mut [u8],
) -> Result<usize, Refusal>
    requires { Filling rules names (length times.now) tree.now states.now answers.old }
    ensures { Delivers (pattern_listing rules names times.now states.now
        (expression rules tree.now names)) out.old out.new result }
{
    fill_answers(rules, names, times.len(), tree, states, answers);
    write_listing(times, answers, out)
}

// In the front of a list of 65,535.
fn list_front(
    rules: Rules,
    names: usize,
    tree: &[u8],
    times: &[u64],
    states: &[u8],
    answers: &mut [u8],
    out: &mut [u8],
) -> Result<usize, Refusal>
    requires { Holding rules names (length times.now) tree.now states.now answers.old }
    ensures { Delivers (pattern_listing rules names times.now states.now
        (expression rules tree.now names)) out.old out.new result }
{
    let n = times.len();
    list_filled(rules, names, tree, times, states, &mut answers[0..n], out)
}

fn list_lent(
    rules: Rules,
    names: usize,
    tree: &[u8],
    times: &[u64],
    states: &[u8],
    answers: &mut [u8; 65535],
    out: &mut [u8],
) -> Result<usize, Refusal>
    requires { Answered rules names (length times.now) tree.now states.now }
    ensures { Delivers (pattern_listing rules names times.now states.now
        (expression rules tree.now names)) out.old out.new result }
{
    list_front(rules, names, tree, times, states, &mut answers[..], out)
}

// An accepted tree on a good trace.
fn list_good(
    rules: Rules,
    names: usize,
    tree: &[u8],
    times: &[u64],
    states: &[u8],
    out: &mut [u8],
) -> Result<usize, Refusal>
    requires { Answered rules names (length times.now) tree.now states.now }
    ensures { Delivers (pattern_listing rules names times.now states.now
        (expression rules tree.now names)) out.old out.new result }
{
    let mut answers = [0u8; 65535];
    list_lent(rules, names, tree, times, states, &mut answers, out)
}

// A line for each of n rows with its time and the answer of a pattern's tree, and a last line with the totals; the
// length of all. Refused with 18, 10, 15 or 9.
pub fn list(
    rules: Rules,
    names: usize,
    n: usize,
    tree: &[u8],
    times: &[u64],
    states: &[u8],
    out: &mut [u8],
) -> Result<usize, Refusal>
    ensures { ListsTree rules names n tree.now times.now states.now
        out.old out.new result }
{
    let lent = times.len() == n;
    check_rows(rules, names, n, lent, tree, Sort::Vector, states)?;
    list_good(rules, names, tree, times, states, out)
}
