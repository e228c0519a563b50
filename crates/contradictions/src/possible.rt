// Contradictory alternatives, over the lists in memory: whether for some name and row no state answers yes to all
// literals asked there of the name itself. A function for each quantifier: tests, states, rows, names, alternatives.
ghost use Rattle.std.specs.Prelude.{◌≡◌, [], ◌∷◌, ◌<◌, ◌≤◌};
ghost use Rattle.alf.specs.Alternatives.{halves, possible, contradictory};
ghost use Rattle.alternatives.specs.InMemory.{test_of, step_in, alternative_in};
ghost use Rattle.alternatives.specs.Listed.{tests_listed, alternatives_listed};
ghost use Rattle.contradictions.specs.Possible.{side_of, allowed, row_literals, impossible};
ghost use Rattle.contradictions.specs.Possible.{Plain, LiteralsOn, RowOn, RowsOn, ReportedOn, Flagged};

use alternatives::lists::Lists;
use alternatives::walking::pass;
use states::edges::ask;

// Whether edge k of the operand that ends at `end` lets a name have state s, at the row before the event or, if
// `later`, at the row behind it. `?!`, `?-` and any operand but the name itself ask nothing of it.
fn test_allows(
    tree: &[u8],
    names: usize,
    k: u8,
    end: usize,
    later: bool,
    name: usize,
    s: u8,
) -> bool
    requires { Plain tree.now names end name s }
    ensures { result ≡ allowed (halves (side_of later) name
        (test_of tree.now names k end ∷ [])) s }
{
    if 80 < k {
        return true;
    }
    let at = end - 1;
    let b = tree[at];
    if b as usize != name {
        return true;
    }
    if later {
        return ask(k % 9, s) == 2;
    }
    ask(k / 9, s) == 2
}

// The same of the n tests from t on.
fn step_allows(
    tree: &[u8],
    names: usize,
    lists: &Lists,
    t: usize,
    n: usize,
    later: bool,
    name: usize,
    s: u8,
) -> bool
    requires { LiteralsOn tree.now names lists.now t n name s }
    ensures { result ≡ allowed (halves (side_of later) name
        (step_in (tests_listed tree.now names lists.now) t n)) s }
{
    for i in 0..n {
        let k = lists.edges[t + i];
        let end = lists.operands[t + i] as usize;
        if !test_allows(tree, names, k, end, later, name, s) {
            return false;
        }
    }
    true
}

// Whether state s answers yes to all literals asked of a name at a row: by the second halves of the b tests from t on,
// which lead to the row, and by the first halves of the n tests behind those, which lead on from it.
fn row_allows(
    tree: &[u8],
    names: usize,
    lists: &Lists,
    t: usize,
    b: usize,
    n: usize,
    name: usize,
    s: u8,
) -> bool
    requires { RowOn tree.now names lists.now t b n name × (s < 8) }
    ensures { result ≡ allowed (row_literals
        (tests_listed tree.now names lists.now) t b n name) s }
{
    step_allows(tree, names, lists, t, b, true, name, s)
        && step_allows(tree, names, lists, t + b, n, false, name, s)
}

// Whether some state does.
fn row_possible(
    tree: &[u8],
    names: usize,
    lists: &Lists,
    t: usize,
    b: usize,
    n: usize,
    name: usize,
) -> bool
    requires { RowOn tree.now names lists.now t b n name }
    ensures { result ≡ possible (row_literals
        (tests_listed tree.now names lists.now) t b n name) }
{
    (0..8).any(|s| row_allows(tree, names, lists, t, b, n, name, s))
}

// Whether a name has no possible state at some row of the n steps from step s on, whose tests start at t.
fn name_impossible(
    tree: &[u8],
    names: usize,
    lists: &Lists,
    s: usize,
    n: usize,
    t: usize,
    name: usize,
) -> bool
    requires { RowsOn tree.now names lists.now s n t × (name < 32) }
    ensures { result ≡ impossible (alternative_in lists.now.tests.now
        (tests_listed tree.now names lists.now) s t n) name }
{
    let mut at = t;
    let mut before: usize = 0;
    for j in 0..n {
        let many = lists.tests[s + j] as usize;
        if !row_possible(tree, names, lists, at, before, many, name) {
            return true;
        }
        at += before;
        before = many;
    }
    !row_possible(tree, names, lists, at, before, 0, name)
}

// Whether these steps are contradictory.
fn contradicts(tree: &[u8], names: usize, lists: &Lists, s: usize, n: usize, t: usize) -> bool
    requires { RowsOn tree.now names lists.now s n t × (names ≤ 32) }
    ensures { result ≡ contradictory names (alternative_in lists.now.tests.now
        (tests_listed tree.now names lists.now) s t n) }
{
    (0..names).any(|name| name_impossible(tree, names, lists, s, n, t, name))
}

// A flag for each alternative: 1 where it is contradictory, else 0.
pub fn flag_all(tree: &[u8], names: usize, lists: &Lists, flags: &mut [u8])
    requires { ReportedOn tree.now names lists.now flags.old }
    ensures { Flagged names (alternatives_listed tree.now names lists.now) flags.old flags.new }
{
    let mut s: usize = 0;
    let mut t: usize = 0;
    for k in 0..lists.steps.len() {
        let n = lists.steps[k] as usize;
        flags[k] = u8::from(contradicts(tree, names, lists, s, n, t));
        t = pass(lists.tests, s, n, t);
        s += n;
    }
}
