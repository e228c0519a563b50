// All alternatives of a tree, written into four lists: steps of each alternative, tests of each step, and for each test
// its edge's number and its operand's end.
ghost use Rattle.alf.specs.declared.Sort.TheVariants.{Vector};
ghost use Rattle.std.specs.Prelude.{length};
ghost use Rattle.acceptance.specs.Accepted.{Accepted};
ghost use Rattle.acceptance.specs.Notes.{Noted};
ghost use Rattle.rewriting.specs.Lists.{alternatives_by, Ready, Adding, Added, Fillable, Filled, Long, Holds};
ghost use Rattle.rewriting.specs.Lists.{Fronts, Lends};

use acceptance::{notes, sizes};
use alf::Rules;
use alternatives::lists::Lists;
use steady_pins::finding::find;
use step_tests::steps::put_step;

// How many entries the lists have: alternatives, steps of all of them, tests of all those.
#[derive(Clone, Copy)]
pub struct Lengths {
    pub alternatives: usize,
    pub steps: usize,
    pub tests: usize,
}

// The lists of a tree, and how many of their entries are in use; zeros stand behind those.
#[derive(Clone, Copy)]
pub struct Alternatives {
    pub count: usize,
    pub step_count: usize,
    pub test_count: usize,
    pub steps: [u8; 64],
    pub tests: [u8; 1024],
    pub edges: [u8; 4096],
    pub operands: [u16; 4096],
}

impl Alternatives {
    // The lists without the zeros behind them.
    pub fn lists(&self) -> Lists<'_>
        requires { Fronts self.now }
        ensures { Lends self.now result }
    {
        Lists {
            steps: &self.steps[..self.count],
            tests: &self.tests[..self.step_count],
            edges: &self.edges[..self.test_count],
            operands: &self.operands[..self.test_count],
        }
    }
}

// How long the lists are.
pub fn lengths_of(tree: &[u8], pins: &[u8; 8192], notes: &[u8; 768], names: usize) -> Lengths
    requires { Ready pins.now tree.now names
        × Noted pins.now notes.now tree.now names (length tree.now) }
    ensures { Long (alternatives_by pins.now tree.now names) result.alternatives result.steps
        result.tests }
{
    let end = tree.len();
    let n = notes::count_at(tree, notes, end, names);
    let mut steps: usize = 0;
    let mut tests: usize = 0;
    for t in 0..n {
        let x = sizes::shape_of(tree, pins, notes, end, names, t);
        steps += x.steps;
        tests += x.tests;
    }
    Lengths {
        alternatives: n,
        steps,
        tests,
    }
}

// The n steps of alternative t: how many tests each has, from place s on, and these tests, from place `from` on; the
// place behind them.
fn put_alternative(
    tree: &[u8],
    pins: &[u8; 8192],
    notes: &[u8; 768],
    names: usize,
    t: usize,
    n: usize,
    tests: &mut [u8],
    s: usize,
    edges: &mut [u8],
    operands: &mut [u16],
    from: usize,
) -> usize
    requires { Adding pins.now tree.now names t n tests.old s edges.old operands.old from
        × Noted pins.now notes.now tree.now names (length tree.now) }
    ensures { Added pins.now tree.now names t tests.old s
        edges.old operands.old from tests.new edges.new
        operands.new result }
{
    let end = tree.len();
    let mut at = from;
    for j in 0..n {
        let next = put_step(tree, pins, notes, end, names, t, n, j, edges, operands, at);
        tests[s + j] = (next - at) as u8;
        at = next;
    }
    at
}

// All of its alternatives, one after the other, where there is room.
pub fn fill(
    tree: &[u8],
    pins: &[u8; 8192],
    notes: &[u8; 768],
    names: usize,
    steps: &mut [u8],
    tests: &mut [u8],
    edges: &mut [u8],
    operands: &mut [u16],
)
    requires { Fillable pins.now tree.now names steps.old tests.old edges.old operands.old
        × Noted pins.now notes.now tree.now names (length tree.now) }
    ensures { Filled (alternatives_by pins.now tree.now names) steps.old
        tests.old edges.old operands.old steps.new tests.new
        edges.new operands.new }
{
    let end = tree.len();
    let count = notes::count_at(tree, notes, end, names);
    let mut s: usize = 0;
    let mut from: usize = 0;
    for t in 0..count {
        let x = sizes::shape_of(tree, pins, notes, end, names, t);
        let n = x.steps;
        steps[t] = n as u8;
        from = put_alternative(
            tree, pins, notes, names, t, n, tests, s, edges, operands, from,
        );
        s += n;
    }
}

// The same into arrays, which have room for any tree that is accepted.
fn fill_arrays(
    tree: &[u8],
    pins: &[u8; 8192],
    notes: &[u8; 768],
    names: usize,
    steps: &mut [u8; 64],
    tests: &mut [u8; 1024],
    edges: &mut [u8; 4096],
    operands: &mut [u16; 4096],
)
    requires { Ready pins.now tree.now names
        × Noted pins.now notes.now tree.now names (length tree.now) }
    ensures { Filled (alternatives_by pins.now tree.now names) steps.old
        tests.old edges.old operands.old steps.new tests.new
        edges.new operands.new }
{
    fill(
        tree,
        pins,
        notes,
        names,
        &mut steps[..],
        &mut tests[..],
        &mut edges[..],
        &mut operands[..],
    );
}

// The alternatives of an accepted tree, as the rules read it.
pub fn alternatives_of(rules: Rules, tree: &[u8], names: usize) -> Alternatives
    requires { Accepted rules names Vector tree.now }
    ensures { Holds rules tree.now names result }
{
    let pins = find(rules, tree, tree.len(), names);
    let notes = notes::note(tree, &pins, tree.len(), names);
    let lengths = lengths_of(tree, &pins, &notes, names);
    let mut lists = Alternatives {
        count: lengths.alternatives,
        step_count: lengths.steps,
        test_count: lengths.tests,
        steps: [0u8; 64],
        tests: [0u8; 1024],
        edges: [0u8; 4096],
        operands: [0u16; 4096],
    };
    fill_arrays(
        tree,
        &pins,
        &notes,
        names,
        &mut lists.steps,
        &mut lists.tests,
        &mut lists.edges,
        &mut lists.operands,
    );
    lists
}
