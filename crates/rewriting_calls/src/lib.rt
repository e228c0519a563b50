// The call `rewrite`: the alternatives of a tree, written into lent lists, or a refusal.
#![tactic(auto)]

ghost use Rattle.std.specs.Prelude.{◌≡◌, length};
ghost use Rattle.alf.specs.Refusals.{NameCount};
ghost use Rattle.basics.specs.Deciding.{Decides};
ghost use Rattle.acceptance.specs.Notes.{Noted};
ghost use Rattle.rewriting.specs.Lists.{alternatives_by, Ready};
ghost use Rattle.rewriting_calls.specs.Calls.{Delivers, Rewrites};

use acceptance::accepting::accepts;
use acceptance::notes::note;
use alf::{Rules, Sort};
use basics::Refusal;
use basics::refusing::refuse;
use rewriting::lists::{fill, lengths_of};
use steady_pins::finding::find;

// Whether there are 1 to 32 names.
pub fn names_fit(names: usize) -> bool
    ensures { Decides result (NameCount names) }
{
    0 < names && names <= 32
}

// The lists of an accepted tree with its pins: 9 for the first short one, or all of them.
fn deliver(
    names: usize,
    tree: &[u8],
    pins: &[u8; 8192],
    notes: &[u8; 768],
    steps: &mut [u8],
    tests: &mut [u8],
    edges: &mut [u8],
    operands: &mut [u16],
) -> Result<usize, Refusal>
    requires { Ready pins.now tree.now names
        × Noted pins.now notes.now tree.now names (length tree.now) }
    ensures { Delivers (alternatives_by pins.now tree.now names) steps.old
        tests.old edges.old operands.old steps.new tests.new
        edges.new operands.new result }
{
    let l = lengths_of(tree, pins, notes, names);
    if steps.len() < l.alternatives {
        return refuse(9, l.alternatives);
    }
    if tests.len() < l.steps {
        return refuse(9, l.steps);
    }
    if edges.len() < l.tests {
        return refuse(9, l.tests);
    }
    if operands.len() < l.tests {
        return refuse(9, l.tests);
    }
    fill(tree, pins, notes, names, steps, tests, edges, operands);
    Ok(l.alternatives)
}

// The alternatives of a tree, as the rules read it, into four lent lists; how many. Refused with 18, 10 or 9, in this
// order, 9 for the first short list.
pub fn rewrite(
    rules: Rules,
    names: usize,
    tree: &[u8],
    steps: &mut [u8],
    tests: &mut [u8],
    edges: &mut [u8],
    operands: &mut [u16],
) -> Result<usize, Refusal>
    ensures { Rewrites rules names tree.now steps.old tests.old
        edges.old operands.old steps.new tests.new edges.new
        operands.new result }
{
    if !names_fit(names) {
        return refuse(18, 0);
    }
    if !accepts(rules, tree, names, Sort::Vector) {
        return refuse(10, 0);
    }
    let pins = find(rules, tree, tree.len(), names);
    let notes = note(tree, &pins, tree.len(), names);
    deliver(names, tree, &pins, &notes, steps, tests, edges, operands)
}
