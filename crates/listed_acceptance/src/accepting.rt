// Whether alternatives that are handed in as lists are accepted: for the calls over them, and as a call by itself.
ghost use Rattle.basics.specs.Deciding.{Decides};
ghost use Rattle.listed_acceptance.specs.Lists.{Shaped, AcceptedAlternatives};
ghost use Rattle.listed_acceptance.specs.Fitting.{ListedFits};

use crate::counting::{are_light, are_stepped, sums_to};
use crate::operands::{are_known, are_operands};
use basics::Refusal;
use basics::refusing::refuse;
use rewriting_calls::names_fit;

// Whether the lists fit each other and are within limit 8, with one alternative or more, none without a step.
pub fn are_shaped(steps: &[u8], tests: &[u8], edges: usize, operands: usize) -> bool
    ensures { Decides result (Shaped steps.now tests.now edges operands) }
{
    if steps.len() == 0 {
        return false;
    }
    if 64 < steps.len() {
        return false;
    }
    if operands != edges {
        return false;
    }
    if !are_stepped(steps) {
        return false;
    }
    if !sums_to(steps, tests.len()) {
        return false;
    }
    if !sums_to(tests, edges) {
        return false;
    }
    are_light(steps, tests)
}

// Whether they are accepted. No public call of the library: it asks nothing of the number of names.
pub fn fits(
    names: usize,
    tree: &[u8],
    steps: &[u8],
    tests: &[u8],
    edges: &[u8],
    operands: &[u16],
) -> bool
    ensures { Decides result (AcceptedAlternatives names tree.now steps.now
        tests.now edges.now operands.now) }
{
    if !are_shaped(steps, tests, edges.len(), operands.len()) {
        return false;
    }
    if !are_known(edges) {
        return false;
    }
    are_operands(tree, names, operands)
}

// How many alternatives are handed in, where they are accepted. Refused with 18 or 10.
pub fn count_listed(
    names: usize,
    tree: &[u8],
    steps: &[u8],
    tests: &[u8],
    edges: &[u8],
    operands: &[u16],
) -> Result<usize, Refusal>
    ensures { ListedFits names tree.now steps.now tests.now
        edges.now operands.now result }
{
    if !names_fit(names) {
        return refuse(18, 0);
    }
    if !fits(names, tree, steps, tests, edges, operands) {
        return refuse(10, 0);
    }
    Ok(steps.len())
}
