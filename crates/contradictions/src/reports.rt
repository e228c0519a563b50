// The report of the contradictory alternatives of a tree: a flag for each.
ghost use Rattle.acceptance.specs.Accepted.{Accepted};
ghost use Rattle.alf.specs.Refusals.{NameCount};
ghost use Rattle.alf.specs.declared.Sort.TheVariants.{Vector};
ghost use Rattle.contradictions.specs.Calls.{Reports, Contradicts};

use crate::possible::flag_all;
use acceptance::accepting::accepts;
use alf::{Rules, Sort};
use basics::Refusal;
use basics::refusing::refuse;
use rewriting::lists::alternatives_of;
use rewriting_calls::names_fit;

// The report for an accepted tree: 9, or a flag for each alternative.
fn report(rules: Rules, names: usize, tree: &[u8], flags: &mut [u8]) -> Result<usize, Refusal>
    requires { Accepted rules names Vector tree.now × NameCount names }
    ensures { Reports rules names tree.now flags.old flags.new result }
{
    let a = alternatives_of(rules, tree, names);
    if flags.len() < a.count {
        return refuse(9, a.count);
    }
    flag_all(tree, names, &a.lists(), flags);
    Ok(a.count)
}

// A flag for each alternative of a tree, as the rules read it, 1 where it is contradictory, else 0; how many. Refused
// with 18, 10 or 9, in this order.
pub fn contradictions(
    rules: Rules,
    names: usize,
    tree: &[u8],
    flags: &mut [u8],
) -> Result<usize, Refusal>
    ensures { Contradicts rules names tree.now flags.old flags.new result }
{
    if !names_fit(names) {
        return refuse(18, 0);
    }
    if !accepts(rules, tree, names, Sort::Vector) {
        return refuse(10, 0);
    }
    report(rules, names, tree, flags)
}
