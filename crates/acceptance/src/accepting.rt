// Whether a tree is accepted for a sort and a number of names.
ghost use Rattle.std.specs.Prelude.{length};
ghost use Rattle.trees.specs.Parts.{Ends};
ghost use Rattle.steady_pins.specs.Finding.{Tree};
ghost use Rattle.acceptance.specs.Accepted.{Accepted, Shallow, Limited};
ghost use Rattle.basics.specs.Deciding.{Decides};

use crate::sizes;
use alf::{Rules, Sort};
use trees::{brackets, sorts};

// Whether the brackets of the whole tree's text nest at most 32 deep.
fn is_shallow(tree: &[u8], names: usize) -> bool
    requires { Ends tree.now names (length tree.now) }
    ensures { Decides result (Shallow tree.now names) }
{
    brackets::depth_of(tree, tree.len(), names) <= 32
}

// Whether the whole tree's vector expression, as the rules read it, is within limit 8.
fn is_small(rules: Rules, tree: &[u8], names: usize) -> bool
    requires { Tree tree.now names (length tree.now) }
    ensures { Decides result (Limited rules tree.now names) }
{
    sizes::measure(rules, tree, tree.len(), names).is_some()
}

// Whether a tree is accepted under the rules.
pub fn accepts(rules: Rules, tree: &[u8], names: usize, sort: Sort) -> bool
    ensures { Decides result (Accepted rules names sort tree.now) }
{
    if 256 < tree.len() {
        return false;
    }
    match (sorts::kind_of(tree, names), sort) {
        (Some(Sort::Boolean), Sort::Boolean) => is_shallow(tree, names),
        (Some(Sort::Vector), Sort::Vector) => is_small(rules, tree, names)
            && is_shallow(tree, names),
        _ => false,
    }
}
