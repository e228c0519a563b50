// How deep the brackets nest in an expression's text with only needed brackets.
ghost use Rattle.std.specs.Prelude.{◌≡◌, ◌+◌, ◌<◌, ◌≤◌, min, ltb, if◌then◌else◌};
ghost use Rattle.trees.specs.Parts.{Ends, expression_at};
ghost use Rattle.trees.specs.Brackets.{level_at, depth_of};

use crate::parts;

// The levels of the bytes 40 to 55: & | ^ ~^ == != > < >= <= and -> <-> &> <&> & |.
const LEVELS: [u8; 16] = [3, 5, 2, 2, 2, 2, 2, 2, 2, 2, 4, 4, 4, 4, 3, 5];

#[tactic(auto, unfolding(crate::specs::Brackets::level_at))]
fn level(b: u8) -> u8
    ensures { result ≡ level_at b }
{
    match b {
        0..=39 => 0,
        40..=55 => LEVELS[(b - 40) as usize],
        56..=59 => 3,
        60..=63 => 6,
        _ => 1,
    }
}

// The depth of an operand whose last byte is `b`, in a place that takes levels up to `place`; 33 stands for more.
fn bracket(place: u8, b: u8, depth: usize) -> usize
    requires { depth ≤ 33 }
    ensures { result ≡ (if ltb place (level_at b) then min 33 (1 + depth) else depth) }
{
    if level(b) <= place {
        return depth;
    }
    (depth + 1).min(33)
}

// How deep the brackets of the expression that ends at `end` nest; 33 stands for more than 32.
pub fn depth_of(tree: &[u8], end: usize, names: usize) -> usize
    requires { Ends tree.now names end }
    ensures { result ≡ min 33 (depth_of (expression_at tree.now names end)) }
{
    let at = end - 1;
    let b = tree[at];
    if b < 40 {
        return 0;
    }
    let right = depth_of(tree, at, names);
    if 64 <= b {
        return bracket(1, tree[at - 1], right);
    }
    let middle = crate::parts::start_of(tree, at, names);
    let left = depth_of(tree, middle, names);
    if b < 60 {
        let place = level(b);
        let x = bracket(place, tree[middle - 1], left);
        return x.max(bracket(place - 1, tree[at - 1], right));
    }
    let start = crate::parts::start_of(tree, middle, names);
    let first = depth_of(tree, start, names);
    bracket(5, tree[start - 1], first).max(left.max(right))
}
