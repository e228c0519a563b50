// How many events the longest window has on which a vector expression can answer other than no, by recursion over the
// tree in its array: each operand ends before its operator.
ghost use Rattle.std.specs.Prelude.{◌≡◌};
ghost use Rattle.trees.specs.Parts.{EndsVector, vector_at};
ghost use Rattle.window_answers.specs.Lengths.{longest};

use trees::parts::start_of;

// The longest window of the vector expression that ends at `end`: on windows of more events it answers no.
pub fn longest(tree: &[u8], end: usize, names: usize) -> usize
    requires { EndsVector tree.now names end }
    ensures { result ≡ longest (vector_at tree.now names end) }
{
    let at = end - 1;
    let b = tree[at];
    if 64 <= b {
        return 1;
    }
    if b == 57 {
        return longest(tree, at, names);
    }
    let left = start_of(tree, at, names);
    let x = longest(tree, left, names);
    if b == 56 {
        return x;
    }
    let y = longest(tree, at, names);
    if b < 54 {
        return x + y;
    }
    x.max(y)
}
