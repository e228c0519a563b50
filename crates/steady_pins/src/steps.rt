// The steps of a tree: edges or edges joined by `&`; whether one changes, and on which plain names it has edges.
ghost use Rattle.std.specs.Prelude.{◌≡◌};
ghost use Rattle.alf.specs.Decoder.{edge_at};
ghost use Rattle.alf.specs.Steady.{is_changing, is_step_lem, moves};
ghost use Rattle.trees.specs.Parts.{EndsVector, vector_at};
ghost use Rattle.steady_pins.specs.Finding.{StepAt, own};

use trees::parts::start_of;

// Whether edge k changes: two different states, or `?!`.
fn is_changing(k: u8) -> bool
    ensures { result ≡ is_changing (edge_at k) }
{
    if 81 <= k {
        return k == 81;
    }
    let f = k / 9;
    let t = k % 9;
    if f == 0 {
        return false;
    }
    if t == 0 {
        return false;
    }
    f != t
}

// Whether the expression that ends at `end` is a step.
pub fn is_step(tree: &[u8], end: usize, names: usize) -> bool
    requires { EndsVector tree.now names end }
    ensures { result ≡ is_step_lem (vector_at tree.now names end) }
{
    let at = end - 1;
    let b = tree[at];
    if 64 <= b {
        return true;
    }
    if b != 54 {
        return false;
    }
    let left = start_of(tree, at, names);
    if is_step(tree, left, names) {
        return is_step(tree, at, names);
    }
    false
}

// Whether the step that ends at `end` has a changing edge.
pub fn moves(tree: &[u8], end: usize, names: usize) -> bool
    requires { StepAt tree.now names end }
    ensures { result ≡ moves (vector_at tree.now names end) }
{
    let at = end - 1;
    let b = tree[at];
    if 64 <= b {
        return is_changing(b - 64);
    }
    let left = start_of(tree, at, names);
    if moves(tree, left, names) {
        return true;
    }
    moves(tree, at, names)
}

// The places of the plain names of the step that ends at `end`, over others.
pub fn own(tree: &[u8], end: usize, names: usize, places: [u8; 32]) -> [u8; 32]
    requires { StepAt tree.now names end }
    ensures { result ≡ own end (vector_at tree.now names end) places }
{
    let at = end - 1;
    let b = tree[at];
    let mut r = places;
    if 64 <= b {
        let c = tree[at - 1];
        if c < 32 {
            r[c as usize] = at as u8;
        }
        return r;
    }
    let left = start_of(tree, at, names);
    r = own(tree, at, names, r);
    own(tree, left, names, r)
}
