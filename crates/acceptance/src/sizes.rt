// The size of a vector expression in alternatives, steps and tests: limit 8, counted and not built.
ghost use Rattle.std.specs.Prelude.{◌≡◌, ◌<◌, ◌≤◌};
ghost use Rattle.trees.specs.Parts.{vector_at};
ghost use Rattle.alf.specs.Steady.{meant};
ghost use Rattle.steady_pins.specs.Finding.{Tree};
ghost use Rattle.acceptance.specs.Notes.{Noted};
ghost use Rattle.acceptance.specs.Sizes.{ShapingBy, ShapedAt, PartAt, Held, Combined, WithPins, Small, measured};
ghost use Rattle.acceptance.specs.Sizes.{PinnedTree, MeasuredAt};

use crate::counts::cap;
use crate::notes;
use alf::Rules;
use alternatives::picking;
use alternatives::picking::How;
use steady_pins::finding::find;

// How many alternatives, the steps of the longest, the tests of the one with most.
#[derive(Clone, Copy)]
pub struct Size {
    pub alternatives: usize,
    pub steps: usize,
    pub tests: usize,
}

// The steps and the tests of an alternative; 65 stands for more than 64.
#[derive(Clone, Copy)]
pub struct Shape {
    pub steps: usize,
    pub tests: usize,
}

// An alternative under a condition: one more test in each step.
fn hold(x: Shape) -> Shape
    requires { Small x.steps x.tests }
    ensures { Held x.steps x.tests result.steps result.tests }
{
    Shape {
        steps: x.steps,
        tests: cap(x.tests + x.steps),
    }
}

// Two alternatives put together.
fn combine(how: How, x: Shape, y: Shape) -> Shape
    requires { Small x.steps x.tests × Small y.steps y.tests }
    ensures { Combined how x.steps x.tests y.steps y.tests result.steps result.tests }
{
    let tests = cap(x.tests + y.tests);
    match how {
        How::Left => x,
        How::Right => y,
        How::LeftFirst => Shape {
            steps: cap(x.steps + y.steps),
            tests,
        },
        How::RightFirst => Shape {
            steps: cap(y.steps + x.steps),
            tests,
        },
        How::Together => Shape {
            steps: x.steps.max(y.steps),
            tests,
        },
    }
}

// An alternative with n pins: their tests are in its last step.
fn pin(x: Shape, n: usize) -> Shape
    requires { Small x.steps x.tests × (n ≤ 32) }
    ensures { WithPins x.steps x.tests n result.steps result.tests }
{
    Shape {
        steps: x.steps,
        tests: cap(x.tests + n),
    }
}

// Of a part of two, joined by `|`: the end of the operand that an alternative is from, and which one of it.
#[derive(Clone, Copy)]
pub struct Part {
    pub end: usize,
    pub t: usize,
}

// Alternative t of P | Q, which end at `left` and `right`; P has n.
pub fn part_at(left: usize, right: usize, n: usize, t: usize) -> Part
    ensures { PartAt left right n t result.end result.t }
{
    if t < n {
        return Part { end: left, t };
    }
    Part {
        end: right,
        t: t - n,
    }
}

// The steps and the tests of alternative t of the vector expression that ends at `end`, with its pins.
pub fn shape_of(
    tree: &[u8],
    pins: &[u8; 8192],
    notes: &[u8; 768],
    end: usize,
    names: usize,
    t: usize,
) -> Shape
    requires { ShapingBy pins.now notes.now tree.now names end t }
    ensures { ShapedAt pins.now tree.now names end t result.steps result.tests }
{
    let at = end - 1;
    let b = tree[at];
    let pinned = notes::pins_at(pins, notes, end);
    if 64 <= b {
        let tests = 1 + pinned;
        return Shape { steps: 1, tests };
    }
    if b == 57 {
        return hold(shape_of(tree, pins, notes, at, names, t));
    }
    let left = notes::start_at(tree, notes, at, names);
    if b == 56 {
        return hold(shape_of(tree, pins, notes, left, names, t));
    }
    let n = notes::count_at(tree, notes, left, names);
    if b == 55 {
        let q = part_at(left, at, n, t);
        return pin(shape_of(tree, pins, notes, q.end, names, q.t), pinned);
    }
    let m = notes::count_at(tree, notes, at, names);
    let p = picking::find(b, n, m, t);
    let x = shape_of(tree, pins, notes, left, names, p.left);
    let y = shape_of(tree, pins, notes, at, names, p.right);
    let how = p.how;
    pin(combine(how, x, y), pinned)
}

// The size of the vector expression that ends at `end`, with its pins, or that it is over limit 8.
fn measure_pinned(
    tree: &[u8],
    pins: &[u8; 8192],
    notes: &[u8; 768],
    end: usize,
    names: usize,
) -> Option<Size>
    requires { PinnedTree pins.now tree.now names end × Noted pins.now notes.now tree.now names end }
    ensures { MeasuredAt pins.now tree.now names end result }
{
    let n = notes::count_at(tree, notes, end, names);
    if 64 < n {
        return None;
    }
    let mut steps: usize = 0;
    let mut tests: usize = 0;
    for t in 0..n {
        let x = shape_of(tree, pins, notes, end, names, t);
        steps = steps.max(x.steps);
        tests = tests.max(x.tests);
    }
    if 16 < steps {
        return None;
    }
    if 64 < tests {
        return None;
    }
    Some(Size {
        alternatives: n,
        steps,
        tests,
    })
}

// The size of the vector expression that ends at `end`, as the rules read it, or that it is over limit 8.
pub fn measure(rules: Rules, tree: &[u8], end: usize, names: usize) -> Option<Size>
    requires { Tree tree.now names end }
    ensures { result ≡ measured (meant rules (vector_at tree.now names end)) }
{
    let pins = find(rules, tree, end, names);
    let notes = notes::note(tree, &pins, end, names);
    measure_pinned(tree, &pins, &notes, end, names)
}
