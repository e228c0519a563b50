// A tree's signs in the order of its text, with only needed brackets.
ghost use Rattle.std.specs.Prelude.{◌≡◌, ◌≤◌, ◌<◌};
ghost use Rattle.basics.specs.Memory.{Put, Room};
ghost use Rattle.writer.specs.Layout.{code_at, level_at, bracket};
ghost use Rattle.writer.specs.Layout.{Emitting, EmittingTwo, EmittingThree, Emitted};

use basics::puts::push;
use trees::parts::start_of;

// The token of an operator between two operands, from byte 40 on, and its level.
const CODES: [u8; 20] = [
    40, 41, 42, 43, 44, 45, 46, 47, 48, 49, 50, 51, 52, 53, 40, 41, 40, 40, 40, 40,
];

const LEVELS: [u8; 20] = [3, 5, 2, 2, 2, 2, 2, 2, 2, 2, 4, 4, 4, 4, 3, 5, 3, 3, 3, 3];

fn code_of(b: u8) -> u8
    requires { (40 ≤ b) × (b < 60) }
    ensures { result ≡ code_at b }
{
    CODES[(b - 40) as usize]
}

fn level_of(b: u8) -> u8
    requires { (40 ≤ b) × (b < 60) }
    ensures { result ≡ level_at b }
{
    LEVELS[(b - 40) as usize]
}

// A bracket where what is of level m is weaker than the level asked for.
fn put_bracket(out: &mut [u8], at: usize, b: u8, level: u8, m: u8) -> usize
    requires { Room out.old at (bracket b level m) }
    ensures { Put out.old at (bracket b level m) out.new result }
{
    if m <= level {
        return at;
    }
    push(out, at, b)
}

// An operator between its operands.
#[cycle(emit_emit_three_emit_two)]
fn emit_two(tree: &[u8], end: usize, names: usize, level: u8, out: &mut [u8], at: usize) -> usize
    requires { EmittingTwo tree.now names end level out.old at }
    ensures { Emitted tree.now names end level out.old at out.new result }
{
    let last = end - 1;
    let b = tree[last];
    let m = level_of(b);
    let mid = start_of(tree, last, names);
    let p = put_bracket(out, at, 62, level, m);
    let q = emit(tree, mid, names, m, out, p);
    let r = push(out, q, code_of(b));
    let s = emit(tree, last, names, m - 1, out, r);
    put_bracket(out, s, 63, level, m)
}

// A choice.
#[cycle(emit_emit_three_emit_two)]
fn emit_three(tree: &[u8], end: usize, names: usize, level: u8, out: &mut [u8], at: usize) -> usize
    requires { EmittingThree tree.now names end level out.old at }
    ensures { Emitted tree.now names end level out.old at out.new result }
{
    let last = end - 1;
    let mid = start_of(tree, last, names);
    let first = start_of(tree, mid, names);
    let p = put_bracket(out, at, 62, level, 6);
    let q = emit(tree, first, names, 5, out, p);
    let r = push(out, q, 60);
    let s = emit(tree, mid, names, 6, out, r);
    let u = push(out, s, 61);
    let v = emit(tree, last, names, 6, out, u);
    put_bracket(out, v, 63, level, 6)
}

// The signs of the expression that ends at `end`, where a level is asked for, from `at` on; the place behind them.
#[cycle(emit_emit_three_emit_two)]
pub fn emit(tree: &[u8], end: usize, names: usize, level: u8, out: &mut [u8], at: usize) -> usize
    requires { Emitting tree.now names end level out.old at }
    ensures { Emitted tree.now names end level out.old at out.new result }
{
    let last = end - 1;
    let b = tree[last];
    if b < 40 {
        return push(out, at, b);
    }
    if 64 <= b {
        let p = push(out, at, b);
        return emit(tree, last, names, 1, out, p);
    }
    if b < 60 {
        return emit_two(tree, end, names, level, out, at);
    }
    emit_three(tree, end, names, level, out, at)
}
