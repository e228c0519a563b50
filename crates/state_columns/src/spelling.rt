// The states of a boolean expression at rows one after the other, operand by operand: each operand ends before its
// operator. They are written to a part of a list: part d has 1,041 entries, from entry 1,041 * d on. The parts behind
// it are for the operands.
ghost use Rattle.state_columns.specs.Spelt.{SpellAsked, Spelt, PartsOf};

use crate::combining;
use alf::Rules;
use evaluator::values::state;
use trees::parts::start_of;

// At the n rows from `lo` on, row by row.
fn spell_rows(
    rules: Rules,
    tree: &[u8],
    end: usize,
    states: &[u8],
    names: usize,
    lo: usize,
    n: usize,
    parts: &mut [u8],
    d: usize,
)
    requires { SpellAsked tree.now names states.now end lo n parts.old d }
    ensures { Spelt rules tree.now names states.now end lo n parts.old d
        parts.new }
{
    let o = d * 1041;
    for i in 0..n {
        parts[o + i] = state(rules, tree, end, states, names, lo + i);
    }
}

// How many parts operator b takes.
fn parts_of(b: u8) -> usize
    ensures { PartsOf b result }
{
    if b < 60 { 2 } else { 3 }
}

// At the n rows from `lo` on; row by row where the parts do not reach.
pub fn spell(
    rules: Rules,
    tree: &[u8],
    end: usize,
    states: &[u8],
    names: usize,
    lo: usize,
    n: usize,
    parts: &mut [u8],
    d: usize,
)
    requires { SpellAsked tree.now names states.now end lo n parts.old d }
    ensures { Spelt rules tree.now names states.now end lo n parts.old d
        parts.new }
{
    let at = end - 1;
    let b = tree[at];
    let o = d * 1041;
    if b < 32 {
        combining::copy_name(b, states, names, lo, n, parts, o);
        return;
    }
    if b < 40 {
        combining::fill(b - 32, n, parts, o);
        return;
    }
    if 64 <= b {
        spell(rules, tree, at, states, names, lo, n, parts, d);
        combining::negate(parts, o, n);
        return;
    }
    if parts.len() < (d + parts_of(b)) * 1041 {
        spell_rows(rules, tree, end, states, names, lo, n, parts, d);
        return;
    }
    let left = start_of(tree, at, names);
    let p = (d + 1) * 1041;
    if b < 60 {
        spell(rules, tree, left, states, names, lo, n, parts, d);
        spell(rules, tree, at, states, names, lo, n, parts, d + 1);
        combining::operate(b, parts, o, p, n);
        return;
    }
    let first = start_of(tree, left, names);
    spell(rules, tree, first, states, names, lo, n, parts, d);
    spell(rules, tree, left, states, names, lo, n, parts, d + 1);
    spell(rules, tree, at, states, names, lo, n, parts, d + 2);
    let q = (d + 2) * 1041;
    combining::choose(rules, tree[left - 1], tree[at - 1], parts, o, p, q, n);
}
