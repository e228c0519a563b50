// States one after the other in a list, made in place from those of a trace or of operands in the same list.
ghost use Rattle.std.specs.Prelude.{◌+◌, ◌<◌, ◌≤◌, length};
ghost use Rattle.alf.specs.Values.{chosen};
ghost use Rattle.evaluator.specs.Rows.{IsState, settled_by};
ghost use Rattle.state_columns.specs.Entries.{Stated, States, NameRows, Two, Three};
ghost use Rattle.state_columns.specs.Entries.{name_rows, negated, operator_at, looked, operated, chosen_from};

use alf::Rules;
use evaluator::operators;
use states::states::not_of;

// Those of name b at the n rows from `lo` on, to the entries from o on.
pub fn copy_name(
    b: u8,
    states: &[u8],
    names: usize,
    lo: usize,
    n: usize,
    parts: &mut [u8],
    o: usize,
)
    requires { NameRows b states.now names lo n parts.old o }
    ensures { Stated parts.old o n (name_rows b states.now names lo) parts.new }
{
    for i in 0..n {
        parts[o + i] = states[(lo + i) * names + b as usize];
    }
}

// The state v, n times from o on.
pub fn fill(v: u8, n: usize, parts: &mut [u8], o: usize)
    requires v_bound { v < 8 }
    requires n_in_bounds { o + n ≤ length parts.old }
    ensures { Stated parts.old o n (λ i. v) parts.new }
{
    parts[o..o + n].fill(v);
}

// The negations of n states from o on, in their place.
pub fn negate(parts: &mut [u8], o: usize, n: usize)
    requires { States parts.old o n }
    ensures { Stated parts.old o n (negated parts.old o) parts.new }
{
    for i in 0..n {
        parts[o + i] = not_of(parts[o + i]);
    }
}

// The table of operator b of two states: entry 8 * left + right.
fn put_operator(b: u8, table: &mut [u8])
    requires le_b { (40 ≤ b) × (b < 50) }
    requires in_bounds { 64 ≤ length table.old }
    ensures { Stated table.old 0 64 (operator_at b) table.new }
{
    for q in 0..64 {
        let x = (q / 8) as u8;
        let y = (q % 8) as u8;
        table[q] = operators::operated(b, x, y);
    }
}

// What a table has for n states from o on and n from p on, in the place of the first.
fn look(table: &[u8; 64], parts: &mut [u8], o: usize, p: usize, n: usize)
    requires states { States table.now 0 64 }
    requires two { Two parts.old o p n }
    ensures { Stated parts.old o n (looked table.now parts.old o p)
        parts.new }
{
    for i in 0..n {
        let x = parts[o + i] as usize;
        let y = parts[p + i] as usize;
        parts[o + i] = table[8 * x + y];
    }
}

// Operator b of them.
pub fn operate(b: u8, parts: &mut [u8], o: usize, p: usize, n: usize)
    requires le_b { (40 ≤ b) × (b < 50) }
    requires two { Two parts.old o p n }
    ensures { Stated parts.old o n (operated b parts.old o p) parts.new }
{
    let mut table: [u8; 64] = [0; 64];
    put_operator(b, &mut table);
    look(&table, parts, o, p, n);
}

// The state of a choice by the state c, whose branches end with bytes a and b and have the states x and y.
fn chosen_of(rules: Rules, a: u8, b: u8, c: u8, x: u8, y: u8) -> u8
    requires { (c < 8) × (x < 8) × (y < 8) }
    ensures { IsState (chosen rules c (settled_by a x) (settled_by b y)) result }
{
    let v = operators::settle(a, x);
    let w = operators::settle(b, y);
    operators::choose(rules, c, v, w)
}

// The choices by n states from o on, of those from p on and from q on, in the place of the first.
pub fn choose(rules: Rules, a: u8, b: u8, parts: &mut [u8], o: usize, p: usize, q: usize, n: usize)
    requires { Three parts.old o p q n }
    ensures { Stated parts.old o n (chosen_from rules a b parts.old o p q)
        parts.new }
{
    for i in 0..n {
        let c = parts[o + i];
        let x = parts[p + i];
        let y = parts[q + i];
        parts[o + i] = chosen_of(rules, a, b, c, x, y);
    }
}
