// The part of the table that belongs to an edge, a condition or an operator: each entry is worked out once, from a list
// of states or from the parts of the operands.
ghost use Rattle.answer_table.specs.Tables.{LeafPart, LeafRow, OperatorPart, OperatorRow, Row, Part};
ghost use Rattle.answer_table.specs.Tables.{entry, stored, leaf_over_lem, operated};

use crate::columns::{held_next, leaf_over};
use crate::cuts::operate;

// The windows from row `a` on, of a leaf: an edge (byte `k`, 64 or more) or a condition, asked row after row.
fn leaf_row(k: u8, list: &[u8; 17], a: usize, size: usize, base: usize, table: &mut [u8; 65536])
    requires { LeafRow list.now a size base table.old }
    ensures { Row (leaf_over_lem k (entry list.now)) base a size table.old
        table.new }
{
    let mut x = held_next(2, list, a);
    for j in a..size {
        x = leaf_over(k, x, list, a, j + 1);
        let i = base + a * 16 + j;
        table[i] = x;
    }
}

// All windows of a leaf.
pub fn leaf_part(k: u8, list: &[u8; 17], size: usize, base: usize, table: &mut [u8; 65536])
    requires { LeafPart list.now size base table.old }
    ensures { Part (leaf_over_lem k (entry list.now)) base size size table.old
        table.new }
{
    for a in 0..size {
        leaf_row(k, list, a, size, base, table);
    }
}

// The windows from row `a` on, of operator `k` on the parts that start at `p` and at `q`.
fn operator_row(
    k: u8,
    p: usize,
    q: usize,
    a: usize,
    size: usize,
    base: usize,
    table: &mut [u8; 65536],
)
    requires { OperatorRow k p q a size base table.old }
    ensures { Row (operated k (stored table.old p) (stored table.old q)) base a size
        table.old table.new }
{
    for j in a..size {
        let x = operate(k, table, p, q, a, j + 1);
        let i = base + a * 16 + j;
        table[i] = x;
    }
}

// All windows of an operator.
pub fn operator_part(k: u8, p: usize, q: usize, size: usize, base: usize, table: &mut [u8; 65536])
    requires { OperatorPart k p q size base table.old }
    ensures { Part (operated k (stored table.old p) (stored table.old q)) base size size
        table.old table.new }
{
    for a in 0..size {
        operator_row(k, p, q, a, size, base, table);
    }
}
