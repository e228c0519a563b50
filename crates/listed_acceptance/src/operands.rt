// The tests of alternatives in lists: known edge codes, and operands that are boolean trees that a text gives.
ghost use Rattle.std.specs.Prelude.{◌≡◌, ◌-◌};
ghost use Rattle.basics.specs.Deciding.{Decides};
ghost use Rattle.listed_acceptance.specs.Lists.{Each, Known, Operand};

use acceptance::accepting::accepts;
use alf::Sort;
use states::rules::old_rules;
use trees::sorts::part_of;

// Whether each edge code is one.
pub fn are_known(edges: &[u8]) -> bool
    ensures { Decides result (Each Known edges.now) }
{
    for i in 0..edges.len() {
        if 82 < edges[i] {
            return false;
        }
    }
    true
}

// The place `most` bytes before `end`, or the first.
fn back(end: usize, most: usize) -> usize
    ensures { result ≡ end - most }
{
    if end < most {
        return 0;
    }
    end - most
}

// Whether the bytes before `end` end with a boolean tree that a text gives by itself. Such a tree has at most 256
// bytes, so no more are looked at, however long the list is.
pub fn is_operand(tree: &[u8], names: usize, end: usize) -> bool
    ensures { Decides result (Operand tree.now names end) }
{
    if tree.len() < end {
        return false;
    }
    let low = back(end, 256);
    match part_of(&tree[low..end], end - low, names) {
        Some(part) => accepts(
            old_rules(),
            &tree[low + part.start..end],
            names,
            Sort::Boolean,
        ),
        None => false,
    }
}

// Whether each operand is one.
pub fn are_operands(tree: &[u8], names: usize, operands: &[u16]) -> bool
    ensures { Decides result (Each (Operand tree.now names) operands.now) }
{
    for i in 0..operands.len() {
        if !is_operand(tree, names, operands[i] as usize) {
            return false;
        }
    }
    true
}
