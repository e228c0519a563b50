// The pins of an expression, in its part of the table: a pin is an operand's `?-`, joined by `&`. So the windows that
// end at a row where a pin has another state than at the row before answer no, and the others answer as without it.
ghost use Rattle.std.specs.Prelude.{◌-◌, ◌*◌};
ghost use Rattle.answer_table.specs.Tables.{Ending, LeafPart};
ghost use Rattle.held_parts.specs.Holding.{Cleared, ends_at, list_moves, place_moves, part_moves, Leaf, Holding};

use alf::Rules;
use answer_table::columns::column;

// The windows that end at row `b` answer no.
fn clear(b: usize, base: usize, table: &mut [u8; 65536])
    requires { Ending table.old base b }
    ensures { Cleared (ends_at b) base 16 table.old table.new }
{
    for a in 0..b {
        let i = base + a * 16 + (b - 1);
        table[i] = 0;
    }
}

// A pin whose states are listed.
fn hold_list(list: &[u8; 17], size: usize, base: usize, table: &mut [u8; 65536])
    requires { LeafPart list.now size base table.old }
    ensures { Cleared (list_moves list.now) base size table.old table.new }
{
    for b in 0..size {
        let next = b + 1;
        if list[b] != list[next] {
            clear(next, base, table);
        }
    }
}

// A pin that is the boolean expression that ends at `place`.
fn hold_pin(
    rules: Rules,
    tree: &[u8],
    place: u8,
    states: &[u8],
    names: usize,
    first: usize,
    size: usize,
    base: usize,
    table: &mut [u8; 65536],
)
    requires { Leaf tree.now place states.now names first size base table.old }
    ensures { Cleared (place_moves rules tree.now place states.now names first) base size
        table.old table.new }
{
    let list = column(rules, tree, place as usize, states, names, first, size);
    hold_list(&list, size, base, table);
}

// All pins of the part that ends at `end`: of its 32 entries most are 0, and no pin.
pub fn hold_part(
    rules: Rules,
    tree: &[u8],
    pins: &[u8; 8192],
    end: usize,
    states: &[u8],
    names: usize,
    first: usize,
    size: usize,
    table: &mut [u8; 65536],
)
    requires { Holding tree.now pins.now end states.now names first size table.old }
    ensures { Cleared
        (part_moves rules tree.now pins.now end states.now names first 32)
        ((end - 1) * 256) size table.old table.new }
{
    let at = end - 1;
    for k in 0..32 {
        let place = pins[at * 32 + k];
        if place != 0 {
            hold_pin(
                rules,
                tree,
                place,
                states,
                names,
                first,
                size,
                at * 256,
                table,
            );
        }
    }
}
