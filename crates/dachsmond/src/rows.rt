// Calls over the rows of a trace, for C.
ghost use Rattle.changes.specs.Call.{RowChanged};
ghost use Rattle.telling.specs.Handing.{Hands, told_changes};

use alf::RowNo;
use changes::changes_at;
use telling::Changed;
use telling::rows::tell_changes;

// The changed variables of a row, bit i for name i, and how many they are.
pub fn dachsmond_changes_at(names: usize, n: usize, states: &[u8], row: u32) -> Changed
    ensures { Hands (RowChanged names n states.now row) told_changes result }
{
    tell_changes(changes_at(names, n, states, RowNo(row)))
}
