// Calls over the rows of a trace, for C.
ghost use Rattle.changes.specs.Call.{RowChanged};
ghost use Rattle.telling.specs.Handing.{Hands, told_changes};

use telling::Changed;

// The changed variables of a row, bit i for name i, and how many they are.
#[unsafe(no_mangle)]
pub extern "C" fn dachsmond_changes_at(names: usize, n: usize, states: &[u8], row: u32) -> Changed
    ensures { Hands (RowChanged names n states.now row) told_changes result }
{
    dachsmond::rows::dachsmond_changes_at(names, n, states, row)
}
