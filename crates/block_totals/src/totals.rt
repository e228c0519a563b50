// The totals of all rows, block by block.
ghost use Rattle.std.specs.Prelude.{◌≡◌, length};
ghost use Rattle.matcher.specs.Tables.{RowsAskedOn, TotalsOn};
ghost use Rattle.blocks.specs.Rows.{BlockOn, BlocksAskedOn, Suited, Scratch};
ghost use Rattle.block_totals.specs.Counting.{BlockCountedOn};

use alternatives::lists::Lists;
use blocks::rows::{Columns, answer_block, prepare, suits};
use columns::passes::tally;
use matcher::scenes::Scene;
use matcher::tables::Total;

// How many of the m rows from `from` on are yes, no and unknown.
fn count_block(
    scene: &Scene,
    lists: &Lists,
    columns: &Columns,
    from: usize,
    m: usize,
    cols: &mut [u8],
) -> Total
    requires { BlockOn scene.now lists.now columns.now from m cols.old }
    ensures block_counted { BlockCountedOn scene.now lists.now columns.now from m result.yes
        result.no result.unknown }
    ensures cols_len_unchanged { length cols.new ≡ length cols.old }
{
    let mut best: [u8; 1024] = [0; 1024];
    let mut tries: [u8; 1024] = [0; 1024];
    answer_block(scene, lists, columns, from, m, cols, &mut best, &mut tries);
    let yes = tally(&best, m, 2);
    let no = tally(&best, m, 0);
    let unknown = tally(&best, m, 1);
    Total { yes, no, unknown }
}

// Rows 0 to n-1: the first 16 row by row.
fn count_blocks(scene: &Scene, lists: &Lists, n: usize, columns: &Columns, cols: &mut [u8]) -> Total
    requires rows_asked { RowsAskedOn scene.now lists.now n }
    requires blocks_asked { BlocksAskedOn scene.now lists.now n columns.now cols.old }
    ensures { TotalsOn scene.now lists.now n result.yes result.no result.unknown }
{
    let head = matcher::tables::totals(scene, lists, 16);
    let mut yes = head.yes;
    let mut no = head.no;
    let mut unknown = head.unknown;
    let mut from: usize = 16;
    // The last block is shorter: over `step_by` the bound would be the same, with a `min` in it.
    while from < n {
        let m = (n - from).min(1024);
        let part = count_block(scene, lists, columns, from, m, cols);
        yes += part.yes;
        no += part.no;
        unknown += part.unknown;
        from += m;
    }
    Total { yes, no, unknown }
}

// All rows: by columns if 64 are enough, else row by row.
fn count_with(
    scene: &Scene,
    lists: &Lists,
    n: usize,
    kinds: &mut [u8],
    ends: &mut [u16],
    slots: &mut [u8],
    tables: &mut [u8],
    cols: &mut [u8],
) -> Total
    requires rows_asked { RowsAskedOn scene.now lists.now n }
    requires suited { Suited lists.now.steps.now lists.now.edges.now n }
    requires scratch { Scratch kinds.old ends.old slots.old tables.old cols.old }
    ensures { TotalsOn scene.now lists.now n result.yes result.no result.unknown }
{
    let many = prepare(scene.tree, lists, kinds, ends, slots, tables);
    if 64 < many {
        return matcher::tables::totals(scene, lists, n);
    }
    let columns = Columns {
        ends,
        slots,
        many,
        tables,
    };
    count_blocks(scene, lists, n, &columns, cols)
}

// All rows, with memory for 64 columns.
fn count_rows(scene: &Scene, lists: &Lists, n: usize) -> Total
    requires rows_asked { RowsAskedOn scene.now lists.now n }
    requires suited { Suited lists.now.steps.now lists.now.edges.now n }
    ensures { TotalsOn scene.now lists.now n result.yes result.no result.unknown }
{
    let mut kinds: [u8; 64] = [0; 64];
    let mut ends: [u16; 64] = [0; 64];
    let mut slots: [u8; 4096] = [0; 4096];
    let mut tables: [u8; 4096] = [0; 4096];
    let mut cols: [u8; 66560] = [0; 66560];
    count_with(
        scene,
        lists,
        n,
        &mut kinds,
        &mut ends,
        &mut slots,
        &mut tables,
        &mut cols,
    )
}

// The totals of rows 0 to n-1.
pub fn totals(scene: &Scene, lists: &Lists, n: usize) -> Total
    requires { RowsAskedOn scene.now lists.now n }
    ensures { TotalsOn scene.now lists.now n result.yes result.no result.unknown }
{
    if suits(lists, n) {
        return count_rows(scene, lists, n);
    }
    matcher::tables::totals(scene, lists, n)
}
