// The answers and the numbers tried, block by block, into lent lists.
ghost use Rattle.std.specs.Prelude.{◌≡◌, length};
ghost use Rattle.matcher.specs.Tables.{FillAskedOn, FilledOn};
ghost use Rattle.blocks.specs.Rows.{BlocksAskedOn};
ghost use Rattle.block_answers.specs.Filling.{FillBlockOn, BlockFilledOn};

use alternatives::lists::Lists;
use blocks::rows::{Columns, answer_block};
use columns::passes::{put_numbers, put_tries};
use matcher::scenes::Scene;

// The m rows from `from` on.
fn fill_block(
    scene: &Scene,
    lists: &Lists,
    columns: &Columns,
    from: usize,
    m: usize,
    cols: &mut [u8],
    answers: &mut [u8],
    tried: &mut [u32],
)
    requires { FillBlockOn scene.now lists.now columns.now from m cols.old answers.old tried.old }
    ensures block_filled { BlockFilledOn scene.now lists.now columns.now from m
        answers.old tried.old answers.new tried.new }
    ensures cols_len_unchanged { length cols.new ≡ length cols.old }
{
    let mut best: [u8; 1024] = [0; 1024];
    let mut tries: [u8; 1024] = [0; 1024];
    answer_block(scene, lists, columns, from, m, cols, &mut best, &mut tries);
    put_numbers(&best, m, answers, from);
    put_tries(&tries, m, tried, from);
}

// Rows 16 to n-1; those before are there.
pub fn fill_blocks(
    scene: &Scene,
    lists: &Lists,
    n: usize,
    answers: &mut [u8],
    tried: &mut [u32],
    columns: &Columns,
    cols: &mut [u8],
)
    requires fill_asked { FillAskedOn scene.now lists.now n
        answers.old tried.old }
    requires blocks_asked { BlocksAskedOn scene.now lists.now n columns.now cols.old }
    ensures { FilledOn scene.now lists.now n answers.old tried.old answers.new
        tried.new }
{
    matcher::tables::match_all(scene, lists, 16, answers, tried);
    let mut from: usize = 16;
    // The last block is shorter: over `step_by` the bound would be the same, with a `min` in it.
    while from < n {
        let m = (n - from).min(1024);
        fill_block(scene, lists, columns, from, m, cols, answers, tried);
        from += m;
    }
}
