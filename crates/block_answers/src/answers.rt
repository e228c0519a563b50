// The answers and the numbers tried at all rows, into lent lists: by columns where they suit, else row by row.
ghost use Rattle.matcher.specs.Tables.{FillAskedOn, FilledOn};
ghost use Rattle.blocks.specs.Rows.{Suited, Scratch};

use crate::filling::fill_blocks;
use alternatives::lists::Lists;
use blocks::rows::{Columns, prepare, suits};
use matcher::scenes::Scene;

// All rows: by columns if 64 are enough, else row by row.
fn fill_with(
    scene: &Scene,
    lists: &Lists,
    n: usize,
    answers: &mut [u8],
    tried: &mut [u32],
    kinds: &mut [u8],
    ends: &mut [u16],
    slots: &mut [u8],
    tables: &mut [u8],
    cols: &mut [u8],
)
    requires fill_asked { FillAskedOn scene.now lists.now n
        answers.old tried.old }
    requires suited { Suited lists.now.steps.now lists.now.edges.now n }
    requires scratch { Scratch kinds.old ends.old slots.old tables.old cols.old }
    ensures { FilledOn scene.now lists.now n answers.old tried.old answers.new
        tried.new }
{
    let many = prepare(scene.tree, lists, kinds, ends, slots, tables);
    if 64 < many {
        matcher::tables::match_all(scene, lists, n, answers, tried);
        return;
    }
    let columns = Columns {
        ends,
        slots,
        many,
        tables,
    };
    fill_blocks(scene, lists, n, answers, tried, &columns, cols);
}

// All rows, with memory for 64 columns.
fn fill_rows(scene: &Scene, lists: &Lists, n: usize, answers: &mut [u8], tried: &mut [u32])
    requires fill_asked { FillAskedOn scene.now lists.now n
        answers.old tried.old }
    requires suited { Suited lists.now.steps.now lists.now.edges.now n }
    ensures { FilledOn scene.now lists.now n answers.old tried.old answers.new
        tried.new }
{
    let mut kinds: [u8; 64] = [0; 64];
    let mut ends: [u16; 64] = [0; 64];
    let mut slots: [u8; 4096] = [0; 4096];
    let mut tables: [u8; 4096] = [0; 4096];
    let mut cols: [u8; 66560] = [0; 66560];
    fill_with(
        scene,
        lists,
        n,
        answers,
        tried,
        &mut kinds,
        &mut ends,
        &mut slots,
        &mut tables,
        &mut cols,
    );
}

// Rows 0 to n-1: each one's answer and number tried into lent lists.
pub fn match_all(scene: &Scene, lists: &Lists, n: usize, answers: &mut [u8], tried: &mut [u32])
    requires { FillAskedOn scene.now lists.now n
        answers.old tried.old }
    ensures { FilledOn scene.now lists.now n answers.old tried.old answers.new
        tried.new }
{
    if suits(lists, n) {
        fill_rows(scene, lists, n, answers, tried);
        return;
    }
    matcher::tables::match_all(scene, lists, n, answers, tried);
}
