// The lines of all rows by the lists of a tree's alternatives. A row is matched where its line is measured, and once
// more where it is written: so no list of answers is kept.
ghost use Rattle.std.specs.Prelude.{◌+◌, length};
ghost use Rattle.basics.specs.Memory.{Put};
ghost use Rattle.beginnings.specs.Dated.{Dates};
ghost use Rattle.matcher.specs.Scenes.{state_on, alternatives_on};
ghost use Rattle.began_listings.specs.Inner.{DatedRowOn, DatedRowsOn, MoreAskedOn, Measured, Adding, Adds};
ghost use Rattle.began_listings.specs.Inner.{RowPutOn, RowsPutOn, row_text, rows_text};

use alf::RowNo;
use alternatives::lists::Lists;
use began_lines::lines::{line_size, put_line};
use beginnings::times::{Dated, date};
use column_listings::totals::same;
use listing::lines::stamp_of;
use matcher::answers::match_row;
use matcher::scenes::Scene;
use matcher::tables::number_of;

// How many bytes the lines of some rows have, and how many of these rows answer yes, no and unknown.
#[derive(Clone, Copy)]
pub struct Sums {
    pub size: usize,
    pub yes: u64,
    pub no: u64,
    pub unknown: u64,
}

// What a row is told.
fn find(scene: &Scene, lists: &Lists, times: &[u64], row: usize) -> Dated
    requires { DatedRowOn scene.now lists.now times.now
        row }
    ensures { Dates (state_on scene.now) times.now
        (alternatives_on scene.now lists.now) row result.answer result.tries result.began }
{
    let found = match_row(scene, lists, row);
    date(times, lists.steps, row, found)
}

// One more row, with the number of its answer and the length of its line.
fn add(m: Sums, a: u8, size: usize) -> Sums
    requires { Adding m size }
    ensures { Adds m a size result }
{
    Sums {
        size: m.size + size,
        yes: m.yes + same(a, 1),
        no: m.no + same(a, 0),
        unknown: m.unknown + same(a, 2),
    }
}

// What is measured of the rows before one, and then of that row too.
fn measure_row(scene: &Scene, lists: &Lists, times: &[u64], row: usize, m: Sums) -> Sums
    requires { MoreAskedOn scene.now lists.now
        times.now row m }
    ensures { Measured (state_on scene.now) times.now
        (alternatives_on scene.now lists.now) result (row + 1) }
{
    let told = find(scene, lists, times, row);
    let answer = told.answer;
    let began = told.began;
    let a = number_of(answer);
    add(
        m,
        a,
        line_size(stamp_of(times, RowNo(row as u32)), a, began),
    )
}

// All rows.
pub fn measure(scene: &Scene, lists: &Lists, times: &[u64]) -> Sums
    requires { DatedRowsOn scene.now lists.now
        times.now }
    ensures { Measured (state_on scene.now) times.now
        (alternatives_on scene.now lists.now) result (length times.now) }
{
    let mut m = Sums {
        size: 0,
        yes: 0,
        no: 0,
        unknown: 0,
    };
    for i in 0..times.len() {
        m = measure_row(scene, lists, times, i, m);
    }
    m
}

// The line of a row.
fn put_row(
    scene: &Scene,
    lists: &Lists,
    times: &[u64],
    row: usize,
    out: &mut [u8],
    at: usize,
) -> usize
    requires { RowPutOn scene.now lists.now
        times.now row out.old at }
    ensures { Put out.old at (row_text (state_on scene.now)
        times.now (alternatives_on scene.now lists.now) row) out.new result }
{
    let told = find(scene, lists, times, row);
    let answer = told.answer;
    let began = told.began;
    let a = number_of(answer);
    put_line(stamp_of(times, RowNo(row as u32)), a, began, out, at)
}

// The lines of all rows.
pub fn put_rows(scene: &Scene, lists: &Lists, times: &[u64], out: &mut [u8], at: usize) -> usize
    requires { RowsPutOn scene.now lists.now
        times.now out.old at }
    ensures { Put out.old at (rows_text (state_on scene.now)
        times.now (alternatives_on scene.now lists.now)) out.new result }
{
    let mut p = at;
    for i in 0..times.len() {
        p = put_row(scene, lists, times, i, out, p);
    }
    p
}
