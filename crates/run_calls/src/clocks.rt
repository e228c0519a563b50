// The times of the rows of a case: those of table T, and tens behind them. A line whose kind stands behind a `-` gives
// row 1 the time of row 0, and one behind a `+` has a time too many.
ghost use Rattle.std.specs.Prelude.{◌≤◌};

use run_words::lists::least;

// Whether a line's kind stands behind a mark.
pub fn is_behind(line: &[u8], mark: u8) -> bool {
    2 <= line.len() && line[0] == mark
}

// Document 01: "times 0, 10, 20, 35, 40, 55".
fn usual(row: usize) -> u64
    requires { row ≤ 64 }
{
    match row {
        3 => 35,
        5 => 55,
        _ => 10 * (row as u64),
    }
}

// The time of a row, of which there are at most 64.
pub fn time_of(early: bool, row: usize) -> u64 {
    if early {
        if row == 1 {
            return 0;
        }
    }
    usual(least(row))
}

// The next row, at most row 64.
pub fn next_row(row: usize) -> usize {
    row.saturating_add(1).min(64)
}

// The times of 64 rows.
pub fn times_of(early: bool) -> [u64; 64] {
    std::array::from_fn(|i| time_of(early, i))
}

// The times of the 16 rows that a queue may keep.
pub fn kept_of(early: bool) -> [u64; 16] {
    std::array::from_fn(|i| time_of(early, i))
}

// How many times there are for n rows, at most 64.
pub fn count_of(line: &[u8], n: usize) -> usize
    ensures { result ≤ 64 }
{
    if !is_behind(line, b'+') {
        return least(n);
    }
    least(next_row(n))
}
