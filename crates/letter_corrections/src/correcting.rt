// The correction of a trace's row by the letters of its states; and the row number that digits are.
ghost use Rattle.std.specs.Prelude.{◌≡◌, map, ◌≤◌, length};
ghost use Rattle.basics.specs.Memory.{Put, Room};
ghost use Rattle.basics.specs.Memory.{Holds};
ghost use Rattle.basics.specs.Deciding.{Decides};
ghost use Rattle.state_letters.specs.Letters.{state_of};
ghost use Rattle.letter_corrections.specs.Correcting.{LettersFit, Stores, CorrectsLetters};
ghost use Rattle.letter_corrections.specs.RowNumbers.{gone_on, row_number};

use alf::RowNo;
use basics::Refusal;
use basics::puts::put;
use basics::refusing::refuse;
use judging::checks::rows_fit;
use state_letters::code_of;
use update_calls::correcting::judge_correction;

// The codes of letters, at the front of a list; how many.
fn put_codes(letters: &[u8], out: &mut [u8]) -> usize
    requires { Room out.old 0 (map state_of letters.now) }
    ensures { Put out.old 0 (map state_of letters.now) out.new result }
{
    for i in 0..letters.len() {
        out[i] = code_of(letters[i]);
    }
    letters.len()
}

fn lay_codes(letters: &[u8], list: &mut [u8; 32]) -> usize
    requires { length letters.now ≤ 32 }
    ensures { Holds list.new result (map state_of letters.now) }
{
    put_codes(letters, &mut list[..])
}

// Whether the trace's lists fit, and there are as many letters as names.
fn letters_fit(k: usize, n: usize, states: usize, letters: usize) -> bool
    ensures { Decides result (LettersFit k n states letters) }
{
    if letters != k {
        return false;
    }
    rows_fit(k, n, states)
}

// New states for a row, as codes; 15 of the trace, 15 of the new states, 19.
fn store_codes(
    k: usize,
    n: usize,
    states: &mut [u8],
    row: RowNo,
    new: &[u8],
) -> Result<usize, Refusal>
    requires { LettersFit k n (length states.old) (length new.now) }
    ensures { Stores k n states.old row.0 new.now states.new result }
{
    let at = row.0 as usize;
    judge_correction(true, true, states, new, n, at)?;
    put(new, states, at * k);
    Ok(1)
}

// The same, as letters.
fn store_letters(
    k: usize,
    n: usize,
    states: &mut [u8],
    row: RowNo,
    letters: &[u8],
) -> Result<usize, Refusal>
    requires { LettersFit k n (length states.old) (length letters.now) }
    ensures { Stores k n states.old row.0 (map state_of letters.now)
        states.new result }
{
    let mut list = [0u8; 32];
    let m = lay_codes(letters, &mut list);
    store_codes(k, n, states, row, &list[..m])
}

// The letters' states become row `row` of a trace of k names and n rows; one row. Refused: 18, 15 of the trace, 15 of
// the letters, 19.
pub fn correct_letters(
    k: usize,
    n: usize,
    states: &mut [u8],
    row: RowNo,
    letters: &[u8],
) -> Result<usize, Refusal>
    ensures { CorrectsLetters k n states.old row.0 letters.now
        states.new result }
{
    let fits = letters_fit(k, n, states.len(), letters.len());
    if !fits {
        return refuse(18, 0);
    }
    store_letters(k, n, states, row, letters)
}

// The number that goes on with a digit; 65,536 where the byte is none, or the number is too large.
fn go_on(n: usize, b: u8) -> usize
    requires { n ≤ 65536 }
    ensures { result ≡ gone_on n b }
{
    if b < 48 {
        return 65536;
    }
    if 57 < b {
        return 65536;
    }
    let m = n * 10 + ((b - 48) as usize);
    if m < 65536 {
        return m;
    }
    65536
}

// The number that decimal digits are; 65,536 where there are none, where a byte is no digit, and where it is larger.
pub fn row_number(text: &[u8]) -> usize
    ensures { result ≡ row_number text.now }
{
    if text.len() == 0 {
        return 65536;
    }
    let mut n: usize = 0;
    for i in 0..text.len() {
        n = go_on(n, text[i]);
    }
    n
}
