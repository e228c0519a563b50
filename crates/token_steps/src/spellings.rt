// Tokens that are spelled one way only: a table, and the first of its spellings that stands at a byte.
ghost use Rattle.std.specs.Prelude.{◌≡◌, [], ◌≤◌, ◌<◌, length, drop, get_or};
ghost use Rattle.token_steps.specs.Spelling.{spellings};
ghost use Rattle.token_steps.specs.Steps.{starts, first_of};
ghost use Rattle.token_steps.specs.Inner.{Begun, word_of, rows};

use crate::Step;
use crate::steps::peek;

// What is spelled one way only: up to three bytes with zeros behind them, and the code. Longer ones come first.
const SPELLINGS: [[u8; 4]; 26] = [
    [b'<', b'-', b'>', 51],
    [b'<', b'&', b'>', 53],
    [b'&', b'&', 0, 40],
    [b'|', b'|', 0, 41],
    [b'~', b'^', 0, 43],
    [b'=', b'=', 0, 44],
    [b'!', b'=', 0, 45],
    [b'>', b'=', 0, 48],
    [b'<', b'=', 0, 49],
    [b'-', b'>', 0, 50],
    [b'&', b'>', 0, 52],
    [b'?', b'!', 0, 145],
    [b'?', b'-', 0, 146],
    [b'0', 0, 0, 32],
    [b'1', 0, 0, 33],
    [b'&', 0, 0, 40],
    [b'|', 0, 0, 41],
    [b'^', 0, 0, 42],
    [b'>', 0, 0, 46],
    [b'<', 0, 0, 47],
    [b'?', 0, 0, 60],
    [b':', 0, 0, 61],
    [b'(', 0, 0, 62],
    [b')', 0, 0, 63],
    [b'!', 0, 0, 147],
    [b'~', 0, 0, 147],
];

// A row of the table.
fn row_of(i: usize) -> [u8; 4]
    requires { i < 26 }
    ensures { result ≡ get_or (rows spellings) i [] }
{
    let all = SPELLINGS;
    all[i]
}

// Whether the bytes `x`, `y` and `z`, up to the first zero, stand at `at`.
fn stands(text: &[u8], at: usize, x: u8, y: u8, z: u8) -> bool
    requires { Begun text.now at x }
    ensures { result ≡ starts (word_of x y z) (drop at text.now) }
{
    if x != peek(text, at, 0) {
        return false;
    }
    if y == 0 {
        return true;
    }
    if y != peek(text, at, 1) {
        return false;
    }
    if z == 0 {
        return true;
    }
    z == peek(text, at, 2)
}

// How many bytes come before the first zero of a byte, `y` and `z`.
fn size_of(x: u8, y: u8, z: u8) -> usize
    ensures { result ≡ length (word_of x y z) }
{
    if y == 0 {
        return 1;
    }
    if z == 0 {
        return 2;
    }
    3
}

// The first of the spellings that stands at `at`; where none does, the byte refused is the one there.
pub fn find(text: &[u8], at: usize) -> Result<Step, usize>
    requires { at ≤ length text.now }
    ensures { result ≡ first_of spellings (drop at text.now) }
{
    for i in 0..26 {
        let row = row_of(i);
        let x = row[0];
        let y = row[1];
        let z = row[2];
        if stands(text, at, x, y, z) {
            return Ok(Step {
                code: row[3],
                size: size_of(x, y, z),
            });
        }
    }
    Err(0)
}
