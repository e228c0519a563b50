// A number in decimal digits, alone or with a word behind it.
ghost use Rattle.std.specs.Prelude.{◌≡◌, ◌++◌, ◌+◌, ◌%◌};
ghost use Rattle.basics.specs.Memory.{Put, Room};
ghost use Rattle.figures.specs.Numbers.{digits, decimal};
ghost use Rattle.figures.specs.Inner.{Wide};

use basics::puts::{push, put};

// How many digits a number needs.
pub fn width_of(n: u64) -> usize
    ensures { Wide n result }
{
    let mut m = n;
    let mut w: usize = 1;
    // How many divisions there are is the answer: no range to go over.
    while 10 <= m {
        m = m / 10;
        w += 1;
    }
    w
}

// The last digit, `0` to `9`.
fn last_digit(n: u64) -> u8
    ensures { result ≡ 48 + n % 10 }
{
    48 + (n % 10) as u8
}

// The last k digits of a number.
pub fn put_digits(k: usize, n: u64, out: &mut [u8], at: usize) -> usize
    requires { Room out.old at (digits k n) }
    ensures { Put out.old at (digits k n) out.new result }
{
    if k == 0 {
        return at;
    }
    let p = put_digits(k - 1, n / 10, out, at);
    push(out, p, last_digit(n))
}

pub fn put_decimal(n: u64, out: &mut [u8], at: usize) -> usize
    requires { Room out.old at (decimal n) }
    ensures { Put out.old at (decimal n) out.new result }
{
    put_digits(width_of(n), n, out, at)
}

// A number, and a word behind it.
pub fn put_decimal_then(n: u64, word: &[u8], out: &mut [u8], at: usize) -> usize
    requires { Room out.old at (decimal n ++ word.now) }
    ensures { Put out.old at (decimal n ++ word.now) out.new result }
{
    let p = put_decimal(n, out, at);
    put(word, out, p)
}
