// The share of all events.
ghost use Rattle.std.specs.Prelude.{◌≡◌};
ghost use Rattle.figures.specs.Inner.{Counted};
ghost use Rattle.basics.specs.Memory.{Put, Room};
ghost use Rattle.figures.specs.Share.{millionths, with_point, share};

use crate::numbers::{put_decimal_then, put_digits};
use basics::puts::push;

// yes / events in millionths, rounded half up.
fn millionths_of(yes: u64, events: u64) -> u64
    requires { Counted yes events }
    ensures { result ≡ millionths yes events }
{
    (2 * yes * 1000000 + events) / (2 * events)
}

// Millionths with a point before the last six digits.
fn put_point(m: u64, out: &mut [u8], at: usize) -> usize
    requires { Room out.old at (with_point m) }
    ensures { Put out.old at (with_point m) out.new result }
{
    let p = put_decimal_then(m / 1000000, b".", out, at);
    put_digits(6, m, out, p)
}

// The share of the events of n rows; `-` where there are none.
pub fn put_share(yes: u32, n: u32, out: &mut [u8], at: usize) -> usize
    requires { Room out.old at (share yes n) }
    ensures { Put out.old at (share yes n) out.new result }
{
    if n <= 1 {
        return push(out, at, b'-');
    }
    put_point(millionths_of(yes as u64, (n - 1) as u64), out, at)
}
