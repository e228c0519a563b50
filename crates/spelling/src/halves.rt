// The spelling of a half, of a literal and of an edge of two halves.
ghost use Rattle.std.specs.Prelude.{[], ◌∷◌, ◌++◌};
ghost use Rattle.token_steps.specs.Spelling.{based};
ghost use Rattle.spelling.specs.Spelled.{half_byte, literal_spelled, pair_spelled};
ghost use Rattle.spelling.specs.Inner.{Halving, Pairing};
ghost use Rattle.basics.specs.Memory.{Put};

use basics::puts::push;

// `? 0 1 X H L W Z U`
const HALVES: [u8; 9] = [63, 48, 49, 88, 72, 76, 87, 90, 85];

fn put_half(h: u8, out: &mut [u8], at: usize) -> usize
    requires { Halving h out.old at (half_byte h ∷ []) }
    ensures { Put out.old at (half_byte h ∷ []) out.new result }
{
    push(out, at, HALVES[h as usize])
}

fn put_based(h: u8, out: &mut [u8], at: usize) -> usize
    requires { Halving h out.old at (based (half_byte h)) }
    ensures { Put out.old at (based (half_byte h)) out.new result }
{
    let p = push(out, at, 39);
    let q = push(out, p, 98);
    put_half(h, out, q)
}

pub fn put_literal(h: u8, out: &mut [u8], at: usize) -> usize
    requires { Halving h out.old at (literal_spelled h) }
    ensures { Put out.old at (literal_spelled h) out.new result }
{
    if h < 3 {
        return put_half(h, out, at);
    }
    put_based(h, out, at)
}

// Both halves based.
fn put_wide(f: u8, t: u8, out: &mut [u8], at: usize) -> usize
    requires { Pairing f t out.old at (based (half_byte f) ++ based (half_byte t)) }
    ensures { Put out.old at (based (half_byte f) ++ based (half_byte t)) out.new result }
{
    let p = put_based(f, out, at);
    put_based(t, out, p)
}

// An edge of two halves.
pub fn put_pair(f: u8, t: u8, out: &mut [u8], at: usize) -> usize
    requires { Pairing f t out.old at (pair_spelled f t) }
    ensures { Put out.old at (pair_spelled f t) out.new result }
{
    if 3 <= f {
        return put_wide(f, t, out, at);
    }
    if 3 <= t {
        return put_wide(f, t, out, at);
    }
    let p = put_half(f, out, at);
    put_half(t, out, p)
}
