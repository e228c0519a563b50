// Writing behind what is written, as far as there is room: what lies behind the end is counted and left out.
ghost use Rattle.basics.specs.Memory.{Put};
ghost use Rattle.alternative_texts.specs.Inner.{Countable, lead};
ghost use Rattle.std.specs.Prelude.{[], ◌∷◌};

// One byte at `at`; the place behind it.
pub fn push(out: &mut [u8], at: usize, b: u8) -> usize
    requires { Countable at (b ∷ []) }
    ensures { Put out.old at (b ∷ []) out.new result }
{
    if out.len() <= at {
        return at + 1;
    }
    out[at] = b;
    at + 1
}

// All bytes of a list.
pub fn put(from: &[u8], out: &mut [u8], at: usize) -> usize
    requires { Countable at from.now }
    ensures { Put out.old at from.now out.new result }
{
    let mut p = at;
    for i in 0..from.len() {
        p = push(out, p, from[i]);
    }
    p
}

// What stands between two parts, before all but the first.
pub fn put_gap(i: usize, gap: &[u8], out: &mut [u8], at: usize) -> usize
    requires { Countable at gap.now }
    ensures { Put out.old at (lead gap.now i) out.new result }
{
    if i == 0 {
        return at;
    }
    put(gap, out, at)
}
