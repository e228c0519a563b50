// How many alternatives an operator makes of those of its operands, counted no further than 65.
ghost use Rattle.std.specs.Prelude.{◌≡◌, ◌-◌, min};
ghost use Rattle.alf.specs.Decoder.{join_at};
ghost use Rattle.alternatives.specs.Picks.{count_of};
ghost use Rattle.acceptance.specs.Sizes.{Counts};

// 65 stands for more than 64.
pub fn cap(x: usize) -> usize
    ensures { result ≡ min 65 x }
{
    x.min(65)
}

// How many alternatives byte b makes of n and m.
pub fn join_counts(b: u8, n: usize, m: usize) -> usize
    requires { Counts b n m }
    ensures { result ≡ min 65 (count_of (join_at (b - 50)) n m) }
{
    if b == 55 {
        return cap(n + m);
    }
    let block = n * m;
    if b == 53 {
        return cap(block + block + block);
    }
    if b == 51 {
        return cap(block + block);
    }
    if b == 52 {
        return cap(block + block);
    }
    cap(block)
}
