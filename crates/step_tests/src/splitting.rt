// Which steps of two alternatives make step j of the one that is put together of them.
ghost use Rattle.std.specs.Prelude.{◌≡◌};
ghost use Rattle.step_tests.specs.Steps.{Behind, Split, in_turn};

use alternatives::picking::How;

// A step of the left one and a step of the right one; a number that is no step's stands for none.
#[derive(Clone, Copy)]
pub struct Two {
    pub left: usize,
    pub right: usize,
}

// Whether one alternative follows the other.
pub fn in_turn(how: How) -> bool
    ensures { result ≡ in_turn how }
{
    match how {
        How::Left => false,
        How::Right => false,
        How::LeftFirst => true,
        How::RightFirst => true,
        How::Together => false,
    }
}

// Step j behind some empty steps; n where it is one of those.
fn behind(empty: usize, n: usize, j: usize) -> usize
    ensures { Behind empty n j result }
{
    if j < empty {
        return n;
    }
    j - empty
}

// The two steps that make step j, of n and m.
pub fn split(how: How, n: usize, m: usize, j: usize) -> Two
    ensures { Split how n m j result.left result.right }
{
    match how {
        How::Left => Two { left: j, right: m },
        How::Right => Two { left: n, right: j },
        How::LeftFirst => Two {
            left: j,
            right: behind(n, m, j),
        },
        How::RightFirst => Two {
            left: behind(m, n, j),
            right: j,
        },
        How::Together => Two {
            left: behind(m.saturating_sub(n), n, j),
            right: behind(n.saturating_sub(m), m, j),
        },
    }
}
