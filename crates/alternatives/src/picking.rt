// Alternative t of those that an operator of two vectors makes, found by division.
ghost use Rattle.std.specs.Prelude.{◌≡◌, ◌+◌, ◌-◌, ◌*◌, ◌/◌, ◌%◌, ◌<◌};
ghost use Rattle.alf.specs.Decoder.{join_at};
ghost use Rattle.alternatives.specs.Picks.{Picking, PickingOn, Picked};

// How an alternative is put together from one of the left operand and one of the right.
#[derive(Clone, Copy)]
pub enum How {
    Left,
    Right,
    LeftFirst,
    RightFirst,
    Together,
}

// Which two, and how.
#[derive(Clone, Copy)]
pub struct Pick {
    pub how: How,
    pub left: usize,
    pub right: usize,
}

// For each left one, each right one: the one at v.
fn forth(how: How, m: usize, v: usize) -> Pick
    requires { 0 < m }
    ensures { (result.how ≡ how) × (result.left ≡ v / m) × (result.right ≡ v % m) }
{
    Pick {
        how,
        left: v / m,
        right: v % m,
    }
}

// For each right one, each left one: the one at v.
fn back(n: usize, v: usize) -> Pick
    requires { 0 < n }
    ensures { (result.how ≡ How.RightFirst) × (result.left ≡ v % n) × (result.right ≡ v / n) }
{
    Pick {
        how: How::RightFirst,
        left: v % n,
        right: v / n,
    }
}

// Alternative v behind the first block of n * m.
fn find_on(b: u8, n: usize, m: usize, v: usize) -> Pick
    requires { PickingOn b n m v }
    ensures { Picked (join_at (b - 50)) n m (n * m + v) result.how result.left result.right }
{
    if b == 51 {
        return back(n, v);
    }
    if b == 52 {
        return forth(How::LeftFirst, m, v);
    }
    let block = n * m;
    if v < block {
        return forth(How::Together, m, v);
    }
    back(n, v - block)
}

// Alternative t of those that byte b makes of n and m.
pub fn find(b: u8, n: usize, m: usize, t: usize) -> Pick
    requires { Picking b n m t }
    ensures { Picked (join_at (b - 50)) n m t result.how result.left result.right }
{
    if b == 55 {
        if t < n {
            return Pick {
                how: How::Left,
                left: t,
                right: 0,
            };
        }
        return Pick {
            how: How::Right,
            left: 0,
            right: t - n,
        };
    }
    let block = n * m;
    if block <= t {
        return find_on(b, n, m, t - block);
    }
    if b == 52 {
        return forth(How::Together, m, t);
    }
    if b == 54 {
        return forth(How::Together, m, t);
    }
    forth(How::LeftFirst, m, t)
}
