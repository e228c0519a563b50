// State codes handed in: where the first one stands that is none.
ghost use Rattle.std.specs.Prelude.{◌*◌, ◌≤◌, length};
ghost use Rattle.states.specs.FirstBadCode.{FirstBad, Bounds, BoundsTo};

// The largest code, or 0. Without a way out of the loop many codes are compared at once.
fn largest_of(states: &[u8]) -> u8
    ensures { Bounds states.now result }
{
    let mut most: u8 = 0;
    for s in states {
        most = most.max(*s);
    }
    most
}

// The largest of the first 4 * q codes, or 0: four parts side by side, so that more codes are compared at once.
fn largest_of_four(states: &[u8], q: usize) -> u8
    requires { 4 * q ≤ length states.now }
    ensures { BoundsTo states.now (4 * q) result }
{
    let mut a: u8 = 0;
    let mut b: u8 = 0;
    let mut c: u8 = 0;
    let mut d: u8 = 0;
    for i in 0..q {
        a = a.max(states[i]);
        b = b.max(states[q + i]);
        c = c.max(states[2 * q + i]);
        d = d.max(states[3 * q + i]);
    }
    a.max(b).max(c.max(d))
}

// The place of the first code above 7, or the number of codes, one by one.
fn search(states: &[u8]) -> usize
    ensures { FirstBad states.now result }
{
    states.iter().position(|s| 7 < *s).unwrap_or(states.len())
}

// The largest of many codes, or 0.
fn largest(states: &[u8]) -> u8
    ensures { Bounds states.now result }
{
    let q = states.len() / 4;
    largest_of_four(states, q).max(largest_of(&states[4 * q..]))
}

// The same; where there is none, which is what a caller hopes for, without looking at each by itself.
pub fn first_bad_code(states: &[u8]) -> usize
    ensures { FirstBad states.now result }
{
    if largest_of(states) < 8 {
        return states.len();
    }
    search(states)
}

// The same, for the states of a whole trace.
pub fn first_bad_of_many(states: &[u8]) -> usize
    ensures { FirstBad states.now result }
{
    if largest(states) < 8 {
        return states.len();
    }
    search(states)
}
