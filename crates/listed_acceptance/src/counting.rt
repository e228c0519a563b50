// Limit 8 of alternatives in lists, counted: steps of each alternative, tests of each alternative, and all of them.
ghost use Rattle.std.specs.Prelude.{◌≡◌, ◌+◌, ◌≤◌, length, take, drop};
ghost use Rattle.basics.specs.Deciding.{Decides};
ghost use Rattle.alternatives.specs.InMemory.{sum};
ghost use Rattle.listed_acceptance.specs.Lists.{Each, Stepped, Light};

// Whether the entries of a list come to a number.
pub fn sums_to(list: &[u8], want: usize) -> bool
    ensures { Decides result (sum list.now ≡ want) }
{
    let mut left = want;
    for i in 0..list.len() {
        let x = list[i] as usize;
        if left < x {
            return false;
        }
        left -= x;
    }
    left == 0
}

// Whether each alternative has 1 to 16 steps.
pub fn are_stepped(steps: &[u8]) -> bool
    ensures { Decides result (Each Stepped steps.now) }
{
    for i in 0..steps.len() {
        let x = steps[i];
        if x == 0 {
            return false;
        }
        if 16 < x {
            return false;
        }
    }
    true
}

// Whether the n steps from step s on have at most 64 tests.
pub fn few_tests(tests: &[u8], s: usize, n: usize) -> bool
    requires { s + n ≤ length tests.now }
    ensures { Decides result (sum (take n (drop s tests.now)) ≤ 64) }
{
    let mut left: usize = 64;
    for i in 0..n {
        let x = tests[s + i] as usize;
        if left < x {
            return false;
        }
        left -= x;
    }
    true
}

// Whether each alternative has at most 64 tests.
pub fn are_light(steps: &[u8], tests: &[u8]) -> bool
    requires { sum steps.now ≤ length tests.now }
    ensures { Decides result (Light steps.now tests.now) }
{
    let mut s: usize = 0;
    for i in 0..steps.len() {
        let n = steps[i] as usize;
        if !few_tests(tests, s, n) {
            return false;
        }
        s += n;
    }
    true
}
