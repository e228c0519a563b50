// The lists of alternatives: where the tests of the next one start, and the steps of the longest.
ghost use Rattle.std.specs.Prelude.{◌≡◌, ◌+◌, take, drop};
ghost use Rattle.basics.specs.Words.{greatest_of};
ghost use Rattle.alternatives.specs.InMemory.{sum, Passing};

// The first test behind n steps from step s on, whose tests start at t.
pub fn pass(tests: &[u8], s: usize, n: usize, t: usize) -> usize
    requires { Passing tests.now s n t }
    ensures { result ≡ t + sum (take n (drop s tests.now)) }
{
    let mut at = t;
    for many in &tests[s..s + n] {
        at += *many as usize;
    }
    at
}

// K: the steps of the longest alternative.
pub fn longest(steps: &[u8]) -> u8
    ensures { result ≡ greatest_of (λ n. n) steps.now }
{
    let mut most: u8 = 0;
    for many in steps {
        most = most.max(*many);
    }
    most
}
