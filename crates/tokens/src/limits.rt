// The limits of a list of tokens: brackets open, and tokens counted.
ghost use Rattle.std.specs.Prelude.{◌≡◌, ◌≤◌, take};
ghost use Rattle.tokens.specs.Inner.{Counting, changed, over_found};

// How many brackets are open behind a token, or how many tokens are counted up to it.
fn after(brackets: bool, code: u8, n: usize) -> usize
    requires { n ≤ 4096 }
    ensures { result ≡ changed brackets code n }
{
    if brackets {
        if code == 62 {
            return n + 1;
        }
        if code == 63 {
            if n == 0 {
                return 0;
            }
            return n - 1;
        }
        return n;
    }
    if code < 61 {
        return n + 1;
    }
    if code <= 63 {
        return n;
    }
    n + 1
}

// The first token behind which the number is over the limit.
pub fn first_over(codes: &[u8; 4096], count: usize, brackets: bool, limit: usize) -> Option<usize>
    requires { Counting codes.now count limit }
    ensures { result ≡ over_found (changed brackets) limit (take count codes.now) }
{
    let mut n: usize = 0;
    for i in 0..count {
        n = after(brackets, codes[i], n);
        if limit < n {
            return Some(i);
        }
    }
    None
}
