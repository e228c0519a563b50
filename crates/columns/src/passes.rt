// Passes over a block's answers, entry by entry. An answer is 0 no, 1 unknown, 2 yes.
ghost use Rattle.std.specs.Prelude.{◌≡◌, ◌+◌, ◌≤◌, min, max, length, get_or, eqb, if◌then◌else◌};
ghost use Rattle.basics.specs.Words.{count};
ghost use Rattle.alf.specs.Windows.{numbered};
ghost use Rattle.columns.specs.Passes.{Over, Pass, PassTo, PassFrom, TriesTo, Counted};

// The first n entries become v.
pub fn put(a: &mut [u8], n: usize, v: u8)
    requires { n ≤ length a.old }
    ensures { Over a.old 0 n (λ i. v) a.new }
{
    a[..n].fill(v);
}

// The first n entries become the lesser of themselves and of those of a column, which starts at o.
pub fn meet(acc: &mut [u8], n: usize, cols: &[u8], o: usize)
    requires { PassFrom acc.old n cols.now o }
    ensures { Over acc.old 0 n
        (λ i. min (get_or acc.old i 0) (get_or cols.now (o + i) 0)) acc.new }
{
    for i in 0..n {
        acc[i] = acc[i].min(cols[o + i]);
    }
}

// The first n entries become the greater of themselves and of those of another list.
pub fn join(best: &mut [u8], n: usize, acc: &[u8])
    requires { Pass best.old n acc.now }
    ensures { Over best.old 0 n
        (λ i. max (get_or best.old i 0) (get_or acc.now i 0)) best.new }
{
    for i in 0..n {
        best[i] = best[i].max(acc[i]);
    }
}

// 0 for yes, else 1.
fn open(x: u8) -> u8
    ensures { result ≡ (if eqb x 2 then 0 else 1) }
{
    if x == 2 { 0 } else { 1 }
}

// One more try in each of the first n entries whose best answer is not yet yes.
pub fn try_open(tries: &mut [u8], n: usize, best: &[u8])
    requires { Counted tries.old n best.now }
    ensures { Over tries.old 0 n
        (λ i. get_or tries.old i 0 + (if eqb (get_or best.now i 0) 2 then 0 else 1))
        tries.new }
{
    for i in 0..n {
        tries[i] += open(best[i]);
    }
}

// 1 where two numbers are the same.
fn same(x: u8, y: u8) -> u8
    ensures { result ≡ (if eqb x y then 1 else 0) }
{
    if x == y { 1 } else { 0 }
}

// How many entries are v: few enough for a byte, so that many are compared at once.
fn tally_few(a: &[u8], v: u8) -> u8
    requires { length a.now ≤ 128 }
    ensures { result ≡ count (length a.now) (λ i. eqb (get_or a.now i 0) v) }
{
    let mut c: u8 = 0;
    for x in a {
        c += same(*x, v);
    }
    c
}

// How many of the first n entries are v.
pub fn tally(a: &[u8; 1024], n: usize, v: u8) -> u32
    requires { n ≤ 1024 }
    ensures { result ≡ count n (λ i. eqb (get_or a.now i 0) v) }
{
    let mut c: u32 = 0;
    for part in a[..n].chunks(128) {
        c += tally_few(part, v) as u32;
    }
    c
}

// Document 01's number of an answer: 0 no, 1 yes, 2 unknown.
fn number(x: u8) -> u8
    ensures { result ≡ numbered x }
{
    match x {
        0 => 0,
        1 => 2,
        _ => 1,
    }
}

// The numbers of the first n answers, from entry `at` of a list on.
pub fn put_numbers(best: &[u8; 1024], n: usize, answers: &mut [u8], at: usize)
    requires { PassTo n answers.old at }
    ensures { Over answers.old at n (λ i. numbered (get_or best.now i 0))
        answers.new }
{
    for i in 0..n {
        answers[at + i] = number(best[i]);
    }
}

// The first n numbers tried, from entry `at` of a list on.
pub fn put_tries(tries: &[u8; 1024], n: usize, tried: &mut [u32], at: usize)
    requires { TriesTo tries.now n tried.old at }
    ensures { Over tried.old at n (λ i. get_or tries.now i 0)
        tried.new }
{
    for i in 0..n {
        tried[at + i] = tries[i] as u32;
    }
}
