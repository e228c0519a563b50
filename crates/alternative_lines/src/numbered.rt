// The lines of a listing of alternatives.
ghost use Rattle.std.specs.Prelude.{◌+◌};
ghost use Rattle.alf.specs.Names.{names_in};
ghost use Rattle.basics.specs.Memory.{Holds};
ghost use Rattle.alternatives.specs.InMemory.{alternative_in, alternatives_of_lem};
ghost use Rattle.figures.specs.Numbers.{decimal};
ghost use Rattle.alternative_lines.specs.Listing.{line_of};
ghost use Rattle.alternative_texts.specs.Inner.{Puts, all_tests};
ghost use Rattle.alternative_writing.specs.Inner.{OneAlternative};
ghost use Rattle.alternative_lines.specs.Inner.{AllLines, Low};
ghost use Rattle.alternative_lines.specs.Inner.{flagged, noted, marked, lines_with, headed_lines};

use alternative_texts::puts::put;
use alternative_writing::steps::put_steps;
use alternatives::walking::pass;
use figures::numbers::put_decimal;

// The digits of a number at the front; how many.
fn lay_number(n: u64, digits: &mut [u8; 20]) -> usize
    ensures { Holds digits.new result (decimal n) }
{
    put_decimal(n, &mut digits[..], 0)
}

// A number.
fn put_number(n: usize, out: &mut [u8], at: usize) -> usize
    requires { Low at }
    ensures { Puts out.old at (decimal n) 20 out.new result }
{
    let mut digits = [0u8; 20];
    let k = lay_number(n as u64, &mut digits);
    put(&digits[..k], out, at)
}

// Whether an alternative is contradictory, between tabs.
fn put_note(flag: u8, out: &mut [u8], at: usize) -> usize
    requires { Low at }
    ensures { Puts out.old at (noted flag) 15 out.new result }
{
    if flag == 0 {
        return put(b"\t-\t", out, at);
    }
    put(b"\tcontradictory\t", out, at)
}

// The number of an alternative and its note.
fn put_mark(number: usize, flag: u8, out: &mut [u8], at: usize) -> usize
    requires { Low (at + 20) }
    ensures { Puts out.old at (marked number flag) 35 out.new result }
{
    let p = put_number(number, out, at);
    put_note(flag, out, p)
}

// The line of the alternative of n steps from step s on, whose tests start at t.
fn put_line(
    number: usize,
    flag: u8,
    names: &[u8],
    tree: &[u8],
    tests: &[u8],
    edges: &[u8],
    operands: &[u16],
    s: usize,
    n: usize,
    t: usize,
    out: &mut [u8],
    at: usize,
) -> usize
    requires { OneAlternative names.now tree.now tests.now edges.now operands.now s n t (at + 35) }
    ensures { Puts out.old at (line_of names.now number (flagged flag)
        (alternative_in tests.now (all_tests names.now tree.now edges.now
        operands.now) s t n)) 266538531 out.new result }
{
    let p = put_mark(number, flag, out, at);
    let q = put_steps(names, tree, tests, edges, operands, s, n, t, out, p);
    put(b"\n", out, q)
}

// A line for each alternative.
fn put_lines(
    names: &[u8],
    tree: &[u8],
    steps: &[u8],
    tests: &[u8],
    edges: &[u8],
    operands: &[u16],
    flags: &[u8],
    out: &mut [u8],
    at: usize,
) -> usize
    requires { AllLines names.now tree.now steps.now tests.now edges.now operands.now
        flags.now at }
    ensures { Puts out.old at (lines_with names.now 1 flags.now
        (alternatives_of_lem tree.now (names_in names.now) steps.now tests.now
        edges.now operands.now)) 17058465984 out.new result }
{
    let mut p = at;
    let mut s: usize = 0;
    let mut t: usize = 0;
    for k in 0..steps.len() {
        let n = steps[k] as usize;
        p = put_line(
            k + 1,
            flags[k],
            names,
            tree,
            tests,
            edges,
            operands,
            s,
            n,
            t,
            out,
            p,
        );
        t = pass(tests, s, n, t);
        s += n;
    }
    p
}

// The heading, and the lines.
pub fn put_all(
    names: &[u8],
    tree: &[u8],
    steps: &[u8],
    tests: &[u8],
    edges: &[u8],
    operands: &[u16],
    flags: &[u8],
    out: &mut [u8],
) -> usize
    requires { AllLines names.now tree.now steps.now tests.now edges.now operands.now
        flags.now 0 }
    ensures { Puts out.old 0 (headed_lines names.now flags.now
        (alternatives_of_lem tree.now (names_in names.now) steps.now tests.now
        edges.now operands.now)) 17058466008 out.new result }
{
    let p = put(b"number\tnote\talternative\n", out, 0);
    put_lines(names, tree, steps, tests, edges, operands, flags, out, p)
}
