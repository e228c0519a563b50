// The text of a step and of an alternative, from the lists.
ghost use Rattle.std.specs.Prelude.{◌+◌, ◌++◌, map};
ghost use Rattle.alternatives.specs.InMemory.{step_in, alternative_in};
ghost use Rattle.basics.specs.Text.{bytes};
ghost use Rattle.alternative_texts.specs.Texts.{test_text, between, step_text, alternative_text};
ghost use Rattle.alternative_texts.specs.Inner.{Puts, lead};
ghost use Rattle.alternative_writing.specs.Inner.{OneTest, OneStep, OneAlternative};
ghost use Rattle.alternative_texts.specs.Inner.{all_tests};
ghost use Rattle.alternative_writing.specs.Inner.{text_of_test};

use alternative_texts::puts::{put, put_gap};
use alternative_texts::showing::show_test;

// Test k of the lists, which is test i of its step.
fn put_test(
    names: &[u8],
    tree: &[u8],
    edges: &[u8],
    operands: &[u16],
    k: usize,
    i: usize,
    out: &mut [u8],
    at: usize,
) -> usize
    requires { OneTest names.now tree.now edges.now operands.now k at }
    ensures { Puts out.old at (lead (bytes " & ") i ++ text_of_test names.now
        tree.now edges.now operands.now k) 4099 out.new result }
{
    let mut text = [0u8; 4096];
    let shown = show_test(names, tree, edges[k], operands[k] as usize, &mut text);
    let size = shown.size;
    let p = put_gap(i, b" & ", out, at);
    put(&text[..size], out, p)
}

// The n tests from test t on.
fn put_tests(
    names: &[u8],
    tree: &[u8],
    edges: &[u8],
    operands: &[u16],
    t: usize,
    n: usize,
    out: &mut [u8],
    at: usize,
) -> usize
    requires { OneStep names.now tree.now edges.now operands.now t n at }
    ensures { Puts out.old at (between (bytes " & ") (map (test_text names.now)
        (step_in (all_tests names.now tree.now edges.now operands.now) t n)))
        1045245 out.new result }
{
    let mut p = at;
    for i in 0..n {
        p = put_test(names, tree, edges, operands, t + i, i, out, p);
    }
    p
}

// Step j of an alternative: n tests from test t on.
fn put_step(
    names: &[u8],
    tree: &[u8],
    edges: &[u8],
    operands: &[u16],
    t: usize,
    n: usize,
    j: usize,
    out: &mut [u8],
    at: usize,
) -> usize
    requires { OneStep names.now tree.now edges.now operands.now t n (at + 4) }
    ensures { Puts out.old at (lead (bytes " -> ") j ++ step_text names.now
        (step_in (all_tests names.now tree.now edges.now operands.now) t n))
        1045249 out.new result }
{
    let p = put_gap(j, b" -> ", out, at);
    if n == 0 {
        return put(b"( )", out, p);
    }
    put_tests(names, tree, edges, operands, t, n, out, p)
}

// The alternative of n steps from step s on, whose tests start at t.
pub fn put_steps(
    names: &[u8],
    tree: &[u8],
    tests: &[u8],
    edges: &[u8],
    operands: &[u16],
    s: usize,
    n: usize,
    t: usize,
    out: &mut [u8],
    at: usize,
) -> usize
    requires { OneAlternative names.now tree.now tests.now edges.now operands.now s n t at }
    ensures { Puts out.old at (alternative_text names.now
        (alternative_in tests.now (all_tests names.now tree.now edges.now
        operands.now) s t n)) 266538495 out.new result }
{
    let mut p = at;
    let mut u = t;
    for j in 0..n {
        let many = tests[s + j] as usize;
        p = put_step(names, tree, edges, operands, u, many, j, out, p);
        u += many;
    }
    p
}
