// The text of a test: that of the expression which its edge and its operand make, or `...`.
ghost use Rattle.std.specs.Prelude.{◌≡◌, ◌+◌, ◌≤◌, length};
ghost use Rattle.alf.specs.Names.{names_in};
ghost use Rattle.alf.specs.Bytes.{edge_number, vector_bytes};
ghost use Rattle.alf.specs.Decoder.{edge_at};
ghost use Rattle.alf.specs.Expressions.{edge, vector};
ghost use Rattle.trees.specs.Parts.{boolean_at, expression_at};
ghost use Rattle.basics.specs.Memory.{Holds};
ghost use Rattle.basics.specs.Text.{bytes};
ghost use Rattle.alternative_texts.specs.Inner.{Joinable, ShowsTest, Tellable, Testable};
ghost use Rattle.alternative_texts.specs.Inner.{Tested, Untold, all_tests};
ghost use Rattle.alternative_texts.specs.Texts.{untold_test};
ghost use Rattle.basics.specs.Words.{sum_of};

use crate::puts::{push, put};
use alf::Sort;
use trees::parts::start_of;
use writer::write_expression;

// How many bytes a test's text has, and 1 where that is `...`.
#[derive(Clone, Copy)]
pub struct Shown {
    pub size: usize,
    pub untold: usize,
}

// An edge's byte, by its number.
fn edge_byte(number: u8) -> u8
    ensures { result ≡ 64 + edge_number (edge_at number) }
{
    if number < 82 {
        return 64 + number;
    }
    146
}

// The bytes of a test's expression: its operand's, and the edge's.
fn lay_bytes(names: usize, tree: &[u8], number: u8, end: usize, list: &mut [u8]) -> usize
    requires { Joinable names tree.now end list.old }
    ensures { Holds list.new result
        (vector_bytes (edge (edge_at number) (boolean_at tree.now names end))) }
{
    let start = start_of(tree, end, names);
    let n = put(&tree[start..end], list, 0);
    push(list, n, edge_byte(number))
}

// `...` at the front.
fn lay_dots(text: &mut [u8]) -> usize
    requires { 3 ≤ length text.old }
    ensures { Holds text.new result (bytes "...") }
{
    put(b"...", text, 0)
}

// The text of an expression, by its bytes.
fn tell(names: &[u8], tree: &[u8], text: &mut [u8]) -> Shown
    requires { Tellable names.now tree.now text.old }
    ensures { ShowsTest names.now
        (expression_at tree.now (names_in names.now) (length tree.now))
        text.new result.size result.untold }
{
    let o = write_expression(names, tree, Sort::Vector, text);
    match o {
        Ok(n) => Shown { size: n, untold: 0 },
        Err(_) => Shown {
            size: lay_dots(text),
            untold: 1,
        },
    }
}

// The same into an array.
fn lay_array(names: usize, tree: &[u8], number: u8, end: usize, list: &mut [u8; 257]) -> usize
    requires { Joinable names tree.now end list.old }
    ensures { Holds list.new result
        (vector_bytes (edge (edge_at number) (boolean_at tree.now names end))) }
{
    lay_bytes(names, tree, number, end, &mut list[..])
}

// The text of a test, by its edge's number and the place in the tree where its operand ends.
pub fn show_test(names: &[u8], tree: &[u8], number: u8, end: usize, text: &mut [u8; 4096]) -> Shown
    requires { Testable names.now tree.now end }
    ensures { ShowsTest names.now
        (vector (edge (edge_at number) (boolean_at tree.now (names_in names.now) end)))
        text.new result.size result.untold }
{
    let mut list = [0u8; 257];
    let n = lay_array(names.len() / 32, tree, number, end, &mut list);
    tell(names, &list[..n], &mut text[..])
}

// Whether a test is shown as `...`: 1, else 0.
fn is_untold(names: &[u8], tree: &[u8], number: u8, end: usize) -> usize
    requires { Testable names.now tree.now end }
    ensures { Untold names.now
        (vector (edge (edge_at number) (boolean_at tree.now (names_in names.now) end))) result }
{
    let mut text = [0u8; 4096];
    let shown = show_test(names, tree, number, end, &mut text);
    shown.untold
}

// How many tests of the lists are shown as `...`.
pub fn count_untold(names: &[u8], tree: &[u8], edges: &[u8], operands: &[u16]) -> usize
    requires { Tested names.now tree.now edges.now operands.now }
    ensures { result ≡ sum_of (untold_test names.now)
        (all_tests names.now tree.now edges.now operands.now) }
{
    let mut n: usize = 0;
    for k in 0..edges.len() {
        n += is_untold(names, tree, edges[k], operands[k] as usize);
    }
    n
}
