// An expression's tree as text: one blank between all tokens, only needed brackets.
#![tactic(auto)]

mod layout;

ghost use Rattle.std.specs.Prelude.{take};
ghost use Rattle.spelling.specs.Signs.{line_from};
ghost use Rattle.writer.specs.Writing.{Writes, Named, Layable, Laid, Linable, Delivers};
ghost use Rattle.basics.specs.Memory.{Holds};

use crate::layout::emit;
use acceptance::accepting::accepts;
use alf::Sort;
use basics::Refusal;
use basics::puts::put;
use basics::refusing::refuse;
use names::check_names;
use spelling::spells::put_line;
use states::rules::old_rules;

// The signs of a whole tree; how many.
fn lay_out(tree: &[u8], names: usize, list: &mut [u8; 1024]) -> usize
    requires { Layable tree.now names }
    ensures { Laid tree.now names list.new result }
{
    emit(tree, tree.len(), names, 6, &mut list[..], 0)
}

// Their text; its length.
fn spell_out(names: &[u8], list: &[u8; 1024], count: usize, buffer: &mut [u8; 33792]) -> usize
    requires { Linable names.now list.now count }
    ensures { Holds buffer.new result
        (line_from names.now 0 (take count list.now)) }
{
    put_line(names, &list[..], count, &mut buffer[..])
}

// A text: 1, 9, or handed over.
fn deliver(text: &[u8], out: &mut [u8]) -> Result<usize, Refusal>
    ensures { Delivers text.now out.old out.new result }
{
    let size = text.len();
    if 4096 < size {
        return refuse(1, 4096);
    }
    if out.len() < size {
        return refuse(9, size);
    }
    put(text, out, 0);
    Ok(size)
}

// Where the names are checked. The limits are asked of the tree as it is written, without steady pins.
fn write_tree(names: &[u8], tree: &[u8], sort: Sort, out: &mut [u8]) -> Result<usize, Refusal>
    requires { Named names.now }
    ensures { Writes names.now tree.now sort out.old
        out.new result }
{
    let n = names.len() / 32;
    if !accepts(old_rules(), tree, n, sort) {
        return refuse(10, 0);
    }
    let mut list = [0u8; 1024];
    let count = lay_out(tree, n, &mut list);
    let mut buffer = [0u8; 33792];
    let size = spell_out(names, &list, count, &mut buffer);
    deliver(&buffer[..size], out)
}

// The text of a tree into a lent buffer; its length. Refused with 18, 12, 10, 1 or 9, in this order.
pub fn write_expression(
    names: &[u8],
    tree: &[u8],
    sort: Sort,
    out: &mut [u8],
) -> Result<usize, Refusal>
    ensures { Writes names.now tree.now sort out.old
        out.new result }
{
    let checked = check_names(names);
    match checked {
        Err(r) => Err(r),
        Ok(_) => write_tree(names, tree, sort, out),
    }
}
