// Listings of what a text gives, on a trace, into a lent buffer: of a pattern, as the rules read it, its answers, of a
// boolean expression its values.
ghost use Rattle.row_listings.specs.Listings.{ListsPattern, ListsValues, ListsAs};

use alf::{Rules, Sort};
use basics::Refusal;
use expression_listings::listings::list_tree;
use reader::read_expression;

// The listing of what a text gives, by its sort.
fn list_given(
    rules: Rules,
    sort: Sort,
    names: &[u8],
    times: &[u64],
    states: &[u8],
    text: &[u8],
    out: &mut [u8],
) -> Result<usize, Refusal>
    ensures { ListsAs rules sort names.now times.now states.now
        text.now out.old out.new result }
{
    let read = read_expression(rules, names, text, sort)?;
    let tree = read.tree;
    let len = read.len;
    list_tree(
        rules,
        sort,
        names.len() / 32,
        &tree[..len],
        times,
        states,
        out,
    )
}

// The listing of the pattern that a text gives; its length. Refused with what reading refuses, then 18, 15, 9.
pub fn list_text(
    rules: Rules,
    names: &[u8],
    times: &[u64],
    states: &[u8],
    text: &[u8],
    out: &mut [u8],
) -> Result<usize, Refusal>
    ensures { ListsPattern rules names.now times.now states.now
        text.now out.old out.new result }
{
    list_given(rules, Sort::Vector, names, times, states, text, out)
}

// The listing of the values of the boolean expression that a text gives; its length. Refused in the same order.
pub fn values_text(
    rules: Rules,
    names: &[u8],
    times: &[u64],
    states: &[u8],
    text: &[u8],
    out: &mut [u8],
) -> Result<usize, Refusal>
    ensures { ListsValues rules names.now times.now states.now
        text.now out.old out.new result }
{
    list_given(rules, Sort::Boolean, names, times, states, text, out)
}
