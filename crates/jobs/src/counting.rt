// The totals of a pattern's text on a trace.
ghost use Rattle.jobs.specs.Counting.{CountsText};

use alf::{Rules, Sort};
use basics::Refusal;
use matcher::tables::Total;
use matching_calls::matching::totals;
use reader::read_expression;

// How many of the rows answer yes, no and unknown to the vector expression that a text is, as the rules read it; or
// refused: 18 and 12 for the list of names, 1 to 8 for the text, then 18 and 15 for the trace.
pub fn count_text(
    rules: Rules,
    names: &[u8],
    n: usize,
    states: &[u8],
    text: &[u8],
) -> Result<Total, Refusal>
    ensures { CountsText rules names.now n states.now text.now result }
{
    let read = read_expression(rules, names, text, Sort::Vector)?;
    let len = read.len;
    let tree = read.tree;
    totals(rules, names.len() / 32, n, &tree[..len], states)
}
