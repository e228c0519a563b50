// The line of the table for a pattern's tree, with its totals on a trace.
ghost use Rattle.tree_listings.specs.TreeTexts.{LinesTree};

use alf::Rules;
use basics::Refusal;
use matching_calls::matching::totals;
use table_lines::lines::write_line;

// The line of a pattern, shown as `pattern`, with the totals of its tree; its length. Refused with 18, 10, 15 or 9.
pub fn write_totals(
    rules: Rules,
    names: usize,
    n: usize,
    tree: &[u8],
    states: &[u8],
    pattern: &[u8],
    out: &mut [u8],
) -> Result<usize, Refusal>
    ensures { LinesTree rules names n tree.now states.now pattern.now
        out.old out.new result }
{
    let t = totals(rules, names, n, tree, states)?;
    write_line(pattern, t, n as u32, out)
}
