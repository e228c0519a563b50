// Listings of what a tree is, on a trace, into a lent buffer: of a pattern its answers, of a boolean expression its
// values.
ghost use Rattle.std.specs.Prelude.{◌≡◌, length};
ghost use Rattle.alf.specs.declared.Sort.TheVariants.{Boolean};
ghost use Rattle.acceptance.specs.Accepted.{Accepted};
ghost use Rattle.expression_listings.specs.TreeListings.{RowsText, tree_listing};

use alf::{Rules, Sort};
use basics::Refusal;
use basics::refusing::refuse;
use column_listings::listings::list_values;
use row_calls::written::values;
use tree_listings::listings::list;

// The values of a boolean expression's tree, listed.
fn list_states(
    rules: Rules,
    k: usize,
    tree: &[u8],
    times: &[u64],
    states: &[u8],
    codes: &mut [u8],
    out: &mut [u8],
) -> Result<usize, Refusal>
    requires accepted { Accepted rules k Boolean tree.now }
    requires codes_len { length codes.old ≡ length times.now }
    ensures { RowsText k times.now states.now
        (tree_listing rules k times.now states.now tree.now)
        out.old out.new result }
{
    values(rules, k, times.len(), tree, states, codes)?;
    list_values(times, codes, out)
}

// Of the list, what the rows fill; more than 65,535 rows are refused.
fn list_front(
    rules: Rules,
    k: usize,
    tree: &[u8],
    times: &[u64],
    states: &[u8],
    codes: &mut [u8],
    out: &mut [u8],
) -> Result<usize, Refusal>
    requires accepted { Accepted rules k Boolean tree.now }
    requires codes_len { length codes.old ≡ 65535 }
    ensures { RowsText k times.now states.now
        (tree_listing rules k times.now states.now tree.now)
        out.old out.new result }
{
    let n = times.len();
    if codes.len() < n {
        return refuse(18, 0);
    }
    list_states(rules, k, tree, times, states, &mut codes[0..n], out)
}

fn list_lent(
    rules: Rules,
    k: usize,
    tree: &[u8],
    times: &[u64],
    states: &[u8],
    codes: &mut [u8; 65535],
    out: &mut [u8],
) -> Result<usize, Refusal>
    requires { Accepted rules k Boolean tree.now }
    ensures { RowsText k times.now states.now
        (tree_listing rules k times.now states.now tree.now)
        out.old out.new result }
{
    list_front(rules, k, tree, times, states, &mut codes[..], out)
}

// The same, by way of a list of an entry for each row that there can be.
fn list_boolean(
    rules: Rules,
    k: usize,
    tree: &[u8],
    times: &[u64],
    states: &[u8],
    out: &mut [u8],
) -> Result<usize, Refusal>
    requires { Accepted rules k Boolean tree.now }
    ensures { RowsText k times.now states.now
        (tree_listing rules k times.now states.now tree.now)
        out.old out.new result }
{
    let mut codes = [0u8; 65535];
    list_lent(rules, k, tree, times, states, &mut codes, out)
}

// What a tree is that a text gives, at all rows, listed: by its sort.
pub fn list_tree(
    rules: Rules,
    sort: Sort,
    k: usize,
    tree: &[u8],
    times: &[u64],
    states: &[u8],
    out: &mut [u8],
) -> Result<usize, Refusal>
    requires { Accepted rules k sort tree.now }
    ensures { RowsText k times.now states.now
        (tree_listing rules k times.now states.now tree.now)
        out.old out.new result }
{
    match sort {
        Sort::Boolean => list_boolean(rules, k, tree, times, states, out),
        Sort::Vector => list(rules, k, times.len(), tree, times, states, out),
    }
}
