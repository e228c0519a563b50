// The text that the laboratory gets, for C: the listing of a pattern's answers, and the lines of the table, each into
// a lent buffer. The answers and a pattern's totals are found here; the line of all patterns has the sums handed in.
ghost use Rattle.table_lines.specs.Table.{heading_line, refused_line, total_line};
ghost use Rattle.tree_listings.specs.TreeTexts.{ListsTree, LinesTree};
ghost use Rattle.figures.specs.Delivering.{Delivers};
ghost use Rattle.telling.specs.Handing.{Hands, told};

use alf::Rules;
use basics::refusing::refusal_of;
use table_lines::lines::{Sums, write_heading, write_refused, write_total};
use telling::Told;
use telling::outcomes::tell;
use tree_listings::lines::write_totals;
use tree_listings::listings::list;

// The listing of the answers of a pattern's tree on a trace of n rows.
pub fn dachsmond_list(
    rules: Rules,
    names: usize,
    n: usize,
    tree: &[u8],
    times: &[u64],
    states: &[u8],
    out: &mut [u8],
) -> Told
    ensures { Hands (ListsTree rules names n tree.now times.now
        states.now
        out.old out.new) told result }
{
    tell(list(rules, names, n, tree, times, states, out))
}

// The line of the table's heading.
pub fn dachsmond_table_heading(out: &mut [u8]) -> Told
    ensures { Hands (Delivers heading_line out.old out.new) told result }
{
    tell(write_heading(out))
}

// The line of a pattern with the totals of its tree on a trace of n rows.
pub fn dachsmond_table_line(
    rules: Rules,
    names: usize,
    n: usize,
    tree: &[u8],
    states: &[u8],
    pattern: &[u8],
    out: &mut [u8],
) -> Told
    ensures { Hands (LinesTree rules names n tree.now states.now
        pattern.now
        out.old out.new) told result }
{
    tell(write_totals(rules, names, n, tree, states, pattern, out))
}

// The line of a pattern that is refused.
pub fn dachsmond_table_refused(pattern: &[u8], number: u8, place: usize, out: &mut [u8]) -> Told
    ensures { Hands (Delivers (refused_line pattern.now number place) out.old
        out.new) told result }
{
    tell(write_refused(pattern, refusal_of(number, place), out))
}

// The line of the sums over so many patterns on a trace of so many events.
pub fn dachsmond_table_total(
    yes: u64,
    unknown: u64,
    no: u64,
    patterns: u64,
    events: u64,
    out: &mut [u8],
) -> Told
    ensures { Hands (Delivers (total_line yes unknown no patterns events) out.old
        out.new) told result }
{
    let sums = Sums {
        yes,
        unknown,
        no,
        patterns,
        events,
    };
    tell(write_total(sums, out))
}
