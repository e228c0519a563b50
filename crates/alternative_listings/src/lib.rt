// The listing of a pattern's alternatives, from a tree to its text; `texts` goes from a text.
#![tactic(auto)]

pub mod texts;

ghost use Rattle.std.specs.Prelude.{◌≡◌, length};
ghost use Rattle.alf.specs.Names.{names_in};
ghost use Rattle.basics.specs.Words.{sum_of};
ghost use Rattle.alternatives.specs.Listed.{alternatives_listed};
ghost use Rattle.contradictions.specs.Possible.{Flagged, ReportedOn};
ghost use Rattle.writer.specs.Writing.{Named};
ghost use Rattle.alternative_lines.specs.Listing.{listing};
ghost use Rattle.alternative_texts.specs.Texts.{untold, untold_test};
ghost use Rattle.alternative_listings.specs.Calls.{listing_at, own_at, WritesAlternatives, DeliversLines};
ghost use Rattle.alternative_lines.specs.Inner.{headed_lines};
ghost use Rattle.alternative_listings.specs.Inner.{Whole, ListedOn, AllLinesOn};
ghost use Rattle.alternative_texts.specs.Inner.{all_tests};

use acceptance::accepting::accepts;
use alf::{Rules, Sort};
use alternative_lines::numbered::put_all;
use alternative_texts::showing::count_untold;
use alternatives::lists::Lists;
use basics::Refusal;
use basics::refusing::refuse;
use contradictions::possible::flag_all;
use names::check_names;
use rewriting::lists::alternatives_of;

// What comes of a listing, and how many tests are shown in it as `...`.
#[derive(Clone, Copy)]
pub struct Lines {
    pub written: Result<usize, Refusal>,
    pub untold: usize,
}

// How long the text is: it is written where there is no room.
fn measure(names: &[u8], tree: &[u8], lists: &Lists, flags: &[u8; 64], none: &mut [u8; 1]) -> usize
    requires { AllLinesOn names.now tree.now lists.now
        flags.now 0 }
    ensures { result ≡ length (headed_lines names.now flags.now
        (alternatives_listed tree.now (names_in names.now) lists.now)) }
{
    put_all(
        names,
        tree,
        lists.steps,
        lists.tests,
        lists.edges,
        lists.operands,
        &flags[..],
        &mut none[..],
    )
}

// The text of the lists: 9, or handed over.
fn deliver(names: &[u8], tree: &[u8], lists: &Lists, flags: &[u8; 64], out: &mut [u8]) -> Lines
    requires { AllLinesOn names.now tree.now lists.now
        flags.now 0 }
    ensures { DeliversLines (headed_lines names.now flags.now
        (alternatives_listed tree.now (names_in names.now) lists.now)) (sum_of (untold_test names.now)
        (all_tests names.now tree.now lists.now.edges.now lists.now.operands.now))
        out.old out.new result }
{
    let mut none = [0u8; 1];
    let size = measure(names, tree, lists, flags, &mut none);
    if out.len() < size {
        return Lines {
            written: refuse(9, size),
            untold: 0,
        };
    }
    let untold = count_untold(names, tree, lists.edges, lists.operands);
    put_all(
        names,
        tree,
        lists.steps,
        lists.tests,
        lists.edges,
        lists.operands,
        &flags[..],
        out,
    );
    Lines {
        written: Ok(size),
        untold,
    }
}

// A flag for each alternative.
fn flag_lists(names: usize, tree: &[u8], lists: &Lists, flags: &mut [u8; 64])
    requires { ReportedOn tree.now names lists.now flags.old }
    ensures { Flagged names (alternatives_listed tree.now names lists.now) flags.old
        flags.new }
{
    flag_all(tree, names, lists, &mut flags[..]);
}

// The text of the lists, with the contradictory ones noted.
fn list_all(names: &[u8], tree: &[u8], lists: &Lists, out: &mut [u8]) -> Lines
    requires { ListedOn names.now tree.now lists.now }
    ensures { DeliversLines (listing names.now
        (alternatives_listed tree.now (names_in names.now) lists.now)) (sum_of (untold_test names.now)
        (all_tests names.now tree.now lists.now.edges.now lists.now.operands.now))
        out.old out.new result }
{
    let mut flags = [0u8; 64];
    flag_lists(names.len() / 32, tree, lists, &mut flags);
    deliver(names, tree, lists, &flags, out)
}

// The alternatives of an accepted tree, as the rules read it.
fn list_tree(rules: Rules, names: &[u8], tree: &[u8], out: &mut [u8]) -> Lines
    requires { Whole rules names.now tree.now }
    ensures { DeliversLines (listing_at rules names.now tree.now)
        (untold names.now (own_at rules names.now tree.now))
        out.old out.new result }
{
    let a = alternatives_of(rules, tree, names.len() / 32);
    list_all(names, tree, &a.lists(), out)
}

// Where the names are checked.
fn write_named(rules: Rules, names: &[u8], tree: &[u8], out: &mut [u8]) -> Lines
    requires { Named names.now }
    ensures { WritesAlternatives rules names.now tree.now out.old
        out.new result }
{
    if !accepts(rules, tree, names.len() / 32, Sort::Vector) {
        return Lines {
            written: refuse(10, 0),
            untold: 0,
        };
    }
    list_tree(rules, names, tree, out)
}

// The alternatives of a tree, as the rules read it, as text into a lent buffer. Refused with 18, 12, 10 or 9, in this
// order.
pub fn write_alternatives(rules: Rules, names: &[u8], tree: &[u8], out: &mut [u8]) -> Lines
    ensures { WritesAlternatives rules names.now tree.now out.old
        out.new result }
{
    let checked = check_names(names);
    match checked {
        Err(r) => Lines {
            written: Err(r),
            untold: 0,
        },
        Ok(_) => write_named(rules, names, tree, out),
    }
}
