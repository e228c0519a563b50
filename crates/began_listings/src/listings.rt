// The listing of a pattern's answers with where each match began, from its tree and a trace.
ghost use Rattle.std.specs.Prelude.{length};
ghost use Rattle.figures.specs.Delivering.{Delivers};
ghost use Rattle.matcher.specs.Scenes.{state_on, alternatives_on};
ghost use Rattle.matching_calls.specs.Matching.{expression, TreeRows};
ghost use Rattle.began_listings.specs.BeganTexts.{pattern_began, ListsBegan};
ghost use Rattle.began_listings.specs.Inner.{DatedRowsOn, listing_by};

use crate::rows::{measure, put_rows};
use alf::Rules;
use alternatives::lists::Lists;
use basics::Refusal;
use basics::puts::put;
use basics::refusing::refuse;
use column_listings::totals::{Tally, last_size, put_last};
use judging::timed::check_timed;
use matcher::scenes::Scene;
use rewriting::lists::alternatives_of;

// By the lists of a tree's alternatives: heading, lines and totals, or 9.
fn list_rows(scene: &Scene, lists: &Lists, times: &[u64], out: &mut [u8]) -> Result<usize, Refusal>
    requires { DatedRowsOn scene.now lists.now
        times.now }
    ensures { Delivers (listing_by (state_on scene.now) times.now
        (alternatives_on scene.now lists.now)) out.old out.new result }
{
    let m = measure(scene, lists, times);
    let tally = Tally {
        yes: m.yes,
        no: m.no,
        unknown: m.unknown,
    };
    let size = m.size + last_size(tally) + 18;
    if out.len() < size {
        return refuse(9, size);
    }
    let p = put(b"time answer began\n", out, 0);
    let q = put_rows(scene, lists, times, out, p);
    put_last(tally, out, q);
    Ok(size)
}

// An accepted tree on a good trace.
fn list_good(
    rules: Rules,
    names: usize,
    tree: &[u8],
    times: &[u64],
    states: &[u8],
    out: &mut [u8],
) -> Result<usize, Refusal>
    requires { TreeRows rules names (length times.now) tree.now states.now }
    ensures { Delivers (pattern_began rules names times.now states.now
        (expression rules tree.now names)) out.old out.new result }
{
    let a = alternatives_of(rules, tree, names);
    let lists = a.lists();
    let scene = Scene {
        rules,
        tree,
        names,
        states,
    };
    list_rows(&scene, &lists, times, out)
}

// A line for each of n rows with its time, the answer of a pattern's tree and the time where the match began, and a
// last line with the totals; the length of all. Refused with 18, 10, 15, 13 or 9.
pub fn list_began(
    rules: Rules,
    names: usize,
    n: usize,
    tree: &[u8],
    times: &[u64],
    states: &[u8],
    out: &mut [u8],
) -> Result<usize, Refusal>
    ensures { ListsBegan rules names n tree.now times.now states.now
        out.old out.new result }
{
    let lent = times.len() == n;
    check_timed(rules, names, n, lent, tree, times, states)?;
    list_good(rules, names, tree, times, states, out)
}
