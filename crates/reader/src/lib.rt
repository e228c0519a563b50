// Reading an expression: from a text to a tree, or refused.
#![tactic(auto)]

ghost use Rattle.std.specs.Prelude.{◌≡◌, ◌≤◌, length};
ghost use Rattle.basics.specs.Refusing.{refusal_over_lem};
ghost use Rattle.alf.specs.Refusals.{Passed};
ghost use Rattle.names.specs.Check.{names_order};
ghost use Rattle.reader.specs.Reads.{shown_at, has_sort, Grown, Answered};
ghost use Rattle.alf.specs.Alternatives.{alternatives, over_limit};
ghost use Rattle.alf.specs.Steady.{meant};
ghost use Rattle.trees.specs.Parts.{vector_at};
ghost use Rattle.steady_pins.specs.Finding.{Tree};
ghost use Rattle.reader.specs.Reading.{Unlimited, ReadsText};
ghost use Rattle.reader.specs.Tokened.{Tokened};

use acceptance::sizes::measure;
use alf::{Rules, Sort};
use basics::Refusal;
use basics::refusing::{refusal_of, refusal_over};
use grammar::Parsed;
use names::check_names;
use parser::parse;
use sorting::lookup::first_unknown;
use sorting::sorts::sort_nodes;
use token_steps::steps::take_token;
use tokens::{Tokens, read_tokens};

// What is read: the first `len` entries of `tree`, with zeros behind them.
#[derive(Clone, Copy)]
pub struct Read {
    pub len: usize,
    pub tree: [u8; 256],
}

// 5, 6 and 7 show the token at the place; at the text's end there is none.
fn refuse_token(text: &[u8], number: u8, place: usize) -> Refusal
    requires { place ≤ length text.now }
    ensures { result ≡ refusal_over_lem number place (shown_at text.now place) }
{
    match take_token(text, place) {
        Ok(token) => refusal_over(number, place, token.size),
        Err(on) => refusal_over(number, place, on),
    }
}

// Whether an expression, a vector or not, has the sort.
fn has_sort(sort: Sort, vector: bool) -> bool
    ensures { result ≡ has_sort sort vector }
{
    match sort {
        Sort::Boolean => !vector,
        Sort::Vector => vector,
    }
}

// The expression of a parsed text, or refused with 7: the first faulty operator, or last the sort asked for.
fn read_nodes(names: &[u8], text: &[u8], parsed: Parsed, sort: Sort) -> Result<Read, Refusal>
    requires { Grown names.now text.now parsed }
    ensures { Answered names.now text.now parsed sort result }
{
    let codes = parsed.codes;
    let places = parsed.places;
    let s = sort_nodes(names, text, &codes, &places, parsed.len);
    if !s.ok {
        return Err(refuse_token(text, 7, s.place));
    }
    if !has_sort(sort, s.sorts[0]) {
        return Err(refuse_token(text, 7, text.len()));
    }
    Ok(Read {
        len: s.len,
        tree: s.tree,
    })
}

// The expression of a text's tokens, or refused with 5, 6 or 7.
fn read_tokened(
    rules: Rules,
    names: &[u8],
    text: &[u8],
    t: &Tokens,
    sort: Sort,
) -> Result<Read, Refusal>
    requires { Tokened names.now text.now t.now }
    ensures { Unlimited rules names.now text.now sort result }
{
    let count = t.count;
    let parsed = parse(&t.codes, &t.places, count, text.len());
    if !parsed.ok {
        return Err(refuse_token(text, 5, parsed.place));
    }
    let u = first_unknown(names, text, &t.codes, &t.places, count);
    if u < count {
        return Err(refuse_token(text, 6, t.places[u] as usize));
    }
    read_nodes(names, text, parsed, sort)
}

// The expression of a text, limit 8 aside, or refused with 1 to 7.
fn read_text(rules: Rules, names: &[u8], text: &[u8], sort: Sort) -> Result<Read, Refusal>
    requires { Passed (names_order names.now) }
    ensures { Unlimited rules names.now text.now sort result }
{
    // The tokens are lent where they are: `?` would copy their 12 KB.
    match &read_tokens(text) {
        Ok(t) => read_tokened(rules, names, text, t, sort),
        Err(r) => Err(*r),
    }
}

// Whether the vector expression that ends at `end`, as the rules read it, is over limit 8.
fn is_over(rules: Rules, tree: &[u8], end: usize, names: usize) -> bool
    requires { Tree tree.now names end }
    ensures { result ≡ over_limit (alternatives (meant rules (vector_at tree.now names end))) }
{
    match measure(rules, tree, end, names) {
        None => true,
        Some(size) => false,
    }
}

// The tree of what was read, by itself.
fn tree_of(r: Read) -> [u8; 256]
    ensures { result ≡ r.tree }
{
    let tree = r.tree;
    tree
}

// What was read, or refused with 8. A boolean expression has no alternatives.
fn limit(rules: Rules, names: &[u8], text: &[u8], sort: Sort, r: Read) -> Result<Read, Refusal>
    requires { Unlimited rules names.now text.now sort (Ok r) }
    ensures { ReadsText rules names.now text.now sort result }
{
    if has_sort(sort, false) {
        return Ok(r);
    }
    let tree = tree_of(r);
    if is_over(rules, &tree, r.len, names.len() / 32) {
        return Err(refusal_of(8, 0));
    }
    Ok(r)
}

// The expression that a text is, as a tree over a list of names, for the sort asked for; or refused: 18 and 12 for the
// list of names, then 1 to 8, each over the whole text before the next.
pub fn read_expression(rules: Rules, names: &[u8], text: &[u8], sort: Sort) -> Result<Read, Refusal>
    ensures { ReadsText rules names.now text.now sort result }
{
    check_names(names)?;
    let r = read_text(rules, names, text, sort)?;
    limit(rules, names, text, sort, r)
}
