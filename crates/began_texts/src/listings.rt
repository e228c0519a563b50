// The listing of the pattern that a text gives, as the rules read it, with where each match began, on a trace.
ghost use Rattle.began_texts.specs.TextBegan.{ListsBeganText};

use alf::{Rules, Sort};
use basics::Refusal;
use began_listings::listings::list_began;
use reader::read_expression;

// The listing, into a lent buffer; its length. Refused with what reading refuses, then 18, 15, 13, 9.
pub fn list_began_text(
    rules: Rules,
    names: &[u8],
    times: &[u64],
    states: &[u8],
    text: &[u8],
    out: &mut [u8],
) -> Result<usize, Refusal>
    ensures { ListsBeganText rules names.now times.now states.now
        text.now out.old out.new result }
{
    let read = read_expression(rules, names, text, Sort::Vector)?;
    let tree = read.tree;
    let len = read.len;
    list_began(
        rules,
        names.len() / 32,
        times.len(),
        &tree[..len],
        times,
        states,
        out,
    )
}
