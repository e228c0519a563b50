// The pins that an expression's text names are kept too.
ghost use Rattle.kept_texts.specs.Keeping.{KeepsText};

use alf::{Rules, Sort};
use basics::Refusal;
use basics::refusing::refuse;
use named_pins::marking::mark_names;
use reader::read_expression;

// The table with the pins that the text's expression names; how many names there are. Refused with what reading
// refuses, then with 18 where the table has not an entry for each name.
pub fn keep_text(
    rules: Rules,
    names: &[u8],
    text: &[u8],
    sort: Sort,
    kept: &mut [u8],
) -> Result<usize, Refusal>
    ensures { KeepsText rules names.now text.now sort kept.old
        kept.new result }
{
    let read = read_expression(rules, names, text, sort)?;
    let count = names.len() / 32;
    if kept.len() != count {
        return refuse(18, 0);
    }
    let tree = read.tree;
    let len = read.len;
    mark_names(&tree[..len], kept);
    Ok(count)
}
