// The alternatives of a pattern, from its text to their lines.
ghost use Rattle.alternative_listings.specs.AlternativesText.{RewritesText};

use crate::{Lines, write_alternatives};
use alf::{Rules, Sort};
use reader::read_expression;

// The alternatives of a pattern, as the rules read it, as text into a lent buffer. Refused as the text is read, with
// 18, 12 and 1 to 8, then with 9.
pub fn alternatives_text(rules: Rules, names: &[u8], text: &[u8], out: &mut [u8]) -> Lines
    ensures { RewritesText rules names.now text.now out.old
        out.new result }
{
    match read_expression(rules, names, text, Sort::Vector) {
        Ok(read) => {
            let tree = read.tree;
            let n = read.len;
            write_alternatives(rules, names, &tree[..n], out)
        }
        Err(refusal) => Lines {
            written: Err(refusal),
            untold: 0,
        },
    }
}
