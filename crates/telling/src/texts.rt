// An expression that was read, and the sort that C asks for.
ghost use Rattle.std.specs.Prelude.{◌≡◌};
ghost use Rattle.telling.specs.Handing.{told_expression, sort_of_lem};

use crate::Expression;
use alf::Sort;
use basics::Refusal;
use reader::Read;

pub fn tell_expression(r: Result<Read, Refusal>) -> Expression
    ensures { result ≡ told_expression r }
{
    match r {
        Ok(read) => {
            let tree = read.tree;
            Expression {
                number: 0,
                place: 0,
                extent: 0,
                len: read.len,
                tree,
            }
        }
        Err(refusal) => {
            let tree = [0u8; 256];
            Expression {
                number: refusal.number,
                place: refusal.place,
                extent: refusal.extent,
                len: 0,
                tree,
            }
        }
    }
}

pub fn sort_of(vector: bool) -> Sort
    ensures { result ≡ sort_of_lem vector }
{
    if vector { Sort::Vector } else { Sort::Boolean }
}
