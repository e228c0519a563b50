// Names and expressions for C: a list of names checked, an expression read and written.
ghost use Rattle.std.specs.Prelude.{◌/◌, ◌≡◌, length};
ghost use Rattle.alf.specs.Refusals.{Comes};
ghost use Rattle.names.specs.Check.{names_order};
ghost use Rattle.reader.specs.Reading.{ReadsText};
ghost use Rattle.writer.specs.Writing.{Writes};
ghost use Rattle.telling.specs.Handing.{Hands, told, told_expression, sort_of_lem};

use alf::Rules;
use names::check_names;
use reader::read_expression;
use telling::outcomes::tell;
use telling::texts::{sort_of, tell_expression};
use telling::{Expression, Told};
use writer::write_expression;

// How many names a list of names holds.
pub fn dachsmond_check_names(names: &[u8]) -> Told
    ensures { Hands (Comes (names_order names.now) (λ k. k ≡ length names.now / 32))
        told result }
{
    tell(check_names(names))
}

// The expression that a text is, as a tree over a list of names.
pub fn dachsmond_read_expression(
    rules: Rules,
    names: &[u8],
    text: &[u8],
    vector: bool,
) -> Expression
    ensures { Hands (ReadsText rules names.now text.now (sort_of_lem vector))
        told_expression result }
{
    tell_expression(read_expression(rules, names, text, sort_of(vector)))
}

// The text of a tree into a lent buffer.
pub fn dachsmond_write_expression(names: &[u8], tree: &[u8], vector: bool, out: &mut [u8]) -> Told
    ensures { Hands (Writes names.now tree.now (sort_of_lem vector) out.old
        out.new) told result }
{
    tell(write_expression(names, tree, sort_of(vector), out))
}
