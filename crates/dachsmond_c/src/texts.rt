// Names and expressions for C: a list of names checked, an expression read and written.
ghost use Rattle.std.specs.Prelude.{◌/◌, ◌≡◌, length};
ghost use Rattle.alf.specs.Refusals.{Comes};
ghost use Rattle.names.specs.Check.{names_order};
ghost use Rattle.reader.specs.Reading.{ReadsText};
ghost use Rattle.writer.specs.Writing.{Writes};
ghost use Rattle.telling.specs.Handing.{Hands, told, told_expression, sort_of_lem};

use alf::Rules;
use telling::{Expression, Told};

// How many names a list of names holds.
#[unsafe(no_mangle)]
pub extern "C" fn dachsmond_check_names(names: &[u8]) -> Told
    ensures { Hands (Comes (names_order names.now) (λ k. k ≡ length names.now / 32))
        told result }
{
    dachsmond::texts::dachsmond_check_names(names)
}

// The expression that a text is, as a tree over a list of names.
#[unsafe(no_mangle)]
pub extern "C" fn dachsmond_read_expression(
    rules: Rules,
    names: &[u8],
    text: &[u8],
    vector: bool,
) -> Expression
    ensures { Hands (ReadsText rules names.now text.now (sort_of_lem vector))
        told_expression result }
{
    dachsmond::texts::dachsmond_read_expression(rules, names, text, vector)
}

// The text of a tree into a lent buffer.
#[unsafe(no_mangle)]
pub extern "C" fn dachsmond_write_expression(
    names: &[u8],
    tree: &[u8],
    vector: bool,
    out: &mut [u8],
) -> Told
    ensures { Hands (Writes names.now tree.now (sort_of_lem vector) out.old
        out.new) told result }
{
    dachsmond::texts::dachsmond_write_expression(names, tree, vector, out)
}
