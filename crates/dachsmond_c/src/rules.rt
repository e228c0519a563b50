// The rules of reading and evaluation, for C.
ghost use Rattle.std.specs.Prelude.{◌≡◌};
ghost use Rattle.alf.specs.Values.{old_rules_lem};

use alf::Rules;

// Document 01's rules: X where the choice of a ternary is unknown, and an expression read as it is written.
#[unsafe(no_mangle)]
pub extern "C" fn dachsmond_old_rules() -> Rules
    ensures { result ≡ old_rules_lem }
{
    dachsmond::rules::dachsmond_old_rules()
}
