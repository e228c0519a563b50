// The rules of evaluation that every program starts from. A program that wants another rule sets its field.
ghost use Rattle.std.specs.Prelude.{◌≡◌};
ghost use Rattle.alf.specs.Values.{old_rules_lem};

use alf::Rules;

// Document 01's rules: X where the choice of a ternary is unknown; pins that an event does not name are free.
pub fn old_rules() -> Rules
    ensures { result ≡ old_rules_lem }
{
    Rules {
        equal_branches: false,
        steady_pins: false,
    }
}
