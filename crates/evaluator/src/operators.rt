// What an operator makes of the states of its operands.
ghost use Rattle.std.specs.Prelude.{◌-◌, ◌<◌};
ghost use Rattle.alf.specs.Values.{operate, unresolved, chosen};
ghost use Rattle.alf.specs.Decoder.{binary_at};
ghost use Rattle.evaluator.specs.Rows.{IsState, Operands, settled_by};

use alf::Rules;
use states::states::{
    above, and_of, at_least, at_most, below, differs, equals, or_of, reduced, xnor_of, xor_of,
};

// Operator `op` of `& | ^ ~^ == != > < >= <=`, bytes 40 to 49.
pub fn operated(op: u8, x: u8, y: u8) -> u8
    requires { Operands op x y }
    ensures { IsState (operate (binary_at (op - 40)) x y) result }
{
    match op {
        40 => and_of(x, y),
        41 => or_of(x, y),
        42 => xor_of(x, y),
        43 => xnor_of(x, y),
        44 => equals(x, y),
        45 => differs(x, y),
        46 => above(x, y),
        47 => below(x, y),
        48 => at_least(x, y),
        _ => at_most(x, y),
    }
}

// The value of an expression whose last byte is `b` and whose state is `x`: a name's state is reduced.
pub fn settle(b: u8, x: u8) -> u8
    requires { x < 8 }
    ensures { IsState (settled_by b x) result }
{
    if b < 32 { reduced(x) } else { x }
}

// `c ? x : y` of two values, where c is unknown. Nothing else looks into the rules.
pub fn resolve(rules: Rules, x: u8, y: u8) -> u8
    requires { x < 8 }
    ensures { IsState (unresolved rules x y) result }
{
    if x != y {
        return 2;
    }
    if rules.equal_branches { x } else { 2 }
}

// `c ? x : y`, of two values.
pub fn choose(rules: Rules, c: u8, x: u8, y: u8) -> u8
    requires { (c < 8) × (x < 8) × (y < 8) }
    ensures { IsState (chosen rules c x y) result }
{
    let k = reduced(c);
    if k == 2 {
        return resolve(rules, x, y);
    }
    if k == 1 { x } else { y }
}
