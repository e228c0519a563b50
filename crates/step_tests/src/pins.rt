// The tests of the pins of a part, into the lists of edges and operands.
ghost use Rattle.std.specs.Prelude.{◌≡◌, ◌<◌};
ghost use Rattle.alf.specs.Expressions.{name};
ghost use Rattle.steady_pins.specs.Pinned.{pin_tests};
ghost use Rattle.acceptance.specs.Notes.{NotedPins};
ghost use Rattle.step_tests.specs.Steps.{Put, one_pin, PinFits, PinsFit, entries_at};

use crate::tests::put_test;
use acceptance::notes;

// The test of a pin, `?-`, whose number is 82; none for 0.
fn put_pin(pin: u8, edges: &mut [u8], operands: &mut [u16], from: usize) -> usize
    requires { PinFits pin edges.old operands.old from }
    ensures { Put (one_pin pin) from edges.old operands.old result edges.new
        operands.new }
{
    if pin == 0 {
        return from;
    }
    put_test(82, pin as usize, edges, operands, from)
}

// The tests of the first n entries of the part that ends at `end`, from place `from` on; the place behind them.
pub fn put_pins(
    pins: &[u8; 8192],
    end: usize,
    n: usize,
    edges: &mut [u8],
    operands: &mut [u16],
    from: usize,
) -> usize
    requires { PinsFit pins.now end n edges.old operands.old from }
    ensures { Put (pin_tests name pins.now n end) from edges.old
        operands.old result edges.new operands.new }
{
    let base = (end - 1) * 32;
    let mut at = from;
    for k in 0..n {
        at = put_pin(pins[base + k], edges, operands, at);
    }
    at
}

// The same, where it is noted how many pins the part has.
pub fn put_noted(
    pins: &[u8; 8192],
    notes: &[u8; 768],
    end: usize,
    n: usize,
    edges: &mut [u8],
    operands: &mut [u16],
    from: usize,
) -> usize
    requires { PinsFit pins.now end n edges.old operands.old from × NotedPins pins.now notes.now end }
    ensures { Put (pin_tests name pins.now n end) from edges.old
        operands.old result edges.new operands.new }
{
    let many = notes::pins_at(pins, notes, end);
    if many == 0 {
        return from;
    }
    put_pins(pins, end, n, edges, operands, from)
}

// How many entries are tested at step j: all of them at the last one.
pub fn entries_at(steps: usize, j: usize) -> usize
    requires { j < steps }
    ensures { result ≡ entries_at steps j }
{
    if j + 1 == steps { 32 } else { 0 }
}
