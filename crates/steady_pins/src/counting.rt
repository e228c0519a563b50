// How many pins a part of a tree has.
ghost use Rattle.steady_pins.specs.Entries.{Entries, PinNumber};

// How many pins the part that ends at `end` has.
pub fn pin_count(pins: &[u8; 8192], end: usize) -> usize
    requires { Entries pins.now end }
    ensures { PinNumber pins.now end result }
{
    let base = (end - 1) * 32;
    let mut n: usize = 0;
    for pin in &pins[base..base + 32] {
        if *pin != 0 {
            n += 1;
        }
    }
    n
}
