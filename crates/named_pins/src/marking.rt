// Marks in a table, which has an entry for each pin, the pins that a tree names. In a tree's bytes a pin is its number.
ghost use Rattle.std.specs.Prelude.{◌≡◌, set};
ghost use Rattle.named_pins.specs.Tables.{Marks};

// One pin; a number that is none of a pin's marks nothing.
fn mark(b: u8, kept: &mut [u8])
    ensures { kept.new ≡ set kept.old b 1 }
{
    let i = b as usize;
    if i < kept.len() {
        kept[i] = 1;
    }
}

// All pins of a tree.
pub fn mark_names(tree: &[u8], kept: &mut [u8])
    ensures { Marks tree.now kept.old kept.new }
{
    for b in tree {
        mark(*b, kept);
    }
}
