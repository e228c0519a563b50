// The changes of a row: which variables differ between two rows, as a set of bits, and how many they are.
ghost use Rattle.std.specs.Prelude.{◌≡◌};
ghost use Rattle.states.specs.Comparing.{compared, Compared, differing};
ghost use Rattle.alf.specs.Traces.{mask};

#[derive(Clone, Copy)]
pub struct Changes {
    pub mask: u32,
    pub many: u32,
}

// How many places two rows of these lengths are compared at: those that both have, at most 32.
fn places(old: usize, new: usize) -> usize
    ensures { result ≡ compared old new }
{
    old.min(32).min(new)
}

// Bit i is 1 where the rows differ at i.
pub fn mask_of(old: &[u8], new: &[u8]) -> u32
    ensures { result ≡ differing old.now new.now }
{
    let n = places(old.len(), new.len());
    let mut mask: u32 = 0;
    for i in 0..n {
        if old[i] != new[i] {
            mask = mask | (1u32 << i);
        }
    }
    mask
}

// The set of changed variables, and how many they are.
pub fn changes_of(old: &[u8], new: &[u8]) -> Changes
    ensures { Compared old.now new.now result.mask result.many }
{
    let mask = mask_of(old, new);
    Changes {
        mask,
        many: u32::count_ones(mask),
    }
}
