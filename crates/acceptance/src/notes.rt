// What is noted once for each end of a part of a tree: how many alternatives the part has, where it starts, and how
// many pins it has. So no part is walked again to look at one of its operands.
ghost use Rattle.std.specs.Prelude.{◌≡◌, ◌<◌, min, length};
ghost use Rattle.alf.specs.Alternatives.{number_of_alternatives};
ghost use Rattle.trees.specs.Parts.{Ends, EndsVector, vector_at, Start};
ghost use Rattle.steady_pins.specs.Entries.{PinNumber};
ghost use Rattle.acceptance.specs.Sizes.{PinnedTree};
ghost use Rattle.acceptance.specs.Notes.{NotedStarts, NotedCounts, NotedPins, Noted, Noting, StartBy, CountBy};

use crate::counts::join_counts;
use steady_pins::counting::pin_count;
use trees::parts::arity;

// Where the part that ends at `end` starts, from the starts that are noted before; 0 where none ends there.
fn start_by(tree: &[u8], notes: &[u8; 768], end: usize, names: usize) -> usize
    requires { Noting notes.now tree.now names end }
    ensures { StartBy tree.now names end result }
{
    let mut at = end - 1;
    let need = arity(tree[at]);
    for _ in 0..need {
        if at == 0 {
            return 0;
        }
        at = notes[255 + at] as usize;
    }
    at
}

// How many alternatives the vector expression that ends at `end` has, from the numbers that are noted before; 65 stands
// for more than 64, and 0 for none where none ends there.
fn count_by(tree: &[u8], notes: &[u8; 768], end: usize, names: usize) -> usize
    requires { Noting notes.now tree.now names end }
    ensures { CountBy tree.now names end result }
{
    let at = end - 1;
    let b = tree[at];
    if 64 <= b {
        return 1;
    }
    if at == 0 {
        return 0;
    }
    let m = notes[at - 1] as usize;
    if b == 57 {
        return m;
    }
    let left = notes[255 + at] as usize;
    if left == 0 {
        return 0;
    }
    let n = notes[left - 1] as usize;
    if b == 56 {
        return n;
    }
    if b < 50 {
        return 0;
    }
    if 57 < b {
        return 0;
    }
    join_counts(b, n, m)
}

fn blank() -> [u8; 768]
    ensures { length result ≡ 768 }
{
    [0u8; 768]
}

// The notes on the parts of the vector expression that ends at `end`.
pub fn note(tree: &[u8], pins: &[u8; 8192], end: usize, names: usize) -> [u8; 768]
    requires { PinnedTree pins.now tree.now names end }
    ensures { Noted pins.now result tree.now names end }
{
    let mut notes = blank();
    for at in 0..end {
        let e = at + 1;
        let n = count_by(tree, &notes, e, names);
        let from = start_by(tree, &notes, e, names);
        let k = pin_count(pins, e);
        notes[at] = n as u8;
        notes[255 + e] = from as u8;
        notes[511 + e] = k as u8;
    }
    notes
}

// Where the part that ends at `end` starts.
pub fn start_at(tree: &[u8], notes: &[u8; 768], end: usize, names: usize) -> usize
    requires { NotedStarts notes.now tree.now names end × Ends tree.now names end }
    ensures { Start tree.now names end result }
{
    notes[255 + end] as usize
}

// How many alternatives the vector expression that ends at `end` has; 65 stands for more than 64.
pub fn count_at(tree: &[u8], notes: &[u8; 768], end: usize, names: usize) -> usize
    requires { NotedCounts notes.now tree.now names end × EndsVector tree.now names end }
    ensures { result ≡ min 65 (number_of_alternatives (vector_at tree.now names end)) }
{
    notes[end - 1] as usize
}

// How many pins the part that ends at `end` has.
pub fn pins_at(pins: &[u8; 8192], notes: &[u8; 768], end: usize) -> usize
    requires { NotedPins pins.now notes.now end × (0 < end) }
    ensures { PinNumber pins.now end result }
{
    notes[511 + end] as usize
}
