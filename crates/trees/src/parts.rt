// Where the parts of a tree start.
ghost use Rattle.std.specs.Prelude.{◌≡◌};
ghost use Rattle.alf.specs.Decoder.{arity_at};
ghost use Rattle.trees.specs.Parts.{Ends, Start};

// How many operands a byte takes.
#[tactic(auto, unfolding(alf::specs::Decoder::arity_at))]
pub fn arity(b: u8) -> usize
    ensures { result ≡ arity_at b }
{
    match b {
        0..=39 => 0,
        40..=59 => 2,
        60..=63 => 3,
        _ => 1,
    }
}

// Where the expression that ends at `end` starts.
pub fn start_of(tree: &[u8], end: usize, names: usize) -> usize
    requires { Ends tree.now names end }
    ensures { Start tree.now names end result }
{
    let mut at = end;
    let mut need: usize = 1;
    // How far it goes back is the answer: no range to go over.
    while 0 < need {
        at -= 1;
        need = need - 1 + arity(tree[at]);
    }
    at
}
