// Leaf code on answers: a literal asked of a state, an edge on two states, a condition's answer. Each is equal to its
// definition in specs/Windows.antt. A state is its code, below 8; an answer is 0 no, 1 unknown, 2 yes.
ghost use Rattle.std.specs.Prelude.{◌≡◌, ◌<◌};
ghost use Rattle.alf.specs.Expressions.{the};
ghost use Rattle.alf.specs.Windows.{asked, certainty, edge_on};
ghost use Rattle.alf.specs.Decoder.{half_at, edge_at};

// of 0 1 X H L W Z U
const CERTAINTY: [u8; 8] = [0, 2, 1, 2, 0, 1, 1, 1];

// the literals 0 1 X H L W Z U, a line for each, asked of the states 0 1 X H L W Z U
const ASKED: [[u8; 8]; 8] = [
    [2, 0, 1, 0, 2, 1, 1, 1],
    [0, 2, 1, 2, 0, 1, 1, 1],
    [0, 0, 2, 0, 0, 0, 0, 0],
    [0, 0, 0, 2, 0, 0, 0, 0],
    [0, 0, 0, 0, 2, 0, 0, 0],
    [0, 0, 0, 0, 0, 2, 0, 0],
    [0, 0, 0, 0, 0, 0, 2, 0],
    [0, 0, 0, 0, 0, 0, 0, 2],
];

// The answer of a condition's state: 1 yes, X unknown, 0 no.
pub fn certainty_of(x: u8) -> u8
    requires { x < 8 }
    ensures { result ≡ certainty x }
{
    CERTAINTY[x as usize]
}

// A literal asked of a state: a digit is yes, unknown or no by what the state reduces to, a letter is yes for that very
// state.
fn ask_literal(l: u8, s: u8) -> u8
    requires { (l < 8) × (s < 8) }
    ensures { result ≡ asked (the l) s }
{
    ASKED[l as usize][s as usize]
}

// Half h of `? 0 1 X H L W Z U` asked of a state.
pub fn ask(h: u8, s: u8) -> u8
    requires { s < 8 }
    ensures { result ≡ asked (half_at h) s }
{
    if h == 0 {
        return 2;
    }
    let l = h - 1;
    if l < 8 {
        return ask_literal(l, s);
    }
    0
}

// Edge k on the states before and after: 0 to 80 two halves, 81 `?!`, 82 `?-`.
pub fn edge_on(k: u8, x: u8, y: u8) -> u8
    requires { (x < 8) × (y < 8) }
    ensures { result ≡ edge_on (edge_at k) x y }
{
    if k < 81 {
        return ask(k / 9, x).min(ask(k % 9, y));
    }
    if k == 81 {
        if x == y {
            return 0;
        }
        return 2;
    }
    if x == y { 2 } else { 0 }
}
