// Leaf code on states: reducing, the operators and the relations, each equal to its definition in specs/States.antt.
// A state is its code, below 8.
ghost use Rattle.std.specs.Prelude.{◌≡◌, ◌<◌};
ghost use Rattle.alf.specs.States.{reduce, not_of_lem, and_of, or_of, xor_of, xnor_of};
ghost use Rattle.alf.specs.States.{relations, at_least, at_most};

// of 0 1 X H L W Z U
const REDUCED: [u8; 8] = [0, 1, 2, 1, 0, 2, 2, 2];

const NOT: [u8; 8] = [1, 0, 2, 0, 1, 2, 2, 2];

// of 0 1 X H L W Z U on the left, a line for each, and on the right
const AND: [[u8; 8]; 8] = [
    [0, 0, 0, 0, 0, 0, 0, 0],
    [0, 1, 2, 1, 0, 2, 2, 2],
    [0, 2, 2, 2, 0, 2, 2, 2],
    [0, 1, 2, 1, 0, 2, 2, 2],
    [0, 0, 0, 0, 0, 0, 0, 0],
    [0, 2, 2, 2, 0, 2, 2, 2],
    [0, 2, 2, 2, 0, 2, 2, 2],
    [0, 2, 2, 2, 0, 2, 2, 2],
];

const OR: [[u8; 8]; 8] = [
    [0, 1, 2, 1, 0, 2, 2, 2],
    [1, 1, 1, 1, 1, 1, 1, 1],
    [2, 1, 2, 1, 2, 2, 2, 2],
    [1, 1, 1, 1, 1, 1, 1, 1],
    [0, 1, 2, 1, 0, 2, 2, 2],
    [2, 1, 2, 1, 2, 2, 2, 2],
    [2, 1, 2, 1, 2, 2, 2, 2],
    [2, 1, 2, 1, 2, 2, 2, 2],
];

const XOR: [[u8; 8]; 8] = [
    [0, 1, 2, 1, 0, 2, 2, 2],
    [1, 0, 2, 0, 1, 2, 2, 2],
    [2, 2, 2, 2, 2, 2, 2, 2],
    [1, 0, 2, 0, 1, 2, 2, 2],
    [0, 1, 2, 1, 0, 2, 2, 2],
    [2, 2, 2, 2, 2, 2, 2, 2],
    [2, 2, 2, 2, 2, 2, 2, 2],
    [2, 2, 2, 2, 2, 2, 2, 2],
];

const XNOR: [[u8; 8]; 8] = [
    [1, 0, 2, 0, 1, 2, 2, 2],
    [0, 1, 2, 1, 0, 2, 2, 2],
    [2, 2, 2, 2, 2, 2, 2, 2],
    [0, 1, 2, 1, 0, 2, 2, 2],
    [1, 0, 2, 0, 1, 2, 2, 2],
    [2, 2, 2, 2, 2, 2, 2, 2],
    [2, 2, 2, 2, 2, 2, 2, 2],
    [2, 2, 2, 2, 2, 2, 2, 2],
];

const EQUAL: [[u8; 8]; 8] = [
    [1, 0, 0, 0, 0, 0, 0, 0],
    [0, 1, 0, 0, 0, 0, 0, 0],
    [0, 0, 1, 0, 0, 0, 0, 2],
    [0, 0, 0, 1, 0, 0, 0, 0],
    [0, 0, 0, 0, 1, 0, 0, 0],
    [0, 0, 0, 0, 0, 1, 0, 2],
    [0, 0, 0, 0, 0, 0, 1, 2],
    [2, 2, 2, 2, 2, 2, 2, 2],
];

const UNEQUAL: [[u8; 8]; 8] = [
    [0, 1, 1, 1, 1, 1, 1, 1],
    [1, 0, 1, 1, 1, 1, 1, 1],
    [1, 1, 0, 1, 1, 1, 1, 2],
    [1, 1, 1, 0, 1, 1, 1, 1],
    [1, 1, 1, 1, 0, 1, 1, 1],
    [1, 1, 1, 1, 1, 0, 1, 2],
    [1, 1, 1, 1, 1, 1, 0, 2],
    [2, 2, 2, 2, 2, 2, 2, 2],
];

const ABOVE: [[u8; 8]; 8] = [
    [0, 0, 0, 0, 2, 0, 0, 0],
    [1, 0, 2, 2, 1, 2, 2, 2],
    [2, 2, 2, 2, 2, 2, 2, 2],
    [1, 2, 2, 0, 1, 2, 2, 2],
    [2, 0, 0, 0, 0, 0, 0, 0],
    [2, 2, 2, 2, 2, 2, 2, 2],
    [2, 2, 2, 2, 2, 2, 2, 2],
    [2, 2, 2, 2, 2, 2, 2, 2],
];

const BELOW: [[u8; 8]; 8] = [
    [0, 1, 2, 1, 2, 2, 2, 2],
    [0, 0, 0, 2, 0, 0, 0, 0],
    [2, 2, 2, 2, 2, 2, 2, 2],
    [0, 2, 0, 0, 0, 0, 0, 0],
    [2, 1, 2, 1, 0, 2, 2, 2],
    [2, 2, 2, 2, 2, 2, 2, 2],
    [2, 2, 2, 2, 2, 2, 2, 2],
    [2, 2, 2, 2, 2, 2, 2, 2],
];

// H to 1, L to 0, W Z U to X
pub fn reduced(x: u8) -> u8
    requires { x < 8 }
    ensures { (result ≡ reduce x) × (result < 8) }
{
    REDUCED[x as usize]
}

// `!`
pub fn not_of(x: u8) -> u8
    requires { x < 8 }
    ensures { (result ≡ not_of_lem x) × (result < 8) }
{
    NOT[x as usize]
}

// `&`
pub fn and_of(x: u8, y: u8) -> u8
    requires { (x < 8) × (y < 8) }
    ensures { (result ≡ and_of x y) × (result < 8) }
{
    AND[x as usize][y as usize]
}

// `|`
pub fn or_of(x: u8, y: u8) -> u8
    requires { (x < 8) × (y < 8) }
    ensures { (result ≡ or_of x y) × (result < 8) }
{
    OR[x as usize][y as usize]
}

// `^`
pub fn xor_of(x: u8, y: u8) -> u8
    requires { (x < 8) × (y < 8) }
    ensures { (result ≡ xor_of x y) × (result < 8) }
{
    XOR[x as usize][y as usize]
}

// `~^`
pub fn xnor_of(x: u8, y: u8) -> u8
    requires { (x < 8) × (y < 8) }
    ensures { (result ≡ xnor_of x y) × (result < 8) }
{
    XNOR[x as usize][y as usize]
}

// `==`
pub fn equals(x: u8, y: u8) -> u8
    requires { (x < 8) × (y < 8) }
    ensures { (result ≡ (relations x y).equal) × (result < 8) }
{
    EQUAL[x as usize][y as usize]
}

// `!=`
pub fn differs(x: u8, y: u8) -> u8
    requires { (x < 8) × (y < 8) }
    ensures { (result ≡ (relations x y).unequal) × (result < 8) }
{
    UNEQUAL[x as usize][y as usize]
}

// `>`
pub fn above(x: u8, y: u8) -> u8
    requires { (x < 8) × (y < 8) }
    ensures { (result ≡ (relations x y).greater) × (result < 8) }
{
    ABOVE[x as usize][y as usize]
}

// `<`
pub fn below(x: u8, y: u8) -> u8
    requires { (x < 8) × (y < 8) }
    ensures { (result ≡ (relations x y).less) × (result < 8) }
{
    BELOW[x as usize][y as usize]
}

// `>=`
pub fn at_least(x: u8, y: u8) -> u8
    requires { (x < 8) × (y < 8) }
    ensures { (result ≡ at_least x y) × (result < 8) }
{
    or_of(above(x, y), equals(x, y))
}

// `<=`
pub fn at_most(x: u8, y: u8) -> u8
    requires { (x < 8) × (y < 8) }
    ensures { (result ≡ at_most x y) × (result < 8) }
{
    or_of(below(x, y), equals(x, y))
}
