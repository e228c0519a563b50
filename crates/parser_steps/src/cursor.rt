// Single steps of a parser: the next token's rank, past a token, one node more, stopped.
ghost use Rattle.std.specs.Prelude.{◌≡◌, ◌<◌};
ghost use Rattle.grammar.specs.Tokens.{kind};
ghost use Rattle.grammar.specs.Stops.{rank};
ghost use Rattle.parser_steps.specs.Inner.{Ranked, Stepped, Room, Emitted, Halted, Eats, Ate};

use crate::State;

// Ranks: the levels 2 to 6 of the operators behind an operand, and a number for everything else.
pub const QUESTION: u8 = 6;

pub const OPERAND: u8 = 32;

pub const PREFIX: u8 = 33;

pub const COLON: u8 = 61;

pub const OPENING: u8 = 62;

pub const CLOSING: u8 = 63;

pub const NOTHING: u8 = 99;

// The rank of a code.
fn rank_of(code: u8) -> u8
    ensures { result ≡ rank (kind code) }
{
    match code {
        0 | 32..=39 => OPERAND,
        64..=147 => PREFIX,
        42..=49 => 2,
        40 => 3,
        50..=53 => 4,
        41 => 5,
        60 => QUESTION,
        61..=63 => code,
        _ => NOTHING,
    }
}

// The next token's rank.
pub fn rank_at(codes: &[u8], s: State) -> u8
    ensures { Ranked codes.now s result }
{
    let at = s.at;
    if s.ok {
        if at < codes.len() {
            return rank_of(codes[at]);
        }
    }
    NOTHING
}

// Past one token.
pub fn step(s: State) -> State
    requires { s.at < 18446744073709551615 }
    ensures { Stepped s result }
{
    let mut o = s;
    o.at = o.at + 1;
    o
}

// One node more: the token of that number.
pub fn emit(s: State, number: usize, nodes: &mut [usize; 256]) -> State
    requires { Room s nodes.old }
    ensures { Emitted number s nodes.old result nodes.new }
{
    let mut o = s;
    let len = o.len;
    nodes[len] = number;
    o.len = len + 1;
    o
}

// Stopped here.
pub fn stop(s: State) -> State
    ensures { Halted s result }
{
    let mut o = s;
    o.ok = false;
    o
}

// Past a token of that rank, or stopped.
pub fn eat(codes: &[u8], s: State, rank: u8) -> State
    requires { Eats codes.now s rank }
    ensures { Ate codes.now rank s result }
{
    if rank_at(codes, s) == rank {
        return step(s);
    }
    stop(s)
}
