// One function for each level of the operators: it reads an expression of that level, or stops where none goes on.
ghost use Rattle.parser_steps.specs.Inner.{Lent};
ghost use Rattle.parser_levels.specs.Inner.{Ran};

use parser_steps::State;
use parser_steps::cursor::{
    CLOSING, COLON, OPENING, OPERAND, PREFIX, QUESTION, eat, emit, rank_at, step, stop,
};

// Level 1: a name or literal, a prefix operator, a whole expression in brackets.
#[cycle(level1_level2_level3_level4_level5_level6)]
fn level1(codes: &[u8], s: State, nodes: &mut [usize; 256]) -> State
    requires { Lent codes.now s nodes.old }
    ensures { Ran 1 codes.now s nodes.old result nodes.new }
{
    let k = rank_at(codes, s);
    if k == OPERAND {
        return emit(step(s), s.at, nodes);
    }
    if k == PREFIX {
        let a = level1(codes, step(s), nodes);
        return emit(a, s.at, nodes);
    }
    if k == OPENING {
        let a = level6(codes, step(s), nodes);
        return eat(codes, a, CLOSING);
    }
    stop(s)
}

// Levels 2 to 5: how many operands follow is known behind them, so there is no range to go over.

// Level 2, from the left: ^ ~^ == != > < >= <=
#[cycle(level1_level2_level3_level4_level5_level6)]
fn level2(codes: &[u8], s: State, nodes: &mut [usize; 256]) -> State
    requires { Lent codes.now s nodes.old }
    ensures { Ran 2 codes.now s nodes.old result nodes.new }
{
    let mut o = level1(codes, s, nodes);
    while rank_at(codes, o) == 2 {
        let b = level1(codes, step(o), nodes);
        o = emit(b, o.at, nodes);
    }
    o
}

// Level 3, from the left: &
#[cycle(level1_level2_level3_level4_level5_level6)]
fn level3(codes: &[u8], s: State, nodes: &mut [usize; 256]) -> State
    requires { Lent codes.now s nodes.old }
    ensures { Ran 3 codes.now s nodes.old result nodes.new }
{
    let mut o = level2(codes, s, nodes);
    while rank_at(codes, o) == 3 {
        let b = level2(codes, step(o), nodes);
        o = emit(b, o.at, nodes);
    }
    o
}

// Level 4, from the left: -> <-> &> <&>
#[cycle(level1_level2_level3_level4_level5_level6)]
fn level4(codes: &[u8], s: State, nodes: &mut [usize; 256]) -> State
    requires { Lent codes.now s nodes.old }
    ensures { Ran 4 codes.now s nodes.old result nodes.new }
{
    let mut o = level3(codes, s, nodes);
    while rank_at(codes, o) == 4 {
        let b = level3(codes, step(o), nodes);
        o = emit(b, o.at, nodes);
    }
    o
}

// Level 5, from the left: |
#[cycle(level1_level2_level3_level4_level5_level6)]
fn level5(codes: &[u8], s: State, nodes: &mut [usize; 256]) -> State
    requires { Lent codes.now s nodes.old }
    ensures { Ran 5 codes.now s nodes.old result nodes.new }
{
    let mut o = level4(codes, s, nodes);
    while rank_at(codes, o) == 5 {
        let b = level4(codes, step(o), nodes);
        o = emit(b, o.at, nodes);
    }
    o
}

// Level 6, from the right: c ? a : b
#[cycle(level1_level2_level3_level4_level5_level6)]
pub fn level6(codes: &[u8], s: State, nodes: &mut [usize; 256]) -> State
    requires { Lent codes.now s nodes.old }
    ensures { Ran 6 codes.now s nodes.old result nodes.new }
{
    let c = level5(codes, s, nodes);
    if rank_at(codes, c) == QUESTION {
        let a = level6(codes, step(c), nodes);
        let b = level6(codes, eat(codes, a, COLON), nodes);
        return emit(b, c.at, nodes);
    }
    c
}
