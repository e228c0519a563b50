// The parser: from tokens to the nodes of their tree, operands before their operator, or to the place where no
// expression goes on. `parser_levels` has a function for each level of the operators, `parser_steps` their single
// steps.
// A parser goes by codes alone. What it writes are numbers of tokens; codes and places are looked up at the end.
#![tactic(auto)]

ghost use Rattle.std.specs.Prelude.{◌≡◌, take, get_or};
ghost use Rattle.grammar.specs.Answers.{handed, Handed, place_at, accepted, refused_at, Answer};
ghost use Rattle.parser.specs.Inner.{Given, Finished, Full};
ghost use Rattle.parser_steps.specs.Inner.{picked};

use grammar::Parsed;
use parser_levels::level::level6;
use parser_steps::State;
use parser_steps::cursor::stop;

// A whole text: an expression and nothing behind it, or where it is refused.
fn read_all(codes: &[u8], nodes: &mut [usize; 256]) -> State
    requires { Given codes.now nodes.old }
    ensures { Finished codes.now result nodes.new }
{
    let s = State {
        at: 0,
        len: 0,
        ok: true,
    };
    let r = level6(codes, s, nodes);
    let at = r.at;
    if at < codes.len() {
        return stop(r);
    }
    r
}

// The byte of a token, or the text's length behind the last.
fn place_at(places: &[u16], at: usize, bytes: usize) -> usize
    ensures { result ≡ place_at places.now at bytes }
{
    if at < places.len() {
        return places[at] as usize;
    }
    bytes
}

// A token's code, and its place; 0 behind the last.
fn code_of(codes: &[u8], number: usize) -> u8
    ensures { result ≡ get_or codes.now number 0 }
{
    if number < codes.len() {
        return codes[number];
    }
    0
}

fn place_of(places: &[u16], number: usize) -> u16
    ensures { result ≡ get_or places.now number 0 }
{
    if number < places.len() {
        return places[number];
    }
    0
}

// The first nodes, and zeros behind them.
fn accept(codes: &[u8], places: &[u16], nodes: &[usize; 256], len: usize) -> Parsed
    requires { Full len nodes.now }
    ensures { result ≡ accepted (picked codes.now places.now (take len nodes.now)) }
{
    let mut cs = [0u8; 256];
    let mut ps = [0u16; 256];
    for i in 0..len {
        let number = nodes[i];
        cs[i] = code_of(codes, number);
        ps[i] = place_of(places, number);
    }
    Parsed {
        ok: true,
        place: 0,
        len,
        codes: cs,
        places: ps,
    }
}

// Refused at a place.
fn refuse(place: usize) -> Parsed
    ensures { result ≡ refused_at place }
{
    let codes = [0u8; 256];
    let places = [0u16; 256];
    Parsed {
        ok: false,
        place,
        len: 0,
        codes,
        places,
    }
}

// The nodes of the expression that the first `count` tokens are, in a text of `bytes` bytes, or where it is refused.
pub fn parse(codes: &[u8], places: &[u16], count: usize, bytes: usize) -> Parsed
    requires { Handed codes.now places.now count }
    ensures { Answer (handed codes.now places.now count) bytes result }
{
    let cs = &codes[..count];
    let ps = &places[..count];
    let mut nodes = [0usize; 256];
    let s = read_all(cs, &mut nodes);
    if s.ok {
        return accept(cs, ps, &nodes, s.len);
    }
    refuse(place_at(ps, s.at, bytes))
}
