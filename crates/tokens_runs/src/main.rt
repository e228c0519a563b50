// Reads texts from standard input, one a line, and writes each with its tokens, as code@place, or with its refusal.
#![tactic(auto)]

ghost use Rattle.std.specs.Prelude.{◌≤◌};

use loading::files::read_all;
use run_printing::printing::{character, number, refusal, small, write};
use run_printing::texts::length;
use std::io;
use std::io::Stdout;
use text_parts::lines::Lines;
use text_parts::parts::front;

fn wide16(n: u16) -> usize {
    n as usize
}

// The first `count` tokens.
fn list(to: Stdout, codes: &[u8; 4096], places: &[u16; 4096], count: usize)
    requires { count ≤ 4096 }
{
    for i in 0..count {
        character(to, b' ');
        number(to, small(codes[i]));
        character(to, b'@');
        number(to, wide16(places[i]));
    }
}

// A text with its tokens or its refusal; of a long one how long it is, of many tokens how many.
fn show(to: Stdout, text: &[u8]) {
    if text.len() <= 40 {
        write(to, text);
    } else {
        length(to, text);
    }
    write(to, b"\n ");
    match tokens::read_tokens(text) {
        Err(refused) => refusal(to, refused),
        Ok(t) => {
            let count = t.count;
            if count <= 10 {
                let codes = t.codes;
                let places = t.places;
                list(to, &codes, &places, count);
            } else {
                write(to, b" tokens ");
                number(to, count);
            }
        }
    }
    character(to, b'\n');
}

// Each line of the input.
fn show_lines(to: Stdout, input: &[u8]) {
    for line in Lines(input) {
        show(to, line);
    }
}

fn main(rt: HostRuntime) -> io::Result<()> {
    let mut input = [0u8; 65536];
    let n = read_all(&mut rt.reader(), &mut input)?;
    show_lines(rt.stdout(), front(&input, n));
    Ok(())
}
