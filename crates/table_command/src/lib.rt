// The command `table`: the heading, the lines of the patterns that the command's words and files name, and the totals.
// Without a command the table of a small built-in trace, as a first look.
#![tactic(auto)]

use alf::Rules;
use console::output::{Console, say};
use jobs::sums::no_sums;
use loading::arguments::arg_count;
use pattern_lines::accounts::{say_heading, say_total};
use pattern_lines::patterns::lines;
use states::rules::old_rules;
use std::rt::{Env, Files};
use table_arguments::arguments::arguments;
use table_lines::lines::Sums;

fn begin(console: &Console, n: usize, line: &mut [u8; 4096]) -> Sums {
    say_heading(console, line);
    no_sums(n)
}

fn end(console: &Console, s: Sums, line: &mut [u8; 4096]) {
    say_total(console, line, s);
}

// A last line says which of document 02's rules the table is by. Without that line it is by document 01's rules.
fn say_rules(console: &Console, rules: Rules) {
    if !rules.equal_branches && !rules.steady_pins {
        return;
    }
    say(console, b"rules");
    if rules.equal_branches {
        say(console, b"\tequal-branches");
    }
    if rules.steady_pins {
        say(console, b"\tsteady-pins");
    }
    say(console, b"\n");
}

// The words from argument `first` on are patterns.
pub fn table<R: Env + Files + Input>(
    rt: &R,
    console: &Console,
    rules: Rules,
    first: usize,
    names: &[u8],
    n: usize,
    states: &[u8],
) {
    let mut line = [0u8; 4096];
    let s = begin(console, n, &mut line);
    let count = arg_count(rt);
    let t = arguments(rt, console, rules, first, names, n, states, count, s);
    end(console, t, &mut line);
    say_rules(console, rules);
}

// A first look: the vector expressions of document 01's table T on T, names A B C and rows 011 111 10X X01 1Z1 10H.
pub fn first_look(console: &Console) {
    let mut line = [0u8; 4096];
    let s = begin(console, 6, &mut line);
    let t = lines(
        console,
        old_rules(),
        b"A\0\0\0\0\0\0\0\0\0\0\0\0\0\0\0\0\0\0\0\0\0\0\0\0\0\0\0\0\0\0\0\
          B\0\0\0\0\0\0\0\0\0\0\0\0\0\0\0\0\0\0\0\0\0\0\0\0\0\0\0\0\0\0\0\
          C\0\0\0\0\0\0\0\0\0\0\0\0\0\0\0\0\0\0\0\0\0\0\0\0\0\0\0\0\0\0\0",
        6,
        b"\0\x01\x01\x01\x01\x01\x01\0\x02\x02\0\x01\x01\x06\x01\x01\0\x03",
        b"01 A\n01 A -> 10 B\n( 01 A -> 10 B ) & C\n01 ( A & B )\n'bX'b1 A\n?! B\n01 A <&> 10 B\n\
          10 C & ( 01 A -> 10 B )\n",
        s,
    );
    end(console, t, &mut line);
}
