// The call that gives all values of an expression, as a line of `matching_runs` asks for it, and what it comes to. The
// list that is lent is a copy of a line's. All is proved to be safe and to end.
#![tactic(auto)]

use alf::Rules;
use basics::Refusal;
use row_calls::written::values;
use run_printing::printing::{character, outcome};
use run_printing::states::list;
use run_words::lists::{copy_of, least};
use run_words::words::{list_in, number_in};
use std::io::Stdout;

// All values of a case; or what they come to, and the list afterwards.
fn show_values(to: Stdout, kind: u8, v: Result<usize, Refusal>, out: &[u8; 64], a: usize) {
    if kind == b'b' {
        return list(to, b" values", out, a, true);
    }
    outcome(to, v);
    list(to, b"\n out", out, a, false);
}

// The values of all rows. Word 6 is the list that is lent.
pub fn lend_out(to: Stdout, rules: Rules, kind: u8, line: &[u8], tree: &[u8]) {
    let mut out = copy_of(list_in(line, 6));
    let a = least(list_in(line, 6).len());
    let v = values(
        rules,
        number_in(line, 1),
        number_in(line, 2),
        tree,
        list_in(line, 3),
        &mut out[0..a],
    );
    show_values(to, kind, v, &out, a);
    character(to, b'\n');
}
