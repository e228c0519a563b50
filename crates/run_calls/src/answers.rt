// Answers by document 01's numbers, numbers tried, where a match began, totals.
use alf::{Answer, Stamp};
use basics::Refusal;
use beginnings::times::Dated;
use matcher::tables::{Total, number_of};
use run_printing::printing::{character, number, refusal, wide, write};
use run_printing::states::entry;
use std::io::Stdout;

pub fn told(to: Stdout, r: Result<Answer, Refusal>) {
    match r {
        Ok(a) => entry(to, number_of(a), false),
        Err(f) => refusal(to, f),
    }
}

// The time where a match began, behind an `@`, where one is given.
fn since(to: Stdout, b: Option<Stamp>) {
    match b {
        Some(t) => {
            character(to, b'@');
            number(to, t.0 as usize);
        }
        None => return,
    }
}

// An answer, the number tried, and where the match began.
pub fn matching(to: Stdout, r: Result<Dated, Refusal>) {
    match r {
        Ok(m) => {
            let answer = m.answer;
            let tries = m.tries;
            let began = m.began;
            entry(to, number_of(answer), false);
            character(to, b'/');
            number(to, wide(tries));
            since(to, began);
        }
        Err(f) => refusal(to, f),
    }
}

fn totals(to: Stdout, yes: u32, no: u32, unknown: u32) {
    write(to, b" yes ");
    number(to, wide(yes));
    write(to, b" no ");
    number(to, wide(no));
    write(to, b" unknown ");
    number(to, wide(unknown));
}

pub fn counting(to: Stdout, r: Result<Total, Refusal>) {
    match r {
        Ok(t) => totals(to, t.yes, t.no, t.unknown),
        Err(f) => refusal(to, f),
    }
}
