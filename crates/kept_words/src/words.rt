// The words of the command: patterns, behind `-f` a file of patterns, and behind `--keep` the names of pins.
use crate::keeping::{keep_file, keep_pattern, keep_pin};
use alf::Rules;
use complaints::unfit;
use console::output::Console;
use loading::arguments::{arg_count, take_argument};
use std::rt::{Env, Files};

// What a word is: a pattern; a file; the first pin behind `--keep`; a further pin. The first word behind an option is
// no option.
#[derive(Clone, Copy)]
enum Kind {
    Pattern,
    File,
    FirstPin,
    Pin,
}

impl Kind {
    // What stands behind the option that a word is, if it is one.
    fn behind_option(self, word: &[u8]) -> Option<Kind> {
        match (self, word) {
            (Kind::File | Kind::FirstPin, _) => None,
            (_, b"-f") => Some(Kind::File),
            (_, b"--keep") => Some(Kind::FirstPin),
            _ => None,
        }
    }

    // What stands behind a word that is no option.
    fn behind_word(self) -> Kind {
        match self {
            Kind::Pattern | Kind::File => Kind::Pattern,
            Kind::FirstPin | Kind::Pin => Kind::Pin,
        }
    }
}

// What the next word is, and whether nothing was complained of so far.
#[derive(Clone, Copy)]
struct Way {
    next: Kind,
    good: bool,
}

// What is kept of a word that is no option.
fn keep_word<R: Files + Input>(
    rt: &R,
    console: &Console,
    rules: Rules,
    names: &[u8],
    kind: Kind,
    word: &[u8],
    kept: &mut [u8],
) -> bool {
    match kind {
        Kind::Pattern => keep_pattern(console, rules, names, word, kept),
        Kind::File => keep_file(rt, console, rules, names, word, kept),
        Kind::FirstPin | Kind::Pin => keep_pin(console, rules, names, word, kept),
    }
}

fn take_word<R: Files + Input>(
    rt: &R,
    console: &Console,
    rules: Rules,
    names: &[u8],
    w: Way,
    word: &[u8],
    kept: &mut [u8],
) -> Way {
    let Way { next: kind, good } = w;
    if let Some(next) = kind.behind_option(word) {
        return Way { next, good };
    }
    let done = keep_word(rt, console, rules, names, kind, word, kept);
    Way {
        next: kind.behind_word(),
        good: good && done,
    }
}

// Argument i.
fn take<R: Env + Files + Input>(
    rt: &R,
    console: &Console,
    rules: Rules,
    names: &[u8],
    w: Way,
    i: usize,
    kept: &mut [u8],
) -> Way {
    let mut text = [0u8; 65536];
    let m = take_argument(rt, i, &mut text);
    take_word(rt, console, rules, names, w, &text[..m], kept)
}

// An option with nothing behind it is complained of.
fn finish(console: &Console, w: Way) -> bool {
    match w.next {
        Kind::File => unfit(console, b"blank: -f", b"FILE"),
        Kind::FirstPin => unfit(console, b"blank: --keep", b"PIN.."),
        Kind::Pattern | Kind::Pin => return w.good,
    }
    false
}

// All words behind argument `out`, while somebody reads what is said of them; whether nothing was complained of.
pub fn keep_words<R: Env + Files + Input>(
    rt: &R,
    console: &Console,
    rules: Rules,
    out: usize,
    names: &[u8],
    kept: &mut [u8],
) -> bool {
    let count = arg_count(rt);
    let mut way = Way {
        next: Kind::Pattern,
        good: true,
    };
    for i in out.saturating_add(1)..count {
        if console.is_unread() {
            return false;
        }
        way = take(rt, console, rules, names, way, i, kept);
    }
    finish(console, way)
}
