// The words of the program: the names of its commands, how many words a command expects, the options and the rules that
// they switch on, the help.
use alf::Rules;
use complaints::unfit;
use console::output::{Console, say};
use text_commands::Question;

// What is done with a trace, or with the text of one.
#[derive(Clone, Copy, PartialEq, Eq)]
pub enum Task {
    Table,
    Ask(Question),
    Blank,
    Show,
    Correct,
    Make,
}

#[derive(Clone, Copy, PartialEq, Eq)]
pub enum Command {
    On(Task),
    Version,
    Help,
}

impl Command {
    pub fn named(word: &[u8]) -> Option<Command> {
        match word {
            b"table" => Some(Command::On(Task::Table)),
            b"list" => Some(Command::On(Task::Ask(Question::List))),
            b"values" => Some(Command::On(Task::Ask(Question::Values))),
            b"rewrite" => Some(Command::On(Task::Ask(Question::Rewrite))),
            b"blank" => Some(Command::On(Task::Blank)),
            b"show" => Some(Command::On(Task::Show)),
            b"correct" => Some(Command::On(Task::Correct)),
            b"make" => Some(Command::On(Task::Make)),
            b"--version" => Some(Command::Version),
            b"--help" | b"-h" | b"help" => Some(Command::Help),
            _ => None,
        }
    }
}

impl Task {
    // Whether it expects so many words.
    fn takes(self, words: usize) -> bool {
        match self {
            Task::Table => 2 <= words,
            Task::Ask(_) | Task::Make => words == 2,
            Task::Blank => 3 <= words,
            Task::Show => words == 1,
            Task::Correct => words == 4,
        }
    }

    // The words that it expects.
    fn words(self) -> &'static [u8] {
        match self {
            Task::Table => b"TRACE PATTERN.. or TRACE -f FILE",
            Task::Ask(Question::Values) => b"TRACE EXPRESSION",
            Task::Ask(_) => b"TRACE PATTERN",
            Task::Blank => b"TRACE OUT and PATTERN.., -f FILE or --keep PIN..",
            Task::Show => b"TRACE",
            Task::Correct => b"TRACE ROW STATES OUT",
            Task::Make => b"TEXT OUT",
        }
    }

    // Whether so many words stand behind it as it expects; where not, it is complained of by its name.
    pub fn is_fit(self, console: &Console, name: &[u8], words: usize) -> bool {
        let fit = self.takes(words);
        if !fit {
            unfit(console, name, self.words());
        }
        fit
    }

    // Whether it evaluates expressions, or is `blank`: then it may stand behind `--equal-branches`.
    pub fn evaluates(self) -> bool {
        match self {
            Task::Table | Task::Blank => true,
            Task::Ask(question) => question != Question::Rewrite,
            Task::Show | Task::Correct | Task::Make => false,
        }
    }

    // Whether it reads expressions: then it may stand behind `--steady-pins`.
    pub fn reads(self) -> bool {
        matches!(self, Task::Table | Task::Blank | Task::Ask(_))
    }
}

pub fn help(console: &Console) {
    say(
        console,
        b"dachsmond counts how often patterns of pin events occur in a simulation trace.

  dachsmond                                the table of a small built-in trace, as a first look
  dachsmond table TRACE PATTERN..          times seen, share of all events, unknown, no
  dachsmond table TRACE -f FILE            the same for the patterns of a file, one a line
  dachsmond list TRACE PATTERN             a pattern's answer at each row
  dachsmond list --began TRACE PATTERN     the same, with the time where each match began
  dachsmond values TRACE EXPRESSION        a boolean expression's value at each row
  dachsmond rewrite TRACE PATTERN          a pattern's alternatives, contradictory ones marked
  dachsmond show TRACE                     the trace as a table, with the pins that changed
  dachsmond correct TRACE ROW STATES OUT   the trace with one row replaced, written to OUT
  dachsmond make TEXT OUT                  a trace from a text such as show prints, written to OUT
  dachsmond blank TRACE OUT -f FILE        the trace with all pins X that no pattern names, written to OUT
  dachsmond blank .. --keep PIN..          the same, with more pins kept
  dachsmond --help, dachsmond --version

`--equal-branches` before table, list or values: `c ? a : b` with c unknown has the value of its branches where both
have the same. A table made so ends in the line `rules`, tab, `equal-branches`. Without it such a ternary is X.
`--steady-pins` before table, list, values or rewrite: where all steps of a run of `->` change something, the pins that
the run names stay as they are at the steps without an edge on them. A table made so ends in the line `rules`, tab,
`steady-pins`. Both options may be given; then `equal-branches`, a tab and `steady-pins` stand in that line.

rewrite writes `->` between steps, `&` between the tests of a step, and `( )` for an empty step.
blank takes patterns as words too, may have both options before it, and tells which pins were kept. A table of the
patterns is the same on both traces.
make reads a line with `time` and the names, then a line with time and states for each row. `#` starts a comment line.
`-` for a file is standard input or output. Data goes to standard output, complaints go to standard error.
Exit status: 0 where all was done, 1 where something was complained of.
",
    );
}

// The rules with the option that a word is, if it is one.
pub fn ruled(rules: Rules, word: &[u8]) -> Option<Rules> {
    match word {
        b"--equal-branches" => Some(Rules {
            equal_branches: true,
            ..rules
        }),
        b"--steady-pins" => Some(Rules {
            steady_pins: true,
            ..rules
        }),
        _ => None,
    }
}
