// Writing: data to standard output, complaints to standard error, and whether there was a complaint.
use std::cell::Cell;
use std::fmt;
use std::fmt::Write;
use std::io::{Error, ErrorKind, Stderr, Stdout};
use text_parts::parts::front;
use text_parts::puts::put;

// EBADF: the descriptor is closed.
pub const CLOSED: i32 = 9;

// 128 and the number of SIGPIPE.
const UNREAD: u8 = 141;

// Where the program writes, whether it complained, whether standard output took not all, whether it or standard error is
// a pipe that nobody reads, and whether standard input was asked for.
#[derive(Drop)]
pub struct Console {
    out: Stdout,
    err: Stderr,
    complained: Cell<bool>,
    lost: Cell<bool>,
    unread: Cell<bool>,
    asked: Cell<bool>,
}

impl Console {
    pub fn new(out: Stdout, err: Stderr) -> Console {
        Console {
            out,
            err,
            complained: Cell::new(false),
            lost: Cell::new(false),
            unread: Cell::new(false),
            asked: Cell::new(false),
        }
    }

    // The program's exit status: 1 where something was complained of, and where nobody reads what is written, that of a
    // program which the signal for it ends.
    pub fn status(&self) -> u8 {
        if self.unread.get() {
            return UNREAD;
        }
        u8::from(self.complained.get())
    }

    // Whether standard output or error is a pipe that nobody reads. The program is at its end then: nothing more is
    // written, and nothing is saved.
    pub fn is_unread(&self) -> bool {
        self.unread.get()
    }

    // Whether this is the first time that standard input is asked for. It is read once, to its end.
    pub fn takes_input(&self) -> bool {
        !self.asked.replace(true)
    }

    pub fn out(&self) -> Stdout {
        self.out
    }

    pub fn err(&self) -> Stderr {
        self.err
    }
}

// Nothing more is written to standard output once it took not all.
pub fn say(console: &Console, text: &[u8]) {
    if console.lost.get() {
        return;
    }
    if let Err(e) = console.out.write_all(text) {
        lost(console, &e);
    }
}

// Standard output took not all. That is complained of once, and not at all where it is closed or nobody reads it.
fn lost(console: &Console, e: &Error) {
    console.lost.set(true);
    if is_of_closed(e) {
        return;
    }
    match e.kind() {
        ErrorKind::BrokenPipe => console.unread.set(true),
        _ => failed(console, b"standard output", e),
    }
}

// Whether an error says that the descriptor is closed.
pub fn is_of_closed(e: &Error) -> bool {
    e.raw_os_error() == Some(CLOSED)
}

pub fn note(console: &Console, text: &[u8]) {
    if console.is_unread() {
        return;
    }
    if let Err(e) = console.err.write_all(text) {
        untold(console, &e);
    }
}

pub fn note_number(console: &Console, n: usize) {
    if console.is_unread() {
        return;
    }
    if let Err(e) = console.err.print(n) {
        untold(console, &e);
    }
}

// Standard error took not all: there is nobody to tell. A pipe that nobody reads ends the program.
fn untold(console: &Console, e: &Error) {
    if e.kind() == ErrorKind::BrokenPipe {
        console.lost.set(true);
        console.unread.set(true);
    }
}

// The exit status says that there was a complaint.
fn mark(console: &Console) {
    console.complained.set(true);
}

// A complaint begins.
pub fn complain(console: &Console) {
    mark(console);
    note(console, b"dachsmond: ");
}

// A message as far as there is room.
#[derive(Drop)]
struct Message {
    bytes: [u8; 256],
    length: usize,
}

impl fmt::Write for Message {
    fn write_str(&mut self, s: &str) -> fmt::Result {
        self.length = put(&mut self.bytes, self.length, s.as_bytes());
        Ok(())
    }
}

// The system's words, without the number that stands in brackets behind them.
fn words_of(message: &[u8]) -> &[u8] {
    match message.iter().position(|b| *b == b'(') {
        Some(end) if 0 < end => &message[..end - 1],
        _ => message,
    }
}

fn note_error(console: &Console, e: &Error) {
    let mut message = Message {
        bytes: [0u8; 256],
        length: 0,
    };
    let _ = write!(message, "{e}");
    note(console, words_of(front(&message.bytes, message.length)));
}

// A call of the system that failed, in the system's words.
pub fn failed(console: &Console, what: &[u8], e: &Error) {
    complain(console);
    note(console, what);
    note(console, b": ");
    note_error(console, e);
    note(console, b"\n");
}

// A file whose name is no text, which the system's calls do not take here.
pub fn unnamed(console: &Console, path: &[u8]) {
    complain(console);
    note(console, path);
    note(console, b": the name of a file has to be UTF-8\n");
}

// A list is shorter than a contract says: that cannot be, and would be told.
pub fn short(console: &Console) {
    complain(console);
    note(console, b"a list is too short\n");
}

// The first n bytes.
pub fn say_front(console: &Console, text: &[u8], n: usize) {
    match text.get(..n) {
        Some(first) => say(console, first),
        None => short(console),
    }
}
