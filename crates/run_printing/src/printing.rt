// Words, characters, numbers, refusals, and how much is done. What standard output does not take is missed where the
// output is compared, so no write says whether it failed.
use basics::Refusal;
use std::io::Stdout;

pub fn write(to: Stdout, text: &[u8]) {
    let _ = to.write_all(text);
}

pub fn character(to: Stdout, b: u8) {
    let one = [b];
    write(to, &one);
}

pub fn number(to: Stdout, n: usize) {
    let _ = to.print(n);
}

pub fn small(n: u8) -> usize {
    n as usize
}

pub fn wide(n: u32) -> usize {
    n as usize
}

// How many bytes are refused, where there are any.
fn extent(to: Stdout, n: usize) {
    if n != 0 {
        write(to, b" of ");
        number(to, n);
    }
}

// A word, the number and place of a refusal, and how many bytes are refused.
pub fn refused(to: Stdout, word: &[u8], r: Refusal) {
    write(to, word);
    number(to, small(r.number));
    write(to, b" at ");
    number(to, r.place);
    extent(to, r.extent);
}

// A refusal by its number and place.
pub fn refusal(to: Stdout, r: Refusal) {
    refused(to, b" refused ", r);
}

// How much is done.
pub fn outcome(to: Stdout, r: Result<usize, Refusal>) {
    match r {
        Ok(n) => {
            write(to, b" done ");
            number(to, n);
        }
        Err(f) => refusal(to, f),
    }
}

// A line that cannot be read.
pub fn broken(to: Stdout, line: &[u8]) {
    write(to, b"? ");
    write(to, line);
    character(to, b'\n');
}
