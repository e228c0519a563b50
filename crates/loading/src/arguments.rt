// The program's arguments: how many there are, one that is whole, one of any length by its front, one that names a file.
ghost use Rattle.std.specs.Prelude.{◌≡◌, ◌≤◌, IfSome, length, take};

use console::output::{Console, failed};
use std::env::FillError;
use std::io::Error;
use std::rt::Env;

// ENAMETOOLONG and EINVAL.
const TOO_LONG: i32 = 36;

const MISSING: i32 = 22;

// How many arguments there are, the program's name among them.
pub fn arg_count<R: Env>(rt: &R) -> usize {
    let mut word = [0u8; 1];
    for i in 0..usize::MAX {
        if let Err(FillError::NotPresent) = rt.arg(i, &mut word) {
            return i;
        }
    }
    usize::MAX
}

// Argument i; no bytes where it is missing or longer than there is room.
pub fn arg<R: Env>(rt: &R, i: usize, buf: &mut [u8]) -> usize
    ensures { (result ≤ length buf.new) × (result ≡ length (take result buf.new)) }
{
    rt.arg(i, buf).unwrap_or(0)
}

// All of a text that is full: a function of its own, since no proof should go through an array of 65,536 bytes.
fn full(text: &[u8]) -> usize
    ensures { (result ≤ length text.now) × (result ≡ length (take result text.now)) }
{
    text.len()
}

// Argument i; of one over 65,536 bytes the front, which is refused as the whole would be.
pub fn take_argument<R: Env>(rt: &R, i: usize, text: &mut [u8; 65536]) -> usize
    ensures { (result ≤ length text.new) × (result ≡ length (take result text.new)) }
{
    match rt.arg(i, text) {
        Ok(n) => n,
        Err(FillError::TooLong) => full(text),
        Err(FillError::NotPresent) => 0,
    }
}

// Why an argument is not there whole.
fn error_of(e: FillError) -> Error {
    match e {
        FillError::TooLong => Error::from_raw_os_error(TOO_LONG),
        FillError::NotPresent => Error::from_raw_os_error(MISSING),
    }
}

// The name of a file that argument i is; what is not there whole is complained of.
pub fn path_argument<R: Env>(
    rt: &R,
    console: &Console,
    i: usize,
    what: &[u8],
    path: &mut [u8; 4096],
) -> Option<usize>
    ensures { IfSome result (λ n. (n ≤ length path.new) × (n ≡ length (take n path.new))) }
{
    match rt.arg(i, path) {
        Ok(n) => Some(n),
        Err(e) => {
            failed(console, what, &error_of(e));
            None
        }
    }
}
