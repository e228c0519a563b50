// A file by its name, `-` for standard input.
ghost use Rattle.std.specs.Prelude.{◌≤◌, IfOk, length};

use console::output::{CLOSED, Console, complain, failed, is_of_closed, note, unnamed};
use std::fs::File;
use std::io::{Error, Read};
use std::rt::Files;
use std::{io, str};

// One read behind the first `at` bytes: how many there are then.
fn read_on<F: Read>(file: &mut F, buf: &mut [u8], at: usize) -> io::Result<usize>
    requires { at ≤ length buf.old }
    ensures { IfOk result (λ n. (at ≤ n) × (n ≤ length buf.new)) }
{
    let part = &mut buf[at..];
    let got = file.read(part)?;
    Ok(at + got)
}

// What is read, to the end of the input or as much as there is room: how many bytes.
pub fn read_all<F: Read>(file: &mut F, buf: &mut [u8]) -> io::Result<usize> {
    let mut done: usize = 0;
    // How much a read brings is known behind it: no range to go over.
    while done < buf.len() {
        let next = read_on(file, buf, done)?;
        if next <= done {
            return Ok(done);
        }
        done = next;
    }
    Ok(done)
}

// Why a file was not read. Standard input is read once.
fn unread(console: &Console, path: &[u8], e: &Error) {
    if is_of_closed(e) {
        complain(console);
        note(console, path);
        note(
            console,
            b": standard input is closed, or was read already\n",
        );
        return;
    }
    failed(console, path, e);
}

fn bytes_or_complaint(console: &Console, path: &[u8], read: io::Result<usize>) -> Option<usize> {
    read.inspect_err(|e| unread(console, path, e)).ok()
}

fn read_input<R: Input>(rt: &R, console: &Console, buf: &mut [u8]) -> io::Result<usize> {
    if !console.takes_input() {
        return Err(Error::from_raw_os_error(CLOSED));
    }
    let mut input = rt.reader();
    read_all(&mut input, buf)
}

// What cannot be opened is complained of.
fn fill_named<R: Files>(rt: &R, console: &Console, name: &str, buf: &mut [u8]) -> Option<usize> {
    let path = name.as_bytes();
    match File::open(rt, name) {
        Ok(mut file) => bytes_or_complaint(console, path, read_all(&mut file, buf)),
        Err(e) => {
            failed(console, path, &e);
            None
        }
    }
}

// The file of this name, as far as there is room; what cannot be opened or read is complained of.
pub fn fill<R: Files + Input>(
    rt: &R,
    console: &Console,
    path: &[u8],
    buf: &mut [u8],
) -> Option<usize> {
    if path == b"-".as_slice() {
        return bytes_or_complaint(console, path, read_input(rt, console, buf));
    }
    match str::from_utf8(path) {
        Ok(name) => fill_named(rt, console, name, buf),
        Err(_) => {
            unnamed(console, path);
            None
        }
    }
}
