// Saving: a file is written beside its name, and given the name when all of it is there.
use crate::output::{Console, failed, say, short, unnamed};
use std::fs::{OpenFile, OpenOptions};
use std::io::Write;
use std::rt::Files;
use std::{fs, io, str};
use text_parts::parts::front;
use text_parts::puts::put;

// A new file.
fn create<R: Files>(rt: &R, part: &str) -> io::Result<R::File> {
    let mut how = OpenOptions::new();
    how.write(true).create_new(true);
    how.open(rt, part)
}

// All of the data, and then the name.
fn fill<R: Files>(
    rt: &R,
    path: &str,
    part: &str,
    mut file: R::File,
    data: &[u8],
) -> io::Result<()> {
    file.write_all(data)?;
    file.sync_all()?;
    drop(file);
    fs::rename(rt, part, path)
}

fn save_as<R: Files>(rt: &R, console: &Console, path: &str, part: &str, data: &[u8]) {
    match create(rt, part) {
        Ok(file) => {
            if let Err(e) = fill(rt, path, part, file, data) {
                failed(console, path.as_bytes(), &e);
                let _ = fs::remove_file(rt, part);
            }
        }
        Err(e) => failed(console, part.as_bytes(), &e),
    }
}

// The names are texts.
fn save_in<R: Files>(rt: &R, console: &Console, path: &[u8], part: &[u8], data: &[u8]) {
    match (str::from_utf8(path), str::from_utf8(part)) {
        (Ok(path), Ok(part)) => save_as(rt, console, path, part, data),
        _ => unnamed(console, path),
    }
}

// The name beside it: `.part` behind the name.
fn save_beside<R: Files>(rt: &R, console: &Console, path: &[u8], data: &[u8]) {
    let mut name = [0u8; 4096];
    let p = put(&mut name, 0, path);
    let n = put(&mut name, p, b".part");
    save_in(rt, console, path, front(&name, n), data);
}

// `-` is standard output.
fn save<R: Files>(rt: &R, console: &Console, path: &[u8], data: &[u8]) {
    if path == b"-".as_slice() {
        say(console, data);
        return;
    }
    save_beside(rt, console, path, data);
}

// The first n bytes.
pub fn save_front<R: Files>(rt: &R, console: &Console, path: &[u8], data: &[u8], n: usize) {
    if console.is_unread() {
        return;
    }
    match data.get(..n) {
        Some(first) => save(rt, console, path, first),
        None => short(console),
    }
}
