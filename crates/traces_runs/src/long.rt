// A file of one name and as many rows as there can be, or one more, made and read.
ghost use Rattle.std.specs.Prelude.{◌<◌};

use crate::show_reading;
use std::io::Stdout;
use text_parts::parts::front;
use text_parts::puts::put;
use trace_reader::read::read_trace;

// A mark and a number of four bytes.
fn put_record(out: &mut [u8], at: usize, a: u8, b: u8, x: u32)
    requires { at < 1048576 }
{
    put(out, at, &[a, b]);
    put(out, at + 2, &x.to_le_bytes());
}

// Rows 0 to n-1 of one name, at times 0 to n-1, all in state 0.
fn put_rows(out: &mut [u8], n: u32)
    requires { n < 65537 }
{
    for r in 0..n {
        let at = 4 + 7 * r as usize;
        put_record(out, at, b'R', b'W', r);
        put(out, at + 6, &[0]);
    }
}

// A whole file of one name and n rows; its length.
fn put_file(out: &mut [u8], n: u32) -> usize
    requires { n < 65537 }
{
    put(out, 0, b"NM\x01A");
    put_rows(out, n);
    let at = 4 + 7 * n as usize;
    put_record(out, at, b'E', b'N', n);
    at + 6
}

fn read_long(to: Stdout, file: &[u8]) {
    let mut names = [0u8; 32];
    let mut times = [0u64; 65536];
    let mut states = [0u8; 65536];
    show_reading(to, read_trace(file, &mut names, &mut times, &mut states));
}

fn read_file(to: Stdout, file: &[u8; 458776], n: usize) {
    read_long(to, front(file, n));
}

fn fill_file(file: &mut [u8; 458776], n: u32) -> usize
    requires { n < 65537 }
{
    put_file(file, n)
}

// A file of one name and so many rows.
pub fn read_rows(to: Stdout, n: u32)
    requires { n < 65537 }
{
    let mut file = [0u8; 458776];
    let size = fill_file(&mut file, n);
    read_file(to, &file, size);
}
