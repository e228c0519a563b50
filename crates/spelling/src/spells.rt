// A sign's spelling, and some signs' with one blank between them.
ghost use Rattle.std.specs.Prelude.{◌≡◌, ◌≤◌};
ghost use Rattle.alf.specs.Names.{name_at};
ghost use Rattle.token_steps.specs.Inner.{word_of};
ghost use Rattle.spelling.specs.Spelled.{sign_spelled};
ghost use Rattle.spelling.specs.Signs.{word, mark_at_lem, gap};
ghost use Rattle.spelling.specs.Inner.{Naming};
ghost use Rattle.basics.specs.Memory.{Put, Room, Roomy};
ghost use Rattle.spelling.specs.Inner.{Wording, Marking, Lining, Lined};

use crate::halves::{put_literal, put_pair};
use basics::puts::{push, put};
use names::name_len;

// Up to three bytes, then zeros: & | ^ ~^ == != > < >= <= -> <-> &> <&> ? : ( ) ?! ?- !
const MARKS: [u8; 63] = [
    38, 0, 0, 124, 0, 0, 94, 0, 0, 126, 94, 0, 61, 61, 0, 33, 61, 0, 62, 0, 0, 60, 0, 0, 62, 61, 0,
    60, 61, 0, 45, 62, 0, 60, 45, 62, 38, 62, 0, 60, 38, 62, 63, 0, 0, 58, 0, 0, 40, 0, 0, 41, 0,
    0, 63, 33, 0, 63, 45, 0, 33, 0, 0,
];

// Name i of the list.
fn put_name(names: &[u8], i: usize, out: &mut [u8], at: usize) -> usize
    requires { Naming names.now i out.old at }
    ensures { Put out.old at (name_at names.now i) out.new result }
{
    let from = i * 32;
    let to = from + 32;
    let end = from + name_len(&names[from..to]);
    put(&names[from..end], out, at)
}

// Up to three bytes, with zeros behind them.
fn put_three(x: u8, y: u8, z: u8, out: &mut [u8], at: usize) -> usize
    requires { Roomy out.old at (word_of x y z) }
    ensures { Put out.old at (word_of x y z) out.new result }
{
    let p = push(out, at, x);
    if y == 0 {
        return p;
    }
    let q = push(out, p, y);
    if z == 0 {
        return q;
    }
    push(out, q, z)
}

// Where a code's bytes stand in the table.
fn mark_of(c: u8) -> usize
    requires { 40 ≤ c }
    ensures { result ≡ mark_at_lem c }
{
    let k = c as usize;
    if k < 60 {
        return k - 40;
    }
    if k < 64 {
        return k - 46;
    }
    if k < 127 {
        return 0;
    }
    k - 127
}

// An operator, a mark, or a prefix that is no edge of two halves.
fn put_mark(c: u8, out: &mut [u8], at: usize) -> usize
    requires { Marking c out.old at }
    ensures { Put out.old at (sign_spelled c) out.new result }
{
    let k = mark_of(c) * 3;
    let t = MARKS;
    let x = t[k];
    let y = t[k + 1];
    let z = t[k + 2];
    put_three(x, y, z, out, at)
}

// Any sign.
fn put_word(names: &[u8], s: u8, out: &mut [u8], at: usize) -> usize
    requires { Wording names.now s out.old at }
    ensures { Put out.old at (word names.now s) out.new result }
{
    if s < 32 {
        return put_name(names, s as usize, out, at);
    }
    if s < 40 {
        return put_literal(s - 31, out, at);
    }
    if s < 64 {
        return put_mark(s, out, at);
    }
    if s < 145 {
        let k = s - 64;
        return put_pair(k / 9, k % 9, out, at);
    }
    put_mark(s, out, at)
}

// The blank before all words but the first.
fn put_gap(i: usize, out: &mut [u8], at: usize) -> usize
    requires { Room out.old at (gap i) }
    ensures { Put out.old at (gap i) out.new result }
{
    if i == 0 {
        return at;
    }
    push(out, at, 32)
}

// The text of the first `count` signs; its length.
pub fn put_line(names: &[u8], list: &[u8], count: usize, out: &mut [u8]) -> usize
    requires { Lining names.now list.now count out.old }
    ensures { Lined names.now list.now count out.old
        out.new result }
{
    let mut at: usize = 0;
    for i in 0..count {
        let p = put_gap(i, out, at);
        at = put_word(names, list[i], out, p);
    }
    at
}
