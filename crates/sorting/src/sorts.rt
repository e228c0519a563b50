// Refusal 7: the sorts of a tree's nodes, operands before their operator, on a stack; and the bytes of its expression.
ghost use Rattle.std.specs.Prelude.{◌≡◌, ◌||◌};
ghost use Rattle.sorting.specs.Passes.{Fine, Deep, sort_at, Room, Put, Halted, Ready, Took, takes_one, takes_two};
ghost use Rattle.sorting.specs.Passes.{takes_three, pair_byte, leaf_in, Asked, Stepped};
ghost use Rattle.sorting.specs.Passes.{Named, Handed, Started, Shown};

use crate::lookup::slot_of;

// Where the pass is: whether it goes on, or the place where it stopped; the sorts of `depth` expressions, true for a
// vector; `len` bytes.
#[derive(Clone, Copy)]
pub struct Sorting {
    pub ok: bool,
    pub place: usize,
    pub depth: usize,
    pub len: usize,
    pub sorts: [bool; 256],
    pub tree: [u8; 256],
}

// Stopped at a place.
fn stop(s: Sorting, place: usize) -> Sorting
    requires { Fine s }
    ensures { Halted place s result }
{
    let mut o = s;
    o.ok = false;
    o.place = place;
    o
}

// The sort k places below the last made.
fn sort_at(s: Sorting, k: usize) -> bool
    requires { Deep s k }
    ensures { result ≡ sort_at s k }
{
    let at = s.depth - 1 - k;
    s.sorts[at]
}

// `down` expressions go, and one comes.
fn put(s: Sorting, down: usize, vector: bool, byte: u8) -> Sorting
    requires { Room s down }
    ensures { Put s down vector byte result }
{
    let mut o = s;
    let depth = o.depth - down;
    let len = o.len;
    o.sorts[depth] = vector;
    o.depth = depth + 1;
    o.tree[len] = byte;
    o.len = len + 1;
    o
}

fn either(a: bool, b: bool) -> bool
    ensures { result ≡ (a || b) }
{
    if a { true } else { b }
}

// The byte of an operator of two; 255 where it does not take their sorts.
fn pair_byte(code: u8, left: bool, right: bool) -> u8
    ensures { result ≡ pair_byte code left right }
{
    if left {
        if right {
            if code == 40 {
                return 54;
            }
            if code == 41 {
                return 55;
            }
            if code < 50 {
                return 255;
            }
            return code;
        }
        if code == 40 {
            return 56;
        }
        return 255;
    }
    if right {
        if code == 40 {
            return 57;
        }
        return 255;
    }
    if code < 50 {
        return code;
    }
    255
}

// `!` or an edge, of a boolean.
fn take_one(s: Sorting, code: u8, place: usize) -> Sorting
    requires { Ready s code 64 148 }
    ensures { Took (takes_one (record { code = code; place = place })) s result }
{
    if s.depth < 1 {
        return stop(s, place);
    }
    if sort_at(s, 0) {
        return stop(s, place);
    }
    put(s, 1, code != 147, code)
}

// An operator of two, of sorts that it takes.
fn take_two(s: Sorting, code: u8, place: usize) -> Sorting
    requires { Ready s code 40 60 }
    ensures { Took (takes_two (record { code = code; place = place })) s result }
{
    if s.depth < 2 {
        return stop(s, place);
    }
    let left = sort_at(s, 1);
    let right = sort_at(s, 0);
    let byte = pair_byte(code, left, right);
    if byte == 255 {
        return stop(s, place);
    }
    put(s, 2, either(left, right), byte)
}

// `? :`, of booleans.
fn take_three(s: Sorting, code: u8, place: usize) -> Sorting
    requires { Ready s code 60 64 }
    ensures { Took (takes_three (record { code = code; place = place })) s result }
{
    if s.depth < 3 {
        return stop(s, place);
    }
    if sort_at(s, 2) {
        return stop(s, place);
    }
    if sort_at(s, 1) {
        return stop(s, place);
    }
    if sort_at(s, 0) {
        return stop(s, place);
    }
    put(s, 3, false, 60)
}

// One node; `byte` is that of a name or literal.
fn step(s: Sorting, code: u8, place: usize, byte: u8) -> Sorting
    requires { Asked s code }
    ensures { Stepped (record { code = code; place = place }) byte s result }
{
    if !s.ok {
        return s;
    }
    if code < 40 {
        return put(s, 0, false, byte);
    }
    if code < 60 {
        return take_two(s, code, place);
    }
    if code < 64 {
        return take_three(s, code, place);
    }
    take_one(s, code, place)
}

// The byte of a name or literal: a name's is its slot's number.
fn leaf_byte(names: &[u8], text: &[u8], code: u8, place: usize) -> u8
    requires { Named names.now text.now place }
    ensures { result ≡ leaf_in names.now text.now
        (record { code = code; place = place }) }
{
    if code == 0 {
        return slot_of(names, text, place) as u8;
    }
    code
}

// Before the first node.
fn start() -> Sorting
    ensures { Started result }
{
    let sorts = [false; 256];
    let tree = [0u8; 256];
    Sorting {
        ok: true,
        place: 0,
        depth: 0,
        len: 0,
        sorts,
        tree,
    }
}

// The pass over the nodes of a tree.
pub fn sort_nodes(names: &[u8], text: &[u8], codes: &[u8], places: &[u16], len: usize) -> Sorting
    requires { Handed names.now text.now codes.now places.now len }
    ensures { Shown names.now text.now codes.now
        places.now len result }
{
    let mut s = start();
    for i in 0..len {
        let code = codes[i];
        let place = places[i] as usize;
        let byte = leaf_byte(names, text, code, place);
        s = step(s, code, place, byte);
    }
    s
}
