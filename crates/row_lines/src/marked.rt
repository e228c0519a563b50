// The names of a set: those whose bits are set in a mask, bit i for name i. Each stands behind a blank.
ghost use Rattle.std.specs.Prelude.{◌≡◌, ◌*◌, ◌<◌};
ghost use Rattle.basics.specs.Memory.{Put};
ghost use Rattle.listing.specs.Inner.{Sized};
ghost use Rattle.trace_writer.specs.Putting.{SlotsLent};
ghost use Rattle.row_lines.specs.Lines.{member, members};
ghost use Rattle.row_lines.specs.Inner.{marked, SlotIn, MemberFits, MembersFit};

use basics::puts::{push, put};
use names::name_len;

// Whether bit i of a mask is set.
fn bit_of(mask: u32, i: usize) -> bool
    requires { i < 32 }
    ensures { result ≡ marked mask i }
{
    (mask >> i) % 2 == 1
}

// How many bytes name i takes: none where its bit is not set.
fn member_size(names: &[u8], mask: u32, i: usize) -> usize
    requires { SlotIn names.now i }
    ensures { Sized (member names.now (marked mask) i) 33 result }
{
    if !bit_of(mask, i) {
        return 0;
    }
    let from = i * 32;
    let to = from + 32;
    1 + name_len(&names[from..to])
}

// Name i, where its bit is set.
fn put_member(names: &[u8], mask: u32, i: usize, out: &mut [u8], at: usize) -> usize
    requires { MemberFits names.now (marked mask) i out.old at }
    ensures { Put out.old at (member names.now (marked mask) i) out.new result }
{
    if !bit_of(mask, i) {
        return at;
    }
    let from = i * 32;
    let to = from + 32;
    let n = name_len(&names[from..to]);
    let end = from + n;
    let p = push(out, at, b' ');
    put(&names[from..end], out, p)
}

// How many bytes the names take whose bits are set, of the first k.
pub fn members_size(names: &[u8], k: usize, mask: u32) -> usize
    requires { SlotsLent names.now k }
    ensures { Sized (members names.now k (marked mask)) (k * 33) result }
{
    let mut size: usize = 0;
    for i in 0..k {
        size += member_size(names, mask, i);
    }
    size
}

// The names whose bits are set, of the first k.
pub fn put_members(names: &[u8], k: usize, mask: u32, out: &mut [u8], at: usize) -> usize
    requires { MembersFit names.now k (marked mask) out.old at }
    ensures { Put out.old at (members names.now k (marked mask)) out.new result }
{
    let mut p = at;
    for i in 0..k {
        p = put_member(names, mask, i, out, p);
    }
    p
}
