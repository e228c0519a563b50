// The parts of a record: a byte, four bytes, a time, a mark, codes.
ghost use Rattle.std.specs.Prelude.{◌≡◌, ◌+◌, ◌<◌, ◌≤◌, length, get_or};
ghost use Rattle.trace_format.specs.Records.{mark_at_lem, time_bytes, number_at};
ghost use Rattle.trace_format.specs.Parts.{ByteIs, WordIs, TimeThere, RowMarked, WidthIs, FewestIs};
ghost use Rattle.trace_format.specs.Parts.{CodesTo};
ghost use Rattle.trace_format.specs.Format.{row_letter};

use crate::Mark;
use states::codes::first_bad_code;

// The byte at a place.
pub fn byte_at(file: &[u8], at: usize) -> usize
    requires { at < length file.now }
    ensures { ByteIs (get_or file.now at 0) result }
{
    file[at] as usize
}

// The number of four bytes, low first.
pub fn word_at(file: &[u8], at: usize) -> u64
    requires { at + 4 ≤ length file.now }
    ensures { WordIs (number_at 4 file.now at) result }
{
    let a = byte_at(file, at);
    let b = byte_at(file, at + 1);
    let c = byte_at(file, at + 2);
    let d = byte_at(file, at + 3);
    (a + 256 * b + 65536 * c + 16777216 * d) as u64
}

// The number of four bytes, or of eight, low first.
pub fn time_at(file: &[u8], at: usize, w: usize) -> u64
    requires { TimeThere w file.now at }
    ensures { result ≡ number_at w file.now at }
{
    let low = word_at(file, at);
    if w == 4 {
        return low;
    }
    low + 4294967296 * word_at(file, at + 4)
}

// The mark at a place.
#[tactic(auto, unfolding(crate::specs::Records::mark_of))]
pub fn mark_at(file: &[u8], at: usize) -> Mark
    requires { at + 2 ≤ length file.now }
    ensures { result ≡ mark_at_lem file.now at }
{
    match (file[at], file[at + 1]) {
        (b'N', b'M') => Mark::Name,
        (b'R', b'W') => Mark::Row(4),
        (b'R', b'L') => Mark::Row(8),
        (b'E', b'N') => Mark::End,
        _ => Mark::Other,
    }
}

// How many bytes the time of a row has, from its mark.
pub fn width_at(file: &[u8], at: usize) -> usize
    requires { RowMarked file.now at }
    ensures { WidthIs (time_bytes (mark_at_lem file.now at)) result }
{
    if file[at + 1] == b'L' {
        return 8;
    }
    4
}

// How many bytes a time is written with: four where it fits, else eight.
#[tactic(auto, unfolding(crate::specs::Format::fewest))]
pub fn width_of(time: u64) -> usize
    ensures { FewestIs time result }
{
    if time < 4294967296 { 4 } else { 8 }
}

// The second letter of a row's mark.
#[tactic(auto, unfolding(crate::specs::Format::row_letter))]
pub fn letter_of(w: usize) -> u8
    ensures { result ≡ row_letter w }
{
    if w == 8 { b'L' } else { b'W' }
}

// The place of the first code above 7 from one place to another, or the latter.
pub fn codes_to(codes: &[u8], from: usize, to: usize) -> usize
    requires { (from ≤ to) × (to ≤ length codes.now) }
    ensures { CodesTo codes.now from to result }
{
    from + first_bad_code(&codes[from..to])
}
