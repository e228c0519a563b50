// The sums of a table's columns, over all its patterns. Nothing wraps.
ghost use Rattle.std.specs.Prelude.{◌≡◌, ◌+◌, ◌-◌, ltb};
ghost use Rattle.jobs.specs.Sums.{no_sums, fit, grown, added_to, word};

use basics::Refusal;
use matcher::tables::Total;
use table_lines::lines::Sums;

// How many events a trace of n rows has.
fn events_of(n: usize) -> u64
    ensures { result ≡ n - 1 }
{
    if n == 0 {
        return 0;
    }
    (n - 1) as u64
}

// No pattern yet, on a trace of n rows.
pub fn no_sums(n: usize) -> Sums
    ensures { result ≡ no_sums n }
{
    Sums {
        yes: 0,
        unknown: 0,
        no: 0,
        patterns: 0,
        events: events_of(n),
    }
}

// Whether there is room for `more` behind `sum`.
fn has_room(sum: u64, more: u32) -> bool
    ensures { result ≡ ltb (sum + more) word }
{
    sum <= 18446744073709551615 - (more as u64)
}

// Whether all four sums have room.
fn have_room(s: Sums, t: Total) -> bool
    ensures { result ≡ fit (grown s t) }
{
    if !has_room(s.yes, t.yes) {
        return false;
    }
    if !has_room(s.unknown, t.unknown) {
        return false;
    }
    if !has_room(s.no, t.no) {
        return false;
    }
    has_room(s.patterns, 1)
}

// With a pattern that is counted.
fn add_total(s: Sums, t: Total) -> Option<Sums>
    ensures { result ≡ added_to s (Ok t) }
{
    if !have_room(s, t) {
        return None;
    }
    Some(Sums {
        yes: s.yes + (t.yes as u64),
        unknown: s.unknown + (t.unknown as u64),
        no: s.no + (t.no as u64),
        patterns: s.patterns + 1,
        events: s.events,
    })
}

// The sums with one pattern more: a refused one adds nothing.
pub fn add(s: Sums, c: Result<Total, Refusal>) -> Option<Sums>
    ensures { result ≡ added_to s c }
{
    match c {
        Ok(t) => add_total(s, t),
        Err(r) => Some(s),
    }
}
