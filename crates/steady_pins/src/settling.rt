// Rows of the table of pins: a step's own row, and the rows of a run's steps, once more is known of what comes after.
ghost use Rattle.std.specs.Prelude.{◌≡◌, ◌+◌, ◌≤◌, get_or};
ghost use Rattle.std.proofs.lemmas.List.Edits.{sets};
ghost use Rattle.basics.specs.Words.{listed};
ghost use Rattle.steady_pins.specs.Finding.{pin_entry};
ghost use Rattle.steady_pins.specs.Walking.{Settled, Rows, NameRows, Column, Named};

// One entry: none where the step has an edge on the name, else a place before the step.
fn pin_entry(before: u8, mine: u8) -> u8
    ensures { result ≡ pin_entry before mine 0 }
{
    if mine == 0 { before } else { 0 }
}

// The entries of a step, from `base` on.
pub fn put_row(before: [u8; 32], mine: [u8; 32], base: usize, pins: &mut [u8; 8192])
    requires { base + 32 ≤ 8192 }
    ensures { pins.new ≡ sets pins.old base
        (listed 0 32 (λ n. pin_entry (get_or before n 0) (get_or mine n 0) 0)) }
{
    for n in 0..32 {
        pins[base + n] = pin_entry(before[n], mine[n]);
    }
}

// One place for name n in the first `many` rows.
fn put_name(rows: &[u8; 256], many: usize, n: usize, place: u8, pins: &mut [u8; 8192])
    requires { NameRows n rows.now many pins.old }
    ensures { Column rows.now many n place pins.old pins.new }
{
    for k in 0..many {
        let r = rows[k] as usize;
        pins[r * 32 + n] = place;
    }
}

// Name n in these rows: blank if what comes after does not change; else the place that comes after, if the name is new.
fn settle_name(
    changing: bool,
    before: u8,
    after: u8,
    rows: &[u8; 256],
    many: usize,
    n: usize,
    pins: &mut [u8; 8192],
)
    requires { NameRows n rows.now many pins.old }
    ensures { Named changing before after rows.now many n pins.old pins.new }
{
    if !changing {
        put_name(rows, many, n, 0, pins);
        return;
    }
    if before != 0 {
        return;
    }
    if after == 0 {
        return;
    }
    put_name(rows, many, n, after, pins);
}

// All names in these rows. Nothing is left to do where a step of the run does not change.
pub fn settle(
    on: bool,
    changing: bool,
    before: [u8; 32],
    after: [u8; 32],
    rows: &[u8; 256],
    many: usize,
    pins: &mut [u8; 8192],
)
    requires { Rows rows.now many pins.old }
    ensures { Settled on changing before after rows.now many pins.old
        pins.new }
{
    if !on {
        return;
    }
    for n in 0..32 {
        settle_name(changing, before[n], after[n], rows, many, n, pins);
    }
}
