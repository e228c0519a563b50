// The steady pins of a tree, found in one walk from left to right. The walk keeps the run of steps that it is in: what
// is beside the next step, and which rows of the table are those of the run's steps. A step writes what is before it
// into its own row. Where it brings a name that is new in the run, it writes this name into the rows before its own.
ghost use Rattle.std.specs.Prelude.{◌≡◌, ◌<◌, get_or, replicate};
ghost use Rattle.basics.specs.Words.{listed};
ghost use Rattle.trees.specs.Parts.{vector_at};
ghost use Rattle.steady_pins.specs.Finding.{Tree, StepAt, alone, stepped, pins_of};
ghost use Rattle.steady_pins.specs.Walking.{begun, over, passed, own_row, Walk, StepWalk, Walked, Apart};

use crate::settling::{put_row, settle};
use crate::steps::{is_step, moves, own};
use alf::Rules;
use trees::parts::start_of;

// What is beside a part of a chain of `->`: for each name the place of an operand that is this name, in the row of
// steps next to the part, or 0; and whether all of those steps change.
#[derive(Clone, Copy)]
pub struct Beside {
    pub places: [u8; 32],
    pub changing: bool,
}

// The run of steps that the walk is in: what is beside the next step, and how many rows are those of its steps.
#[derive(Clone, Copy)]
pub struct Run {
    pub beside: Beside,
    pub many: usize,
}

// A run without steps.
fn begin() -> Run
    ensures { result ≡ begun }
{
    Run {
        beside: Beside {
            places: [0u8; 32],
            changing: true,
        },
        many: 0,
    }
}

// The step that ends at `end`, and nothing beside it.
fn look(tree: &[u8], end: usize, names: usize) -> Beside
    requires { StepAt tree.now names end }
    ensures { result ≡ stepped end (vector_at tree.now names end) alone }
{
    let places = own(tree, end, names, [0u8; 32]);
    let changing = moves(tree, end, names);
    Beside { places, changing }
}

// A place over another.
fn over_entry(place: u8, other: u8) -> u8
    ensures { result ≡ over place other }
{
    if place == 0 { other } else { place }
}

// Places over others.
fn over(places: [u8; 32], others: [u8; 32]) -> [u8; 32]
    ensures { result ≡ listed 0 32 (λ n. over (get_or places n 0) (get_or others n 0)) }
{
    let mut r = [0u8; 32];
    for n in 0..32 {
        r[n] = over_entry(places[n], others[n]);
    }
    r
}

// What is beside a part behind a step: the step, and then what was before it.
fn pass(mine: Beside, before: Beside) -> Beside
    ensures { result ≡ passed mine before }
{
    let own = mine.places;
    let others = before.places;
    let places = over(own, others);
    if mine.changing {
        return Beside {
            places,
            changing: before.changing,
        };
    }
    Beside {
        places,
        changing: false,
    }
}

// No pins.
fn blank() -> [u8; 8192]
    ensures { result ≡ replicate 8192 0 }
{
    [0u8; 8192]
}

// No rows.
fn no_rows() -> [u8; 256]
    ensures { result ≡ replicate 256 0 }
{
    [0u8; 256]
}

// The row of a step in the table, while nothing comes after the step: none if a step of its run does not change.
fn put_step(before: Beside, mine: Beside, row: usize, pins: &mut [u8; 8192])
    requires { row < 256 }
    ensures { pins.new ≡ own_row before mine row pins.old }
{
    if !before.changing {
        return;
    }
    if !mine.changing {
        return;
    }
    let left = before.places;
    let own = mine.places;
    put_row(left, own, row * 32, pins);
}

// The walk over the step that ends at `end`.
fn mark_step(
    tree: &[u8],
    end: usize,
    names: usize,
    run: Run,
    rows: &mut [u8; 256],
    pins: &mut [u8; 8192],
) -> Run
    requires { StepWalk tree.now names end run rows.old pins.old }
    ensures { Walked end (vector_at tree.now names end) run rows.old pins.old result
        rows.new pins.new }
{
    let before = run.beside;
    let many = run.many;
    let mine = look(tree, end, names);
    let row = end - 1;
    let others = before.places;
    let places = mine.places;
    settle(
        before.changing,
        mine.changing,
        others,
        places,
        rows,
        many,
        pins,
    );
    put_step(before, mine, row, pins);
    rows[many] = row as u8;
    let beside = pass(mine, before);
    Run {
        beside,
        many: many + 1,
    }
}

// The walk over the expression that ends at `end`, in the run that it stands in.
#[cycle(mark_mark_apart)]
fn mark(
    tree: &[u8],
    end: usize,
    names: usize,
    run: Run,
    rows: &mut [u8; 256],
    pins: &mut [u8; 8192],
) -> Run
    requires { Walk tree.now names end run rows.old pins.old }
    ensures { Walked end (vector_at tree.now names end) run rows.old pins.old result
        rows.new pins.new }
{
    let at = end - 1;
    if tree[at] == 50 {
        let left = start_of(tree, at, names);
        let k = mark(tree, left, names, run, rows, pins);
        return mark(tree, at, names, k, rows, pins);
    }
    if is_step(tree, end, names) {
        return mark_step(tree, end, names, run, rows, pins);
    }
    mark_apart(tree, end, names, rows, pins);
    begin()
}

// The walk over the expression that ends at `end`, with nothing beside it. A step has no pins then.
#[cycle(mark_mark_apart)]
fn mark_apart(tree: &[u8], end: usize, names: usize, rows: &mut [u8; 256], pins: &mut [u8; 8192])
    requires { Walk tree.now names end begun rows.old pins.old }
    ensures { Apart end (vector_at tree.now names end) pins.old rows.new
        pins.new }
{
    let at = end - 1;
    let b = tree[at];
    if 64 <= b {
        return;
    }
    if b == 57 {
        mark_apart(tree, at, names, rows, pins);
        return;
    }
    let left = start_of(tree, at, names);
    if b == 50 {
        let none = begin();
        let k = mark(tree, left, names, none, rows, pins);
        mark(tree, at, names, k, rows, pins);
        return;
    }
    mark_apart(tree, left, names, rows, pins);
    if b == 56 {
        return;
    }
    mark_apart(tree, at, names, rows, pins);
}

// The steady pins of the vector expression that ends at `end`; none where the rules have none.
pub fn find(rules: Rules, tree: &[u8], end: usize, names: usize) -> [u8; 8192]
    requires { Tree tree.now names end }
    ensures { result ≡ pins_of rules tree.now names end }
{
    let mut pins = blank();
    if rules.steady_pins {
        let mut rows = no_rows();
        mark_apart(tree, end, names, &mut rows, &mut pins);
    }
    pins
}
