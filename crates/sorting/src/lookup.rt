// Refusal 6: the slot of the name that stands at a byte of a text, and the first name that has none.
ghost use Rattle.std.specs.Prelude.{◌≡◌, ◌≤◌, length};
ghost use Rattle.alf.specs.Names.{until_zero};
ghost use Rattle.basics.specs.Deciding.{Decides};
ghost use Rattle.sorting.specs.Lookup.{number_at, is_unknown, unknown_at};
ghost use Rattle.sorting.specs.Passes.{Listed};

use check::same;
use names::name_len;
use token_steps::steps::name_size;

// Whether a slot holds a name.
fn holds(slot: &[u8], word: &[u8]) -> bool
    ensures { Decides result (until_zero slot.now ≡ word.now) }
{
    let n = name_len(slot);
    same(&slot[..n], word)
}

// The number of the slot that holds the name at `at`; the number of slots where none does.
pub fn slot_of(names: &[u8], text: &[u8], at: usize) -> usize
    requires { at ≤ length text.now }
    ensures { result ≡ number_at names.now text.now at }
{
    let end = at + name_size(text, at);
    let n = names.len() / 32;
    for k in 0..n {
        let from = k * 32;
        let to = from + 32;
        if holds(&names[from..to], &text[at..end]) {
            return k;
        }
    }
    n
}

// Whether a token is a name that no slot holds.
fn is_unknown(names: &[u8], text: &[u8], code: u8, place: usize) -> bool
    requires { place ≤ length text.now }
    ensures { result ≡ is_unknown names.now text.now code place }
{
    if code != 0 {
        return false;
    }
    slot_of(names, text, place) == names.len() / 32
}

// The first of `count` tokens that is a name that no slot holds; `count` where none is.
pub fn first_unknown(names: &[u8], text: &[u8], codes: &[u8], places: &[u16], count: usize) -> usize
    requires { Listed text.now codes.now places.now count }
    ensures { result ≡ unknown_at names.now text.now codes.now places.now count }
{
    for i in 0..count {
        let code = codes[i];
        let place = places[i] as usize;
        if is_unknown(names, text, code, place) {
            return i;
        }
    }
    count
}
