// One token: the longest that starts at a byte, or how far on the byte is that forms none.
ghost use Rattle.std.specs.Prelude.{◌≡◌, ◌+◌, ◌≤◌, ◌<◌, length, drop};
ghost use Rattle.token_steps.specs.Taking.{byte_at, name_bytes};
ghost use Rattle.token_steps.specs.Steps.{based_step, plain_step, step_of};
ghost use Rattle.token_steps.specs.Inner.{Near, HalfAt};

use crate::classes::{class_of, half_of, is_name_byte, plain_half};
use crate::spellings::find;
use crate::{Class, Step};

// Byte `k` from `at` on, 0 past the end.
pub fn peek(text: &[u8], at: usize, k: usize) -> u8
    requires { Near text.now at k }
    ensures { result ≡ byte_at (drop at text.now) k }
{
    if at + k < text.len() { text[at + k] } else { 0 }
}

// How many name bytes stand together.
pub fn name_size(text: &[u8], at: usize) -> usize
    requires { at ≤ length text.now }
    ensures { result ≡ name_bytes (drop at text.now) }
{
    let rest = &text[at..];
    rest.iter()
        .position(|b| !is_name_byte(*b))
        .unwrap_or(rest.len())
}

// The half at byte `k` from `at` on: `'b` and its character, with no name byte right after it.
fn half_at(text: &[u8], at: usize, k: usize) -> Option<u8>
    requires { Near text.now at (k + 3) }
    ensures { HalfAt (drop at text.now) k result }
{
    if peek(text, at, k) != b'\'' {
        return None;
    }
    if peek(text, at, k + 1) != b'b' {
        return None;
    }
    if is_name_byte(peek(text, at, k + 3)) {
        return None;
    }
    half_of(peek(text, at, k + 2))
}

// A based literal, or an edge of two.
fn based(text: &[u8], at: usize) -> Result<Step, usize>
    requires { at ≤ length text.now }
    ensures { result ≡ based_step (drop at text.now) }
{
    let f = half_at(text, at, 0).ok_or(0usize)?;
    if peek(text, at, 3) == b'\'' {
        let t = half_at(text, at, 3).ok_or(3usize)?;
        return Ok(Step {
            code: 64 + 9 * f + t,
            size: 6,
        });
    }
    if f == 0 {
        return Err(0);
    }
    Ok(Step {
        code: 31 + f,
        size: 3,
    })
}

// What begins with no name byte and no `'`: two of `0 1 ?` with no third one, or one of the spellings.
fn plain(text: &[u8], at: usize) -> Result<Step, usize>
    requires { at ≤ length text.now }
    ensures { result ≡ plain_step (drop at text.now) }
{
    let Some(f) = plain_half(peek(text, at, 0)) else {
        return find(text, at);
    };
    let Some(t) = plain_half(peek(text, at, 1)) else {
        return find(text, at);
    };
    if plain_half(peek(text, at, 2)).is_some() {
        return Err(0);
    }
    Ok(Step {
        code: 64 + 9 * f + t,
        size: 2,
    })
}

// The token at `at`.
pub fn take_token(text: &[u8], at: usize) -> Result<Step, usize>
    requires { at ≤ length text.now }
    ensures { result ≡ step_of (drop at text.now) }
{
    match class_of(peek(text, at, 0)) {
        Class::Letter => {
            let n = name_size(text, at);
            if n <= 32 {
                Ok(Step { code: 0, size: n })
            } else {
                Err(0)
            }
        }
        Class::Quote => based(text, at),
        _ => plain(text, at),
    }
}
