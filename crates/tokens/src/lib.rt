// A text into its tokens, or refused with 1, 2, 3 or 4.
#![tactic(auto)]

mod extents;
mod limits;

ghost use Rattle.std.specs.Prelude.{◌≡◌, ◌≤◌, length};
ghost use Rattle.tokens.specs.Inner.{Scan, stopped_at};
ghost use Rattle.tokens.specs.Tokenizing.{Tokenized, zeros};

use crate::extents::to_blank;
use crate::limits::first_over;
use basics::Refusal;
use basics::refusing::{refusal_of, refusal_over};
use token_steps::classes::is_blank;
use token_steps::steps::take_token;

// The tokens of a text: of the lists the first `count` entries, with zeros behind them.
#[derive(Clone, Copy)]
pub struct Tokens {
    pub count: usize,
    pub codes: [u8; 4096],
    pub places: [u16; 4096],
}

fn no_codes() -> [u8; 4096]
    ensures { result ≡ zeros }
{
    [0u8; 4096]
}

fn no_places() -> [u16; 4096]
    ensures { result ≡ zeros }
{
    [0u16; 4096]
}

// 2 shows the bytes up to the next blank or the end.
fn refuse_bytes(text: &[u8], place: usize) -> Refusal
    requires { place ≤ length text.now }
    ensures { result ≡ stopped_at text.now place }
{
    refusal_over(2, place, to_blank(text, place))
}

// The tokens of a text of at most 4,096 bytes, or refused with 2.
fn scan(text: &[u8]) -> Result<Tokens, Refusal>
    requires { length text.now ≤ 4096 }
    ensures { Scan text.now result }
{
    let mut codes = no_codes();
    let mut places = no_places();
    let mut count: usize = 0;
    let mut at: usize = 0;
    // Where a token ends is known behind it: no range to go over.
    while at < text.len() {
        if is_blank(text[at]) {
            at += 1;
            continue;
        }
        match take_token(text, at) {
            Ok(s) => {
                codes[count] = s.code;
                places[count] = at as u16;
                count += 1;
                at += s.size;
            }
            Err(on) => return Err(refuse_bytes(text, at + on)),
        }
    }
    Ok(Tokens {
        count,
        codes,
        places,
    })
}

// The tokens of a text, or refused with 1, 2, 3 or 4, in this order, each over the whole text before the next. 1, 3 and
// 4 show no bytes.
pub fn read_tokens(text: &[u8]) -> Result<Tokens, Refusal>
    ensures { Tokenized text.now result }
{
    if 4096 < text.len() {
        return Err(refusal_of(1, 4096));
    }
    let scanned = scan(text);
    // The tokens are looked at where they are: `?` would copy their 12 KB.
    if let Ok(tokens) = &scanned {
        if let Some(deep) = first_over(&tokens.codes, tokens.count, true, 32) {
            return Err(refusal_of(3, tokens.places[deep] as usize));
        }
        if let Some(many) = first_over(&tokens.codes, tokens.count, false, 256) {
            return Err(refusal_of(4, tokens.places[many] as usize));
        }
    }
    scanned
}
