// A refusal is made here and nowhere else.
ghost use Rattle.std.specs.Prelude.{◌≡◌};
ghost use Rattle.basics.specs.Refusing.{refusal, refusal_over_lem};

use crate::Refusal;

// A number of document 01's table, a place, and how many bytes are refused there.
pub fn refusal_over(number: u8, place: usize, extent: usize) -> Refusal
    ensures { result ≡ refusal_over_lem number place extent }
{
    Refusal {
        number,
        place,
        extent,
    }
}

// No bytes are told.
pub fn refusal_of(number: u8, place: usize) -> Refusal
    ensures { result ≡ refusal number place }
{
    refusal_over(number, place, 0)
}

// As what a call comes to, whatever it would have made.
pub fn refuse<T>(number: u8, place: usize) -> Result<T, Refusal>
    ensures { result ≡ Err (refusal number place) }
{
    Err(refusal_of(number, place))
}
