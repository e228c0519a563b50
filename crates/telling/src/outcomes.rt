// How much a call made.
ghost use Rattle.std.specs.Prelude.{◌≡◌};
ghost use Rattle.telling.specs.Handing.{told};

use crate::Told;
use basics::Refusal;

// An outcome in numbers.
pub fn tell(o: Result<usize, Refusal>) -> Told
    ensures { result ≡ told o }
{
    match o {
        Ok(count) => Told {
            number: 0,
            place: 0,
            count,
        },
        Err(r) => Told {
            number: r.number,
            place: r.place,
            count: 0,
        },
    }
}
