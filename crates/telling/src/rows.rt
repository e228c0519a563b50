// A trace that was read, the changes of a row, and an answer at a row.
ghost use Rattle.std.specs.Prelude.{◌≡◌};
ghost use Rattle.telling.specs.Handing.{told_trace, told_changes, told_answer};

use crate::{Answered, Changed, Trace};
use alf::Answer;
use basics::Refusal;
use matcher::tables::number_of;
use states::changes::Changes;
use trace_reader::Size;

pub fn tell_trace(o: Result<Size, Refusal>) -> Trace
    ensures { result ≡ told_trace o }
{
    match o {
        Ok(Size { names, rows }) => Trace {
            number: 0,
            place: 0,
            names,
            rows,
        },
        Err(r) => Trace {
            number: r.number,
            place: r.place,
            names: 0,
            rows: 0,
        },
    }
}

pub fn tell_changes(o: Result<Changes, Refusal>) -> Changed
    ensures { result ≡ told_changes o }
{
    match o {
        Ok(c) => Changed {
            number: 0,
            place: 0,
            mask: c.mask,
            many: c.many,
        },
        Err(r) => Changed {
            number: r.number,
            place: r.place,
            mask: 0,
            many: 0,
        },
    }
}

pub fn tell_answer(o: Result<Answer, Refusal>) -> Answered
    ensures { result ≡ told_answer o }
{
    match o {
        Ok(a) => {
            let answer = number_of(a);
            Answered {
                number: 0,
                place: 0,
                answer,
            }
        }
        Err(r) => Answered {
            number: r.number,
            place: r.place,
            answer: 0,
        },
    }
}
