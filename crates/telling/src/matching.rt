// An answer with the number of alternatives tried and the time where the match began, totals, a queue, and what came of
// a push.
ghost use Rattle.std.specs.Prelude.{◌≡◌};
ghost use Rattle.telling.specs.Matching.{told_match, told_counts, queue_of_lem, told_push};

use crate::{Counted, Matched, Pushed, Queue};
use alf::RowNo;
use basics::Refusal;
use beginnings::times::{Dated, given_of, time_of};
use matcher::tables::{Total, number_of};
use queue_calls::pushing::Pushing;

pub fn tell_match(o: Result<Dated, Refusal>) -> Matched
    ensures { result ≡ told_match o }
{
    match o {
        Ok(m) => {
            let a = m.answer;
            let b = m.began;
            let tries = m.tries;
            let answer = number_of(a);
            let given = given_of(b);
            let began = time_of(b);
            Matched {
                number: 0,
                place: 0,
                answer,
                tries,
                given,
                began,
            }
        }
        Err(r) => Matched {
            number: r.number,
            place: r.place,
            answer: 0,
            tries: 0,
            given: 0,
            began: 0,
        },
    }
}

pub fn tell_counts(o: Result<Total, Refusal>) -> Counted
    ensures { result ≡ told_counts o }
{
    match o {
        Ok(t) => Counted {
            number: 0,
            place: 0,
            yes: t.yes,
            no: t.no,
            unknown: t.unknown,
        },
        Err(r) => Counted {
            number: r.number,
            place: r.place,
            yes: 0,
            no: 0,
            unknown: 0,
        },
    }
}

pub fn queue_of(q: Queue) -> timed_queue::queues::Queue
    ensures { result ≡ queue_of_lem q }
{
    let states = q.states;
    let times = q.times;
    let rows = queue::queues::Queue {
        kept: RowNo(q.kept),
        states,
    };
    timed_queue::queues::Queue { rows, times }
}

pub fn tell_push(p: Pushing) -> Pushed
    ensures { result ≡ told_push p }
{
    let told = p.told;
    let next = p.queue;
    let m = tell_match(told);
    let rows = next.rows;
    let times = next.times;
    let kept = rows.kept;
    let states = rows.states;
    let queue = Queue {
        kept: kept.0,
        states,
        times,
    };
    Pushed {
        number: m.number,
        place: m.place,
        answer: m.answer,
        tries: m.tries,
        given: m.given,
        began: m.began,
        queue,
    }
}
