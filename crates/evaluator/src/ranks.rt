// The name of an answer, from its place in the order no, unknown, yes.
ghost use Rattle.std.specs.Prelude.{◌≡◌};
ghost use Rattle.alf.specs.Windows.{numbered};
ghost use Rattle.alf.specs.Answers.{number_of};

use alf::Answer;

pub fn name_of(rank: u8) -> Answer
    ensures { number_of result ≡ numbered rank }
{
    match rank {
        0 => Answer::No,
        1 => Answer::Unknown,
        _ => Answer::Yes,
    }
}
