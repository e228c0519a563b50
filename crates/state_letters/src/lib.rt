// The letters of the states, in either case, and their codes.
#![tactic(auto)]

ghost use Rattle.std.specs.Prelude.{◌≡◌};
ghost use Rattle.state_letters.specs.Letters.{state_of};

// The code of a state's letter, in either case; 8 where the byte is none.
pub fn code_of(b: u8) -> u8
    ensures { result ≡ state_of b }
{
    match b {
        b'0' => 0,
        b'1' => 1,
        b'X' | b'x' => 2,
        b'H' | b'h' => 3,
        b'L' | b'l' => 4,
        b'W' | b'w' => 5,
        b'Z' | b'z' => 6,
        b'U' | b'u' => 7,
        _ => 8,
    }
}
