// Each byte is put in its class by ranges; bytes 128 to 255 belong to no class.
ghost use Rattle.std.specs.Prelude.{◌≡◌};
ghost use Rattle.alf.specs.Names.{goes_on_name};
ghost use Rattle.token_steps.specs.Classes.{is_blank_lem, class_of, half_found, plain_found};

use crate::Class;

#[tactic(auto, unfolding(crate::specs::Classes::class_of, crate::specs::Classes::is_blank_lem, crate::specs::Classes::is_operator, alf::specs::Names::starts_name, alf::specs::Names::is_letter, alf::specs::Names::is_decimal, alf::specs::States::among))]
pub fn class_of(b: u8) -> Class
    ensures { result ≡ class_of b }
{
    match b {
        9..=10 | 13 | 32 => Class::Blank,
        33 | 38 | 40..=41 | 45 | 58 | 60..=63 | 94 | 124 | 126 => Class::Operator,
        39 => Class::Quote,
        48..=57 => Class::Digit,
        65..=90 | 95 | 97..=122 => Class::Letter,
        _ => Class::Other,
    }
}

pub fn is_blank(b: u8) -> bool
    ensures { result ≡ is_blank_lem b }
{
    matches!(class_of(b), Class::Blank)
}

// A letter, a digit or `_`.
pub fn is_name_byte(b: u8) -> bool
    ensures { result ≡ goes_on_name b }
{
    matches!(class_of(b), Class::Letter | Class::Digit)
}

// Which of `? 0 1 X H L W Z U`, in either case, counted from 0; `None` where it is no half.
#[tactic(auto, unfolding(crate::specs::Classes::half_found, crate::specs::Classes::half_of, alf::specs::States::among))]
pub fn half_of(b: u8) -> Option<u8>
    ensures { result ≡ half_found b }
{
    match b {
        b'?' => Some(0),
        b'0' => Some(1),
        b'1' => Some(2),
        b'X' | b'x' => Some(3),
        b'H' | b'h' => Some(4),
        b'L' | b'l' => Some(5),
        b'W' | b'w' => Some(6),
        b'Z' | b'z' => Some(7),
        b'U' | b'u' => Some(8),
        _ => None,
    }
}

// Which of `? 0 1`, two of which make an edge as they stand; `None` where it is none of them.
#[tactic(auto, unfolding(crate::specs::Classes::plain_found, crate::specs::Classes::half_found))]
pub fn plain_half(b: u8) -> Option<u8>
    ensures { result ≡ plain_found b }
{
    half_of(b).filter(|half| *half < 3)
}
