// How many bytes are refused where they form no token.
ghost use Rattle.std.specs.Prelude.{◌≡◌, ◌≤◌, length, drop};
ghost use Rattle.tokens.specs.Extents.{to_blank_lem};

use token_steps::classes::is_blank;

// The bytes from `at` on up to the next blank or the end.
pub fn to_blank(text: &[u8], at: usize) -> usize
    requires { at ≤ length text.now }
    ensures { result ≡ to_blank_lem (drop at text.now) }
{
    let rest = &text[at..];
    rest.iter().position(|b| is_blank(*b)).unwrap_or(rest.len())
}
