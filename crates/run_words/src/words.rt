// The words of a line, which blanks separate: the number or the list that one is; the value of a digit.
ghost use Rattle.std.specs.Prelude.{◌≤◌};

use text_parts::parts::part;

// A number with one more digit.
fn with_digit(n: usize, b: u8) -> usize {
    if n < 1000000000 && b >= b'0' && b <= b'9' {
        return 10 * n + (b - b'0') as usize;
    }
    n
}

// The number that the digits from `from` on make.
pub fn number_from(part: &[u8], from: usize) -> usize {
    let mut n: usize = 0;
    for b in part.iter().skip(from) {
        n = with_digit(n, *b);
    }
    n
}

// The number that word k is; blanks separate words.
pub fn number_in(line: &[u8], k: usize) -> usize {
    number_from(part(line, k, b' '), 0)
}

// The list that word k is: what stands behind the colon.
pub fn list_in(line: &[u8], k: usize) -> &[u8] {
    let word = part(line, k, b' ');
    word.get(1..).unwrap_or(word)
}

// The value of a hexadecimal digit.
pub fn digit(b: u8) -> u8
    ensures { result ≤ 15 }
{
    match b {
        b'0'..=b'9' => b - 48,
        b'A'..=b'F' => b - 55,
        b'a'..=b'f' => b - 87,
        _ => 0,
    }
}
