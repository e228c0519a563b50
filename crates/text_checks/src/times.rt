// The time that digits are.
ghost use Rattle.text_checks.specs.Inner.{ReadsTime};

// The time that a word is; none where it is no time.
pub fn time_of(word: &[u8]) -> Option<u64>
    ensures { ReadsTime word.now result }
{
    if word.is_empty() {
        return None;
    }
    let mut n: u64 = 0;
    for b in word {
        if *b < b'0' || b'9' < *b {
            return None;
        }
        let d = u64::from(*b - b'0');
        n = n.checked_mul(10)?.checked_add(d)?;
    }
    Some(n)
}
