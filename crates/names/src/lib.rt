// The check of a list of names that every call makes that is handed one: slots of 32 bytes, refusals 18 and 12.
#![tactic(auto)]

ghost use Rattle.std.specs.Prelude.{◌≡◌, ◌+◌, ◌*◌, ◌/◌, ◌<◌, ◌≤◌, length};
ghost use Rattle.alf.specs.Names.{starts_name, goes_on_name, is_name, until_zero, GoodSlot};
ghost use Rattle.basics.specs.Deciding.{Decides};
ghost use Rattle.names.specs.Check.{NameLength, Zeros, New, ChecksNames};

use basics::Refusal;
use basics::refusing::refuse;

// A name's first byte: a letter or `_`.
#[tactic(auto, unfolding(alf::specs::Names::starts_name, alf::specs::Names::is_letter))]
pub fn starts_name(b: u8) -> bool
    ensures { result ≡ starts_name b }
{
    match b {
        65..=90 | 95..=95 | 97..=122 => true,
        _ => false,
    }
}

// A name's further bytes: letters, digits, `_`.
#[tactic(auto, unfolding(alf::specs::Names::goes_on_name, alf::specs::Names::starts_name, alf::specs::Names::is_letter, alf::specs::Names::is_decimal))]
pub fn goes_on_name(b: u8) -> bool
    ensures { result ≡ goes_on_name b }
{
    match b {
        48..=57 | 65..=90 | 95..=95 | 97..=122 => true,
        _ => false,
    }
}

// Whether the bytes are a name.
pub fn is_name(s: &[u8]) -> bool
    ensures { result ≡ is_name s.now }
{
    let n = s.len();
    if n == 0 {
        return false;
    }
    if 32 < n {
        return false;
    }
    if !starts_name(s[0]) {
        return false;
    }
    s[1..].iter().all(|b| goes_on_name(*b))
}

// How many bytes stand before the first zero.
pub fn name_len(slot: &[u8]) -> usize
    ensures { NameLength slot.now result }
{
    slot.iter().position(|b| *b == 0).unwrap_or(slot.len())
}

// Whether there is nothing but zeros.
fn all_zero(s: &[u8]) -> bool
    ensures { Decides result (Zeros s.now) }
{
    s.iter().all(|b| *b == 0)
}

// Whether two slots hold the same name.
fn same_name(a: &[u8], b: &[u8]) -> bool
    ensures { Decides result (until_zero a.now ≡ until_zero b.now) }
{
    let n = name_len(a);
    let m = name_len(b);
    check::same(&a[..n], &b[..m])
}

// Whether no earlier slot holds the name of slot k.
fn is_new(names: &[u8], k: usize) -> bool
    requires { k * 32 + 32 ≤ length names.now }
    ensures { Decides result (New names.now k) }
{
    let at = k * 32;
    let end = at + 32;
    for j in 0..k {
        let from = j * 32;
        let to = from + 32;
        if same_name(&names[from..to], &names[at..end]) {
            return false;
        }
    }
    true
}

// Whether slot k holds a name, zeros behind it, and no earlier slot's name.
fn good_slot(names: &[u8], k: usize) -> bool
    requires { k * 32 + 32 ≤ length names.now }
    ensures { Decides result (GoodSlot names.now k) }
{
    let at = k * 32;
    let end = at + 32;
    let n = name_len(&names[at..end]);
    let stop = at + n;
    if !is_name(&names[at..stop]) {
        return false;
    }
    if !all_zero(&names[stop..end]) {
        return false;
    }
    is_new(names, k)
}

// The check of a list of names: how many they are, or 18 at 0, or 12 at the first slot that is not good.
pub fn check_names(names: &[u8]) -> Result<usize, Refusal>
    ensures { ChecksNames names.now result }
{
    let n = names.len();
    let k = n / 32;
    if n % 32 != 0 {
        return refuse(18, 0);
    }
    if k == 0 {
        return refuse(18, 0);
    }
    if 32 < k {
        return refuse(18, 0);
    }
    for i in 0..k {
        if !good_slot(names, i) {
            return refuse(12, i);
        }
    }
    Ok(k)
}
