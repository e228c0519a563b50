// Lists of names from words: a slot of 32 bytes for each.
use text_parts::parts::part;
use text_parts::puts::put;

// Word k, without the comma at its end.
fn word(words: &[u8], k: usize) -> &[u8] {
    part(part(words, k, b' '), 0, b',')
}

fn no_names() -> [u8; 1056] {
    [0u8; 1056]
}

// Each word into its slot.
fn put_names(list: &mut [u8], words: &[u8]) {
    for k in 0..33 {
        put(list, 32 * k, word(words, k));
    }
}

// 33 slots, of which those are empty that have no word.
pub fn list_of(words: &[u8]) -> [u8; 1056] {
    let mut list = no_names();
    put_names(&mut list, words);
    list
}
