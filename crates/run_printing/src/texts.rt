// Texts: each byte as it stands or in hexadecimal digits. A text of over 64 bytes is printed as its length.
use crate::printing::{character, number, write};
use std::io::Stdout;

// A byte as it stands, or in hexadecimal digits.
fn quote_byte(to: Stdout, b: u8) {
    if b < 32 || b > 126 {
        write(to, b"\\x");
        let _ = print!(to; "{b:02x}");
    } else {
        character(to, b);
    }
}

// Each byte.
pub fn quote(to: Stdout, text: &[u8]) {
    for b in text {
        quote_byte(to, *b);
    }
}

// How long a text is.
pub fn length(to: Stdout, text: &[u8]) {
    number(to, text.len());
    write(to, b" bytes");
}

// A text, or how long it is.
pub fn say_text(to: Stdout, text: &[u8]) {
    if text.len() <= 64 {
        quote(to, text);
    } else {
        length(to, text);
    }
}
