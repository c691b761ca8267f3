// Reading a number, and writing counts.
use crate::words::times;
use std::fmt::{self, Write};

// The number that standard input begins with; `otherwise` where it begins with none.
pub fn read_number(otherwise: u64) -> u64 {
    let mut text = [0u8; 20];
    let n = io::read_full(0, &mut text);
    number_in(&text[..n]).unwrap_or(otherwise)
}

fn number_in(text: &[u8]) -> Option<u64> {
    let mut number = None;
    for b in text {
        if !b.is_ascii_digit() {
            break;
        }
        number = Some(with_digit(number.unwrap_or(0), *b));
    }
    number
}

// A number with one more digit, as long as it is small.
fn with_digit(number: u64, digit: u8) -> u64 {
    times(number, 10).saturating_add(u64::from(digit.saturating_sub(b'0')))
}

// Writes a number, and a text after it.
pub fn count(n: u64, text: &[u8]) {
    io::print_decimal(1, n);
    io::write_all(1, text);
}

// Standard output, by the C library's write alone: no contract but that one's is assumed for it. A piece that cannot be written is passed
// over: nobody is left to tell.
#[derive(Clone, Copy)]
pub struct Output;

impl Write for Output {
    fn write_str(&mut self, s: &str) -> fmt::Result {
        io::write_all(1, s.as_bytes());
        Ok(())
    }
}
