//! Hexadecimal texts.

use sc_field::NoMemory;
use std::alloc::Global;

/// The values of the hexadecimal digits of some texts, in their order; 255 stands for what is no
/// digit.
pub fn hex_digits(alloc: Global, texts: &[&str]) -> Result<Vec<u8>, NoMemory> {
    let mut digits = Vec::new(alloc);
    for text in texts {
        for byte in text.as_bytes() {
            digits.push(hex_digit(*byte))?;
        }
    }
    Ok(digits)
}

// The value of a hexadecimal digit.
fn hex_digit(byte: u8) -> u8 {
    match byte {
        b'0'..=b'9' => byte - b'0',
        b'a'..=b'f' => byte - b'a' + 10,
        _ => 255,
    }
}
