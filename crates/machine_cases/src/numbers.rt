// Numbers of a line.

use anyhow::Result;
use std::alloc::Global;

const HEXADECIMAL: u32 = 16;

/// The numbers between blanks.
pub fn numbers(alloc: Global, text: &str) -> Result<Vec<u32>> {
    let mut numbers = Vec::new(alloc);
    for part in text.split_whitespace() {
        numbers.push(u32::from_str_radix(part, HEXADECIMAL)?)?;
    }
    Ok(numbers)
}

/// The bytes between blanks: two digits are a byte, and more are a word, its lowest byte first.
pub fn bytes(alloc: Global, text: &str) -> Result<Vec<u8>> {
    let mut bytes = Vec::new(alloc);
    for part in text.split_whitespace() {
        if part.len() == 2 {
            bytes.push(u8::from_str_radix(part, HEXADECIMAL)?)?;
        } else {
            let word = u32::from_str_radix(part, HEXADECIMAL)?;
            bytes.extend_from_slice(&word.to_le_bytes())?;
        }
    }
    Ok(bytes)
}
