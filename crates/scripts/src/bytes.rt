// Bytes written as pairs of hexadecimal digits. They are read here and not by the library, since which fault of a word is
// told first is part of what a script is answered.
ghost use Rattle.std.specs.Prelude.{◌≡◌, ◌<◌, IfOk, IfSome, string_bytes};
ghost use Rattle.scripts.specs.Hex.{bytes_value, bytes_word, digit_of, pair_value};
ghost use Rattle.scripts.specs.Readings.{AnswersInRoom, fault_in};

use crate::halt::{Halt, LineFault};
use std::alloc::{AllocError, Global};

// What a hexadecimal digit, small or capital, stands for.
fn digit_value(digit: u8) -> Option<u8>
    ensures value { result ≡ digit_of digit }
    ensures bound { IfSome result (λ v. v < 16) }
{
    match digit {
        b'0'..=b'9' => Some(digit - b'0'),
        b'a'..=b'f' => Some(digit - b'a' + 10),
        b'A'..=b'F' => Some(digit - b'A' + 10),
        _ => None,
    }
}

fn byte_of(high: u8, low: u8) -> Option<u8>
    ensures { result ≡ pair_value high low }
{
    let high = digit_value(high)?;
    let low = digit_value(low)?;
    Some(16 * high + low)
}

// The bytes that a word stands for; a dash stands for none.
pub(crate) fn bytes_of(heap: Global, word: &str) -> Result<Vec<u8>, Halt>
    ensures { AnswersInRoom fault_in (λ v. v.items) result (bytes_value word.now) }
{
    let mut bytes = Vec::new(heap);
    if word == "-" {
        return Ok(bytes);
    }
    for pair in word.as_bytes().chunks(2) {
        if pair.len() < 2 {
            return Err(Halt::NoCall(LineFault::OddDigits));
        }
        let byte = byte_of(pair[0], pair[1]).ok_or(LineFault::NotHexadecimal)?;
        bytes.push(byte)?;
    }
    Ok(bytes)
}

// Bytes, written as a script has them.
pub(crate) fn word_of(heap: Global, bytes: &[u8]) -> Result<String, AllocError>
    ensures { IfOk result (λ w. string_bytes w ≡ bytes_word bytes.now) }
{
    if bytes.is_empty() {
        String::from_str(heap, "-")
    } else {
        hex::encode(heap, bytes)
    }
}
