ghost use Rattle.std.specs.Prelude.{◌≡◌, ◌<◌, ◌%◌, ◌↔◌, length, Some, IsTrue, IfOk};
ghost use Rattle.b1_text_words.specs.Digits.{is_hex_digit, are_hex_digits, bytes_of, ArePairs};
ghost use Rattle.b1_text_words.specs.Items.{AreBytes};
ghost use Rattle.b1_text_words.specs.Numbers.{hex_digit, hex_text};
ghost use Rattle.b1_text_words.specs.Words.{Spells, Reads, Begins};

use crate::splitting::{begins_text, is_text};
use b1_model::Bytes;
use std::alloc::{AllocError, Global};

/// At most so many bytes, spelled as pairs of digits; `None` where the word spells none. An error is want of memory.
pub fn read_bytes(alloc: Global, most: u64, word: &[u8]) -> Result<Option<Bytes>, AllocError>
    ensures { IfOk result (λ r. Reads hex_text (AreBytes most) word.now r) }
{
    if is_text("-", word) {
        return Ok(Some(Bytes::new(alloc)));
    }
    if !are_pairs(most, word) {
        return Ok(None);
    }
    read_pairs(alloc, word)
}

/// The bytes that pairs of digits spell.
fn read_pairs(alloc: Global, word: &[u8]) -> Result<Option<Bytes>, AllocError>
    requires digits { IsTrue (are_hex_digits word.now) }
    requires even { length word.now % 2 ≡ 0 }
    ensures { IfOk result (λ r. r ≡ Some (bytes_of word.now)) }
{
    let mut bytes = Vec::new(alloc);
    let mut rest = word;
    while let [high, low, behind @ ..] = rest {
        bytes.push(digit(*high) * 16 + digit(*low))?;
        rest = behind;
    }
    Ok(Some(Bytes::from_vec(bytes)))
}

/// Whether the word spells at most so many bytes.
pub fn fits_bytes(most: u64, word: &[u8]) -> bool
    ensures { IsTrue result ↔ Spells hex_text (AreBytes most) word.now }
{
    if is_text("-", word) {
        return true;
    }
    are_pairs(most, word)
}

/// Whether the spelling of at most so many bytes begins with these bytes.
pub fn begins_bytes(most: u64, word: &[u8]) -> bool
    ensures { IsTrue result ↔ Begins (Spells hex_text (AreBytes most)) word.now }
{
    if begins_text("-", word) {
        return true;
    }
    (word.len() as u64 + 1) / 2 <= most && are_digits(word)
}

/// Whether the word is pairs of digits, at least one and at most so many.
fn are_pairs(most: u64, word: &[u8]) -> bool
    ensures { IsTrue result ↔ ArePairs most word.now }
{
    if word.is_empty() || word.len() % 2 == 1 {
        return false;
    }
    (word.len() / 2) as u64 <= most && are_digits(word)
}

fn are_digits(word: &[u8]) -> bool
    ensures { result ≡ are_hex_digits word.now }
{
    for byte in word {
        if !is_digit(*byte) {
            return false;
        }
    }
    true
}

fn is_digit(byte: u8) -> bool
    ensures { result ≡ is_hex_digit byte }
{
    (b'0' <= byte && byte <= b'9') || (b'a' <= byte && byte <= b'f')
}

/// The value of a digit.
fn digit(byte: u8) -> u8
    requires { IsTrue (is_hex_digit byte) }
    ensures digit { hex_digit result ≡ byte }
    ensures small { result < 16 }
{
    if byte <= b'9' {
        byte - b'0'
    } else {
        byte - b'a' + 10
    }
}
