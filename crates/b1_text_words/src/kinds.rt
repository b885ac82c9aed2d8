ghost use Rattle.std.specs.Prelude.{◌↔◌, IsTrue};
ghost use Rattle.b1_text_words.specs.Lines.{IsWord, IsLine, IsBoundedKind, are_free_of};
ghost use Rattle.b1_text_words.specs.Words.{Begins};

use crate::bytes::{begins_bytes, fits_bytes};
use crate::items::{Item, begins_item, fits_item, is_bounded};
use crate::lists::{begins_list, fits_list};
use crate::splitting::{begins_text, is_text, split};

/// A kind of word.
#[derive(Clone, Copy, Debug)]
pub enum Kind<'a> {
    /// This text.
    Fixed(&'a str),
    /// A number.
    One(Item),
    /// A list of numbers, and how many it has at most.
    Several(Item, u64),
    /// Bytes as pairs of digits, and how many they are at most.
    Bytes(u64),
}

/// Whether the word is of this kind.
fn fits_word(kind: &Kind<'_>, word: &[u8]) -> bool
    ensures { IsTrue result ↔ IsWord kind.now word.now }
{
    match kind {
        Kind::Fixed(text) => is_text(text, word),
        Kind::One(item) => fits_item(*item, word),
        Kind::Several(item, most) => fits_list(*item, *most, word),
        Kind::Bytes(most) => fits_bytes(*most, word),
    }
}

/// Whether a word of this kind begins with these bytes.
fn begins_word(kind: &Kind<'_>, word: &[u8]) -> bool
    ensures { IsTrue result ↔ Begins (IsWord kind.now) word.now }
{
    match kind {
        Kind::Fixed(text) => begins_text(text, word),
        Kind::One(item) => begins_item(*item, word),
        Kind::Several(item, most) => begins_list(*item, *most, word),
        Kind::Bytes(most) => begins_bytes(*most, word),
    }
}

/// A bound is a number of 64 bits.
fn is_bounded_kind(kind: &Kind<'_>)
    ensures { IsBoundedKind kind.now }
{
    match kind {
        Kind::One(item) => is_bounded(*item),
        Kind::Several(item, _) => is_bounded(*item),
        _ => {}
    }
}

/// Whether a line of one word of each kind, with a separator between them, begins with these bytes.
pub fn begins_line(separator: u8, kinds: &[Kind<'_>], line: &[u8]) -> bool
    requires { IsTrue (are_free_of separator kinds.now) }
    ensures { IsTrue result ↔ Begins (IsLine separator kinds.now) line.now }
{
    let mut rest = line;
    for kind in kinds {
        is_bounded_kind(kind);
        let Some((word, others)) = split(rest, separator) else {
            return begins_word(kind, rest);
        };
        if !fits_word(kind, word) {
            return false;
        }
        rest = others;
    }
    false
}
