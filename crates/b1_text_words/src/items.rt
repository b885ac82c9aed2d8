ghost use Rattle.std.specs.Prelude.{◌<◌, ◌^◌, ◌↔◌, IsTrue};
ghost use Rattle.b1_text_words.specs.Items.{item_text, IsItem, IsBounded};
ghost use Rattle.b1_text_words.specs.Numbers.{number_text, handle_text, offset_text};
ghost use Rattle.b1_text_words.specs.Words.{Spells, Reads, Begins};

use crate::among::Numbers;
use crate::decimals::{begins_among, begins_up_to, read_among, read_up_to};
use crate::operands::{begins_handle, begins_offset, read_handle, read_offset};
use crate::splitting::{begins_text, is_text};

/// The two texts in which commands stand.
#[derive(Clone, Copy, Debug, PartialEq, Eq)]
pub enum Form {
    /// A script: its limits hold, and an operand is a number or a reference.
    Script,
    /// A report: an operand may also be `invalid`, and no AWAIT stands in it.
    Report,
}

/// A kind of number that stands in a text, alone or in a list.
#[derive(Clone, Copy, Debug)]
pub enum Item {
    /// A decimal number from 0 up to this one.
    UpTo(u64),
    /// A decimal number among some.
    Among(Numbers),
    /// A number of a receipt: decimal, or `invalid` for 2^64 - 1.
    Known,
    /// A handle of a command: an even number, or `@r.i` for slot i of receipt r.
    Handle(Form),
    /// A slice of a command: an even offset, or `@r` for the slice of receipt r.
    Offset(Form),
}

/// A bound is a number of 64 bits.
pub(crate) fn is_bounded(item: Item)
    ensures { IsBounded item }
{
    match item {
        Item::UpTo(_) => {}
        _ => {}
    }
}

/// The number that a word spells; `None` where it spells none of the kind.
pub fn read_item(item: Item, word: &[u8]) -> Option<u64>
    ensures { Reads (item_text item) (IsItem item) word.now result }
{
    match item {
        Item::UpTo(most) => read_up_to(most, word),
        Item::Among(numbers) => read_among(numbers, word),
        Item::Known => read_known(word),
        Item::Handle(Form::Script) => read_handle(u64::MAX, word),
        Item::Handle(Form::Report) => read_report_handle(word),
        Item::Offset(Form::Script) => read_offset(u64::MAX, word),
        Item::Offset(Form::Report) => read_report_offset(word),
    }
}

fn read_known(word: &[u8]) -> Option<u64>
    ensures { Reads number_text (λ n. n < 2 ^ 64) word.now result }
{
    if is_text("invalid", word) {
        return Some(u64::MAX);
    }
    read_up_to(u64::MAX - 1, word)
}

fn read_report_handle(word: &[u8]) -> Option<u64>
    ensures { Reads handle_text (λ n. n < 2 ^ 64) word.now result }
{
    if is_text("invalid", word) {
        return Some(u64::MAX);
    }
    read_handle(u64::MAX - 1, word)
}

fn read_report_offset(word: &[u8]) -> Option<u64>
    ensures { Reads offset_text (λ n. n < 2 ^ 64) word.now result }
{
    if is_text("invalid", word) {
        return Some(u64::MAX);
    }
    read_offset(u64::MAX - 1, word)
}

/// Whether the word is of the kind.
pub fn fits_item(item: Item, word: &[u8]) -> bool
    ensures { IsTrue result ↔ Spells (item_text item) (IsItem item) word.now }
{
    read_item(item, word).is_some()
}

/// Whether a word of the kind begins with these bytes.
pub fn begins_item(item: Item, word: &[u8]) -> bool
    ensures { IsTrue result ↔ Begins (Spells (item_text item) (IsItem item)) word.now }
{
    match item {
        Item::UpTo(most) => begins_up_to(most, word),
        Item::Among(numbers) => begins_among(numbers, word),
        Item::Known => begins_known(word),
        Item::Handle(Form::Script) => begins_handle(u64::MAX, word),
        Item::Handle(Form::Report) => begins_report_handle(word),
        Item::Offset(Form::Script) => begins_offset(u64::MAX, word),
        Item::Offset(Form::Report) => begins_report_offset(word),
    }
}

fn begins_known(word: &[u8]) -> bool
    ensures { IsTrue result ↔ Begins (Spells number_text (λ n. n < 2 ^ 64)) word.now }
{
    if begins_text("invalid", word) {
        return true;
    }
    begins_up_to(u64::MAX - 1, word)
}

fn begins_report_handle(word: &[u8]) -> bool
    ensures { IsTrue result ↔ Begins (Spells handle_text (λ n. n < 2 ^ 64)) word.now }
{
    if begins_text("invalid", word) {
        return true;
    }
    begins_handle(u64::MAX - 1, word)
}

fn begins_report_offset(word: &[u8]) -> bool
    ensures { IsTrue result ↔ Begins (Spells offset_text (λ n. n < 2 ^ 64)) word.now }
{
    if begins_text("invalid", word) {
        return true;
    }
    begins_offset(u64::MAX - 1, word)
}
