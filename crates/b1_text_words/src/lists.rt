ghost use Rattle.std.specs.Prelude.{◌↔◌, IsTrue, IfOk};
ghost use Rattle.b1_text_words.specs.Items.{item_text, IsItem, IsBounded, AreItems, SpellsSome};
ghost use Rattle.b1_text_words.specs.Numbers.{list_text};
ghost use Rattle.b1_text_words.specs.Words.{Spells, Reads, Begins, EndsWith};

use crate::items::{Item, begins_item, fits_item, is_bounded, read_item};
use crate::splitting::{begins_text, is_text, split};
use b1_model::Nums;
use std::alloc::{AllocError, Global};

/// The numbers that a list of at most so many spells; `None` where it spells none of the kind. An error is want of memory.
pub fn read_list(
    alloc: Global,
    item: Item,
    most: u64,
    word: &[u8],
) -> Result<Option<Nums>, AllocError>
    ensures { IfOk result (λ r.
        Reads (list_text (item_text item)) (AreItems item most) word.now r) }
{
    is_bounded(item);
    if is_text("-", word) {
        return Ok(Some(Nums::new(alloc)));
    }
    let mut numbers = Vec::new(alloc);
    let mut rest = word;
    let mut room = most;
    while room > 0 {
        let Some((first, behind)) = split(rest, b',') else {
            return read_last(item, rest, numbers);
        };
        let Some(number) = read_item(item, first) else {
            return Ok(None);
        };
        numbers.push(number)?;
        rest = behind;
        room -= 1;
    }
    Ok(None)
}

/// The numbers, with the one that the word spells behind them.
fn read_last(item: Item, word: &[u8], mut numbers: Vec<u64>) -> Result<Option<Nums>, AllocError>
    ensures { IfOk result (λ r. EndsWith (item_text item) (IsItem item) numbers.items word.now r) }
{
    let Some(number) = read_item(item, word) else {
        return Ok(None);
    };
    numbers.push(number)?;
    Ok(Some(Nums::from_vec(numbers)))
}

/// Whether the word is a list of at most so many.
pub fn fits_list(item: Item, most: u64, word: &[u8]) -> bool
    ensures { IsTrue result ↔ Spells (list_text (item_text item)) (AreItems item most) word.now }
{
    is_bounded(item);
    if is_text("-", word) {
        return true;
    }
    fits_some(item, most, word)
}

#[tactic(auto, using(crate::proofs::Commas::spells_more, crate::proofs::Commas::more_spells, crate::proofs::Commas::spells_last, crate::proofs::Commas::last_spells, crate::proofs::Commas::no_room))]
fn fits_some(item: Item, most: u64, word: &[u8]) -> bool
    requires { IsBounded item }
    ensures { IsTrue result ↔ SpellsSome item most word.now }
{
    let mut rest = word;
    let mut room = most;
    while room > 0 {
        let Some((first, behind)) = split(rest, b',') else {
            return fits_item(item, rest);
        };
        if !fits_item(item, first) {
            return false;
        }
        rest = behind;
        room -= 1;
    }
    false
}

/// Whether a list of at most so many begins with these bytes.
pub fn begins_list(item: Item, most: u64, word: &[u8]) -> bool
    ensures { IsTrue result ↔ Begins
        (Spells (list_text (item_text item)) (AreItems item most)) word.now }
{
    is_bounded(item);
    if begins_text("-", word) {
        return true;
    }
    begins_some(item, most, word)
}

fn begins_some(item: Item, most: u64, word: &[u8]) -> bool
    requires { IsBounded item }
    ensures { IsTrue result ↔ Begins (SpellsSome item most) word.now }
{
    let mut rest = word;
    let mut room = most;
    while room > 0 {
        let Some((first, behind)) = split(rest, b',') else {
            return begins_item(item, rest);
        };
        if !fits_item(item, first) {
            return false;
        }
        rest = behind;
        room -= 1;
    }
    false
}
