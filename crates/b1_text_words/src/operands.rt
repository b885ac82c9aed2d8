ghost use Rattle.std.specs.Prelude.{◌≡◌, ◌-◌, ◌*◌, ◌/◌, ◌≤◌, ◌↔◌, ◌∷◌, min, IsTrue, MatchOption};
ghost use Rattle.b1_text_words.specs.Numbers.{script_handle_text, script_offset_text, slot_text, slice_text};
ghost use Rattle.b1_text_words.specs.Items.{IsUpTo, IsOddUpTo, IsNoReference};
ghost use Rattle.b1_text_words.specs.Words.{Spells, Reads, Begins};

use crate::among::Numbers;
use crate::decimals::{begins_among, begins_up_to, read_among, read_up_to};
use crate::splitting::split;

/// The even numbers up to this one.
fn even(most: u64) -> Numbers
    ensures least { result.least ≡ 0 }
    ensures most { result.most ≡ most }
    ensures step { result.step ≡ 2 }
{
    Numbers {
        least: 0,
        most,
        step: 2,
    }
}

/// What stands behind the sign of a reference.
fn reference(word: &[u8]) -> Option<&[u8]>
    ensures { MatchOption result (IsNoReference word.now) (λ rest. word.now ≡ 64 ∷ rest.now) }
{
    match word {
        [b'@', rest @ ..] => Some(rest),
        _ => None,
    }
}

/// The handle up to this one that a word spells.
#[tactic(auto, using(crate::proofs::References::reads_behind, crate::proofs::References::reads_even))]
pub(crate) fn read_handle(most: u64, word: &[u8]) -> Option<u64>
    requires { 1 ≤ most }
    ensures { Reads script_handle_text (IsUpTo most) word.now result }
{
    match reference(word) {
        Some(rest) => read_slot(most, rest),
        None => read_among(even(most), word),
    }
}

#[tactic(auto, using(crate::proofs::Slots::slot_none, crate::proofs::Slots::no_receipt, crate::proofs::Slots::no_slot, crate::proofs::Slots::slot_read))]
fn read_slot(most: u64, rest: &[u8]) -> Option<u64>
    requires { 1 ≤ most }
    ensures { Reads slot_text (IsOddUpTo most) rest.now result }
{
    let Some((receipt, slot)) = split(rest, b'.') else {
        return None;
    };
    let Some(receipt) = read_up_to((most - 1) / 128, receipt) else {
        return None;
    };
    match read_up_to(last_slot(most, receipt), slot) {
        Some(slot) => Some(receipt * 128 + slot * 2 + 1),
        None => None,
    }
}

/// The last slot of a receipt that a number up to this one refers to.
fn last_slot(most: u64, receipt: u64) -> u64
    requires most { 1 ≤ most }
    requires receipt { receipt ≤ (most - 1) / 128 }
    ensures { result ≡ min ((most - 1 - receipt * 128) / 2) 63 }
{
    let slot = (most - 1 - receipt * 128) / 2;
    if slot < 63 { slot } else { 63 }
}

/// Whether the spelling of a handle up to this one begins with these bytes.
#[tactic(auto, using(crate::proofs::References::begins_behind, crate::proofs::References::behind_begins, crate::proofs::References::begins_even, crate::proofs::References::even_begins))]
pub(crate) fn begins_handle(most: u64, word: &[u8]) -> bool
    requires { 1 ≤ most }
    ensures { IsTrue result ↔ Begins (Spells script_handle_text (IsUpTo most)) word.now }
{
    match reference(word) {
        Some(rest) => begins_slot(most, rest),
        None => begins_among(even(most), word),
    }
}

#[tactic(auto, using(crate::proofs::Slots::begins_receipt, crate::proofs::Slots::receipt_begins, crate::proofs::Slots::begins_index, crate::proofs::Slots::index_begins, crate::proofs::Slots::nothing_without_receipt))]
fn begins_slot(most: u64, rest: &[u8]) -> bool
    requires { 1 ≤ most }
    ensures { IsTrue result ↔ Begins (Spells slot_text (IsOddUpTo most)) rest.now }
{
    let Some((receipt, slot)) = split(rest, b'.') else {
        return begins_up_to((most - 1) / 128, rest);
    };
    match read_up_to((most - 1) / 128, receipt) {
        Some(receipt) => begins_up_to(last_slot(most, receipt), slot),
        None => false,
    }
}

/// The offset up to this one that a word spells.
#[tactic(auto, using(crate::proofs::References::reads_behind, crate::proofs::References::reads_even))]
pub(crate) fn read_offset(most: u64, word: &[u8]) -> Option<u64>
    requires { 1 ≤ most }
    ensures { Reads script_offset_text (IsUpTo most) word.now result }
{
    match reference(word) {
        Some(rest) => read_slice(most, rest),
        None => read_among(even(most), word),
    }
}

#[tactic(auto, using(crate::proofs::Slots::slice_none, crate::proofs::Slots::slice_read))]
fn read_slice(most: u64, rest: &[u8]) -> Option<u64>
    requires { 1 ≤ most }
    ensures { Reads slice_text (IsOddUpTo most) rest.now result }
{
    match read_up_to((most - 1) / 2, rest) {
        Some(receipt) => Some(receipt * 2 + 1),
        None => None,
    }
}

/// Whether the spelling of an offset up to this one begins with these bytes.
#[tactic(auto, using(crate::proofs::References::begins_behind, crate::proofs::References::behind_begins, crate::proofs::References::begins_even, crate::proofs::References::even_begins))]
pub(crate) fn begins_offset(most: u64, word: &[u8]) -> bool
    requires { 1 ≤ most }
    ensures { IsTrue result ↔ Begins (Spells script_offset_text (IsUpTo most)) word.now }
{
    match reference(word) {
        Some(rest) => begins_slice(most, rest),
        None => begins_among(even(most), word),
    }
}

#[tactic(auto, using(crate::proofs::Slots::begins_slice, crate::proofs::Slots::slice_begins))]
fn begins_slice(most: u64, rest: &[u8]) -> bool
    requires { 1 ≤ most }
    ensures { IsTrue result ↔ Begins (Spells slice_text (IsOddUpTo most)) rest.now }
{
    begins_up_to((most - 1) / 2, rest)
}
