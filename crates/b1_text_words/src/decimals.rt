ghost use Rattle.std.specs.Prelude.{◌≡◌, ◌≢◌, ◌<◌, ◌≤◌, ◌^◌, ◌↔◌, IsTrue, SomeIff, slice_index};
ghost use Rattle.std.specs.Str.Parse.{IsNumeral, digits_value};
ghost use Rattle.std.specs.Fmt.{decimal};
ghost use Rattle.b1_text_words.specs.Items.{IsAmong, IsUpTo};
ghost use Rattle.b1_text_words.specs.Digits.{has_sign_or_zero, HasAmong, Reaches};
ghost use Rattle.b1_text_words.specs.Words.{Spells, Reads, Begins};

use crate::among::Numbers;

/// The number that decimal digits spell.
#[tactic(auto, using(crate::proofs::Digits::none_written, crate::proofs::Digits::digits_written, crate::proofs::Digits::first_no_plus))]
pub(crate) fn read_decimal(word: &[u8]) -> Option<u64>
    ensures { Reads decimal (λ n. n < 2 ^ 64) word.now result }
{
    if has_no_number(word) {
        return None;
    }
    read_digits(word)
}

/// Whether nothing stands there, or a plus, or a zero before another byte.
fn has_no_number(word: &[u8]) -> bool
    ensures { result ≡ has_sign_or_zero word.now }
{
    match word {
        [] => true,
        [first, rest @ ..] => *first == b'+' || (*first == b'0' && !rest.is_empty()),
    }
}

/// The number that digits spell, with zeros before them or none.
#[tactic(auto, using(crate::proofs::Digits::no_text, std::proofs::lemmas::Str::Parse::without_leading_plus_none))]
fn read_digits(word: &[u8]) -> Option<u64>
    requires { slice_index word.now 0 ≢ 43 }
    ensures { SomeIff result (IsNumeral 10 word.now
        × (digits_value 10 word.now < 2 ^ 64)) (digits_value 10 word.now) }
{
    let Ok(text) = std::str::from_utf8(word) else {
        return None;
    };
    match text.parse::<u64>() {
        Ok(number) => Some(number),
        Err(_) => None,
    }
}

/// The number that decimal digits spell, where it is at most this one.
pub(crate) fn read_up_to(most: u64, word: &[u8]) -> Option<u64>
    ensures { Reads decimal (IsUpTo most) word.now result }
{
    match read_decimal(word) {
        Some(number) if number <= most => Some(number),
        _ => None,
    }
}

/// Whether decimal digits spell a number up to this one.
#[tactic(auto, using(crate::proofs::Languages::spelled_some))]
pub(crate) fn fits_up_to(most: u64, word: &[u8]) -> bool
    ensures { IsTrue result ↔ Spells decimal (IsUpTo most) word.now }
{
    read_up_to(most, word).is_some()
}

/// Whether a number is one of these.
pub(crate) fn is_among(numbers: Numbers, number: u64) -> bool
    ensures { IsTrue result ↔ IsAmong numbers number }
{
    numbers.least <= number
        && number <= numbers.most
        && (number - numbers.least) % numbers.step == 0
}

/// The number that decimal digits spell, where it is one of these.
pub(crate) fn read_among(numbers: Numbers, word: &[u8]) -> Option<u64>
    ensures { Reads decimal (IsAmong numbers) word.now result }
{
    match read_decimal(word) {
        Some(number) if is_among(numbers, number) => Some(number),
        _ => None,
    }
}

/// Whether the digits of one of these begin with the bytes.
#[tactic(auto, using(crate::proofs::Prefixes::no_digits, crate::proofs::Prefixes::nothing_begins, crate::proofs::Prefixes::zero_begins, crate::proofs::Prefixes::zero_least, crate::proofs::Prefixes::reaches_begins, crate::proofs::Prefixes::begins_reaches))]
pub(crate) fn begins_among(numbers: Numbers, word: &[u8]) -> bool
    ensures { IsTrue result ↔ Begins (Spells decimal (IsAmong numbers)) word.now }
{
    if word.is_empty() {
        return true;
    }
    match read_decimal(word) {
        None => false,
        Some(0) => numbers.least == 0,
        Some(number) => reaches(numbers, number, 1),
    }
}

/// Whether the digits of a number up to this one begin with the bytes.
pub(crate) fn begins_up_to(most: u64, word: &[u8]) -> bool
    ensures { IsTrue result ↔ Begins (Spells decimal (IsUpTo most)) word.now }
{
    begins_among(
        Numbers {
            least: 0,
            most,
            step: 1,
        },
        word,
    )
}

#[tactic(auto, using(crate::proofs::Amongs::above_all, crate::proofs::Amongs::first_in, crate::proofs::Amongs::first_near, crate::proofs::Amongs::here_in, crate::proofs::Amongs::next_in, crate::proofs::Amongs::next_near))]
fn has_among(numbers: Numbers, low: u64, width: u64) -> bool
    requires { 1 ≤ width }
    ensures { IsTrue result ↔ HasAmong numbers low width }
{
    if low > numbers.most {
        return false;
    }
    if low <= numbers.least {
        return numbers.least - low < width;
    }
    let over = (low - numbers.least) % numbers.step;
    over == 0 || (numbers.step - over < width && numbers.step - over <= numbers.most - low)
}

#[tactic(auto, using(crate::proofs::Amongs::reaches_now, crate::proofs::Amongs::reaches_later, crate::proofs::Amongs::reaches_either))]
fn reaches(numbers: Numbers, low: u64, width: u64) -> bool
    requires low { 1 ≤ low }
    requires width { 1 ≤ width }
    requires within { width ≤ low }
    ensures { IsTrue result ↔ Reaches numbers low width }
{
    has_among(numbers, low, width)
        || (low <= numbers.most / 10 && reaches(numbers, low * 10, width * 10))
}
