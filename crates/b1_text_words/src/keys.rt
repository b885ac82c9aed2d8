ghost use Rattle.std.specs.Prelude.{◌-◌, ◌^◌};
ghost use Rattle.b1_text_words.specs.Items.{IsPair, IsUpTo, IsNoDigit};
ghost use Rattle.std.specs.Fmt.{decimal};
ghost use Rattle.b1_text_words.specs.Numbers.{pair_text};
ghost use Rattle.b1_text_words.specs.Words.{Reads};

use crate::decimals::read_up_to;
use crate::splitting::split;

/// Two numbers with a separator between them.
pub(crate) fn read_pair(separator: u8, word: &[u8]) -> Option<(u32, u32)>
    requires { IsNoDigit separator }
    ensures { Reads (pair_text separator) IsPair word.now result }
{
    let Some((first, second)) = split(word, separator) else {
        return None;
    };
    let Some(first) = read_small(first) else {
        return None;
    };
    match read_small(second) {
        Some(second) => Some((first, second)),
        None => None,
    }
}

/// A number of 32 bits.
pub(crate) fn read_small(word: &[u8]) -> Option<u32>
    ensures { Reads decimal (IsUpTo (2 ^ 32 - 1)) word.now result }
{
    match read_up_to(u32::MAX as u64, word) {
        Some(number) => Some(number as u32),
        None => None,
    }
}
