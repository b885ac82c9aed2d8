ghost use Rattle.std.specs.Prelude.{◌≡◌};
ghost use Rattle.b1_report_lines.specs.Reading.{Gives, split_once, strip, or_word, only};
ghost use Rattle.b1_report_lines.specs.Seen.{parts_seen, rest_seen, kind_seen, ended_why};

use crate::unread::{Stop, Unread};
use b1_text_words::split;

/// What stands before the first such byte, and what stands behind it.
pub(crate) fn halves(bytes: &[u8], mark: u8) -> Option<(&[u8], &[u8])>
    ensures { parts_seen result ≡ split_once mark bytes.now }
{
    split(bytes, mark)
}

/// What stands behind a word.
pub(crate) fn after<'a>(bytes: &'a [u8], word: &str) -> Result<&'a [u8], Stop>
    ensures { rest_seen result ≡ strip word.now bytes.now }
{
    let letters = word.as_bytes();
    for (at, letter) in letters.iter().enumerate() {
        match bytes.get(at) {
            Some(byte) if byte == letter => {}
            Some(_) => return Err(Stop::Broken),
            None => return Err(Stop::Cut),
        }
    }
    Ok(&bytes[letters.len()..])
}

/// One more word that may stand at the front, and what it tells.
pub(crate) fn or_after<'a, K: Copy>(
    found: Result<(K, &'a [u8]), Stop>,
    kind: K,
    bytes: &'a [u8],
    word: &str,
) -> Result<(K, &'a [u8]), Stop>
    ensures { kind_seen result ≡ or_word (kind_seen found.entry) kind word.now bytes.now }
{
    match found {
        Err(Stop::Broken) => {}
        other => return other,
    }
    let rest = after(bytes, word)?;
    Ok((kind, rest))
}

/// A value behind which nothing stands.
pub(crate) fn alone<T: Drop>(value: T, bytes: &[u8]) -> Result<T, Unread>
    ensures { Gives (λ x. x) result (only value bytes.now) }
{
    if bytes.is_empty() {
        Ok(value)
    } else {
        Err(Unread::Stopped(Stop::Broken))
    }
}

/// Why a part was not read, where its end is known.
pub(crate) fn ended(why: Unread) -> Unread
    ensures { result ≡ ended_why why }
{
    match why {
        Unread::Stopped(_) => Unread::Stopped(Stop::Broken),
        Unread::Memory => Unread::Memory,
    }
}
