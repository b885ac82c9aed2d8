ghost use Rattle.std.specs.Prelude.{◌≡◌, ◌∷◌, ◌++◌, ◌↔◌, IsTrue, IfSome, IfNone};
ghost use Rattle.b1_text_words.specs.Words.{IsFree, Begins};

/// What stands before the first such byte, and what stands behind it; `None` where no such byte stands in the bytes.
pub fn split(bytes: &[u8], separator: u8) -> Option<(&[u8], &[u8])>
    ensures parts { IfSome result (λ x. bytes.now ≡ x.0.now ++ separator ∷ x.1.now) }
    ensures first { IfSome result (λ x. IsFree separator x.0.now) }
    ensures free { IfNone result (IsFree separator bytes.now) }
{
    for (at, byte) in bytes.iter().enumerate() {
        if *byte == separator {
            return Some((&bytes[..at], &bytes[at + 1..]));
        }
    }
    None
}

/// Whether the bytes are this text.
pub fn is_text(text: &str, word: &[u8]) -> bool
    ensures { IsTrue result ↔ (word.now ≡ text.now) }
{
    word == text.as_bytes()
}

/// Whether a text begins with these bytes.
pub fn begins_text(text: &str, word: &[u8]) -> bool
    ensures { IsTrue result ↔ Begins (λ w. w ≡ text.now) word.now }
{
    text.as_bytes().starts_with(word)
}
