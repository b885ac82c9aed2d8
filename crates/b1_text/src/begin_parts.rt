ghost use Rattle.std.specs.Prelude.{◌≡◌, ◌++◌, ◌↔◌, IsTrue};
ghost use Rattle.std.specs.Fmt.{decimal};
ghost use Rattle.b1_text_words.specs.Items.{item_text, IsItem, AreItems};
ghost use Rattle.b1_text_words.specs.Numbers.{list_text};
ghost use Rattle.b1_text_words.specs.Words.{Spells, Begins};

use crate::fields::behind;
use b1_text_words::{Item, Numbers, begins_item, begins_list, begins_text};

/// Whether a text of this word and an item begins with these bytes.
pub fn begins_one(word: &str, item: Item, line: &[u8]) -> bool
    ensures { IsTrue result ↔ Begins (Spells (λ n. word.now
        ++ item_text item n) (IsItem item)) line.now }
{
    match behind(word, line) {
        Some(rest) => begins_item(item, rest),
        None => begins_text(word, line),
    }
}

/// Whether a text of this word and a list of at most so many begins with these bytes.
pub fn begins_several(word: &str, item: Item, most: u64, line: &[u8]) -> bool
    ensures { IsTrue result ↔ Begins (Spells (λ ns. word.now
        ++ list_text (item_text item) ns) (AreItems item most)) line.now }
{
    match behind(word, line) {
        Some(rest) => begins_list(item, most, rest),
        None => begins_text(word, line),
    }
}

/// Whether this number begins with these bytes.
pub fn begins_decimal(number: u64, word: &[u8]) -> bool
    ensures { IsTrue result ↔ Begins (Spells decimal (λ n. n ≡ number)) word.now }
{
    let numbers = Numbers {
        least: number,
        most: number,
        step: 1,
    };
    begins_item(Item::Among(numbers), word)
}

/// Whether a text of this word and this number begins with these bytes.
pub fn begins_number(word: &str, number: u64, line: &[u8]) -> bool
    ensures { IsTrue result ↔ Begins (Spells (λ n. word.now ++ decimal n) (λ n. n
        ≡ number)) line.now }
{
    match behind(word, line) {
        Some(rest) => begins_decimal(number, rest),
        None => begins_text(word, line),
    }
}
