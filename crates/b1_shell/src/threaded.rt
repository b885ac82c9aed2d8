// What the program's words ask to be done on threads.
ghost use Rattle.std.specs.Prelude.{◌≡◌, ◌<◌, ◌^◌, ℕ, map, string_bytes, IfNone, IfSome};
ghost use Rattle.std.specs.Fmt.{decimal};
ghost use Rattle.b1_shell.specs.declared.threaded.Threaded.TheVariants.{Soak};
ghost use Rattle.b1_shell.specs.Threads as threads;

use b1_text_words::{Item, read_item};

/// What is done on threads.
#[derive(Clone, Copy, Debug, PartialEq, Eq)]
pub enum Threaded {
    /// A script is run, and the report is written.
    Run,
    /// The script that is made of a number is run, and a summary is written.
    Soak { number: u32 },
}

/// What the words ask to be done on threads; `None` where they ask for nothing of the kind.
pub fn threaded_of(words: &[String]) -> Option<Threaded>
    ensures asked { IfSome result (λ t. threads.Asks (map string_bytes words.now) t) }
    ensures nothing { IfNone result (threads.AsksNothing (map string_bytes words.now)) }
{
    match words {
        [word] => match word.as_str() {
            "run" => Some(Threaded::Run),
            _ => None,
        },
        [word, number] => match word.as_str() {
            "soak" => soak_of(number),
            _ => None,
        },
        _ => None,
    }
}

// The number behind `soak`, in decimal digits and at most 4,294,967,295.
fn soak_of(number: &String) -> Option<Threaded>
    ensures asked { IfSome result (λ t. (n : ℕ) × (t ≡ Soak n) × (n < 2 ^ 32)
        × (string_bytes number.now ≡ decimal n)) }
    ensures nothing { IfNone result ((n : ℕ) → n < 2 ^ 32 → string_bytes number.now ≡ decimal n → ⊥) }
{
    let number = read_item(Item::UpTo(u64::from(u32::MAX)), number.as_bytes())?;
    Some(Threaded::Soak {
        number: number as u32,
    })
}
