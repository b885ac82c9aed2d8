// What the program's words ask for.
ghost use Rattle.std.specs.Prelude.{◌≡◌, map, string_bytes, IfNone, IfSome};
ghost use Rattle.b1_shell.specs.Forms as forms;

/// What is done with the input.
#[derive(Clone, Copy, Debug, PartialEq, Eq)]
pub enum Form {
    /// A script is played, and the report is written.
    Play,
    /// A script is made of its text.
    Asm,
    /// The text of a script is written.
    Dump,
    /// The report behind a script is judged.
    Check,
    /// The script of version 2 that a script becomes is written.
    Migrate,
}

/// The form that the words ask for; `None` where they ask for none.
pub fn form_of(words: &[String]) -> Option<Form>
    ensures asked { IfSome result (λ form. forms.Asks (map string_bytes words.now) form) }
    ensures nothing { IfNone result (forms.AsksNothing (map string_bytes words.now)) }
{
    match words {
        [word] => form_of_word(word),
        _ => None,
    }
}

/// The form whose word it is.
fn form_of_word(word: &String) -> Option<Form>
    ensures asked { IfSome result (λ form. string_bytes word.now ≡ forms.word_of form) }
    ensures nothing { IfNone result ((form : Form) → string_bytes word.now ≡ forms.word_of form
        → ⊥) }
{
    match word.as_str() {
        "play" => Some(Form::Play),
        "asm" => Some(Form::Asm),
        "dump" => Some(Form::Dump),
        "check" => Some(Form::Check),
        "migrate" => Some(Form::Migrate),
        _ => None,
    }
}
