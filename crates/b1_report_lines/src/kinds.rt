/// The forms of answers, each with its word at the front.
#[derive(Clone, Copy, Debug)]
pub(crate) enum AnswerKind {
    Sent,
    Message,
    Destroyed,
    Released,
    Done,
    Info,
    Refused,
    Reset,
}
