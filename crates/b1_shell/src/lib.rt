//! The program: its words, what it reads, what it writes, and its status.
#![tactic(auto)]

mod answer;
mod checking;
mod forms;
mod lines;
mod reading;
mod running;
mod stalls;
mod texts;
mod threaded;

ghost use Rattle.std.specs.Prelude.{◌≡◌, ◌≢◌, ◌<◌, ◌≤◌, ◌⊎◌, ℕ, length, IfOk, IfErr};
ghost use Rattle.b1_io.specs.Streams.{Rose, Took, TookSuch};
ghost use Rattle.b1_shell.specs.Answers.{Says, status};
ghost use Rattle.b1_shell.specs.Reads.{IsRead};
ghost use Rattle.b1_shell.specs.declared.forms.Form.TheVariants.{Asm, Check, Dump, Migrate, Play};
ghost use Rattle.b1_shell.specs.Forms.{AsksNothing};
ghost use Rattle.b1_shell.specs.Ends.{spelled, Completes, TellsUsage, TellsInput, ReadsToEnd};
ghost use Rattle.b1_shell.specs.Runs.{RunCompletes, TellsRun, TellsSoak};
ghost use Rattle.b1_shell.specs.Threads as threads;
ghost use Rattle.b1_shell.specs.declared.threaded.Threaded.TheVariants.{Run, Soak};
ghost use Rattle.b1_shell.specs.declared.Unsaid.TheVariants.{Fault, Memory};

use answer::answer_play;
use b1_edge::Gate;
use b1_errs::Cause;
use b1_input::Input;
use b1_io::{Sink, Source, write_all};
use b1_model::{MOST_CHECKED, MOST_SCRIPT, MOST_TEXT};
use b1_soak::soak;
use checking::answer_check;
pub use forms::Form;
use forms::form_of;
use lines::bad_line;
use reading::read_to_end;
use running::read_and_run;
use std::alloc::{AllocError, Global};
use std::sync::Wait;
use std::thread::Threads;
use texts::{answer_asm, answer_dump, answer_migrate};
pub use threaded::Threaded;
use threaded::threaded_of;

/// Which text is written.
#[derive(Clone, Copy, Debug)]
pub enum Said {
    /// What was asked for.
    Done,
    /// Why the input is refused.
    Bad,
    /// That a script stalls, and where.
    Stalled,
    /// Where a report is not legal.
    Broken,
}

/// Why nothing is written.
#[derive(Clone, Copy, Debug)]
pub(crate) enum Unsaid {
    /// A read failed.
    Fault,
    /// Memory ran out.
    Memory,
}

impl From<AllocError> for Unsaid {
    ghost from_gives = { λ _ e. e ≡ Memory };

    fn from(_e: AllocError) -> Unsaid {
        Unsaid::Memory
    }
}

// Reads the source to its end, and makes the whole text. A script is taken in pieces.
fn read_and_answer<S: Source>(
    alloc: Global,
    form: Form,
    source: &mut S,
) -> Result<(Said, Vec<u8>), Unsaid>
    ensures read { IfOk result (λ r.
        IsRead (Says form) form (S.left source.old) (S.left source.new) r.0 r.1.items) }
    ensures fault { IfErr result (λ e. e ≡ Fault
        → Rose (S.faults source.old) (S.faults source.new)) }
{
    match form {
        Form::Asm => read_and_assemble(alloc, source),
        Form::Play => read_and_play(alloc, source),
        Form::Dump => read_and_dump(alloc, source),
        Form::Check => read_and_check(alloc, source),
        Form::Migrate => read_and_migrate(alloc, source),
    }
}

// Reads the source for the word `asm`, and makes the whole text.
fn read_and_assemble<S: Source>(alloc: Global, source: &mut S) -> Result<(Said, Vec<u8>), Unsaid>
    ensures read { IfOk result (λ r.
        IsRead (Says Asm) Asm (S.left source.old) (S.left source.new) r.0 r.1.items) }
    ensures fault { IfErr result (λ e. e ≡ Fault
        → Rose (S.faults source.old) (S.faults source.new)) }
{
    match read_to_end(source, Vec::new(alloc), MOST_TEXT)? {
        Some(bytes) => Ok(answer_asm(alloc, &bytes)?),
        None => Ok((Said::Bad, bad_line(alloc, MOST_TEXT, Cause::Long)?)),
    }
}

// Reads the source for the word `play`, and makes the whole text.
fn read_and_play<S: Source>(alloc: Global, source: &mut S) -> Result<(Said, Vec<u8>), Unsaid>
    ensures read { IfOk result (λ r.
        IsRead (Says Play) Play (S.left source.old) (S.left source.new) r.0 r.1.items) }
    ensures fault { IfErr result (λ e. e ≡ Fault
        → Rose (S.faults source.old) (S.faults source.new)) }
{
    match read_to_end(source, Input::make(alloc), MOST_SCRIPT)? {
        Some(input) => Ok(answer_play(alloc, input)?),
        None => Ok((Said::Bad, bad_line(alloc, MOST_SCRIPT, Cause::Long)?)),
    }
}

// Reads the source for the word `dump`, and makes the whole text.
fn read_and_dump<S: Source>(alloc: Global, source: &mut S) -> Result<(Said, Vec<u8>), Unsaid>
    ensures read { IfOk result (λ r.
        IsRead (Says Dump) Dump (S.left source.old) (S.left source.new) r.0 r.1.items) }
    ensures fault { IfErr result (λ e. e ≡ Fault
        → Rose (S.faults source.old) (S.faults source.new)) }
{
    match read_to_end(source, Input::make(alloc), MOST_SCRIPT)? {
        Some(input) => Ok(answer_dump(alloc, input)?),
        None => Ok((Said::Bad, bad_line(alloc, MOST_SCRIPT, Cause::Long)?)),
    }
}

// Reads the source for the word `migrate`, and makes the whole text.
fn read_and_migrate<S: Source>(alloc: Global, source: &mut S) -> Result<(Said, Vec<u8>), Unsaid>
    ensures read { IfOk result (λ r.
        IsRead (Says Migrate) Migrate (S.left source.old) (S.left source.new) r.0 r.1.items) }
    ensures fault { IfErr result (λ e. e ≡ Fault
        → Rose (S.faults source.old) (S.faults source.new)) }
{
    match read_to_end(source, Input::make(alloc), MOST_SCRIPT)? {
        Some(input) => Ok(answer_migrate(alloc, input)?),
        None => Ok((Said::Bad, bad_line(alloc, MOST_SCRIPT, Cause::Long)?)),
    }
}

// Reads the source for the word `check`, and makes the whole text.
fn read_and_check<S: Source>(alloc: Global, source: &mut S) -> Result<(Said, Vec<u8>), Unsaid>
    ensures read { IfOk result (λ r.
        IsRead (Says Check) Check (S.left source.old) (S.left source.new) r.0 r.1.items) }
    ensures fault { IfErr result (λ e. e ≡ Fault
        → Rose (S.faults source.old) (S.faults source.new)) }
{
    match read_to_end(source, Input::make(alloc), MOST_CHECKED)? {
        Some(input) => Ok(answer_check(alloc, input)?),
        None => Ok((Said::Bad, bad_line(alloc, MOST_CHECKED, Cause::Long)?)),
    }
}

/// The status where a text was written whole.
fn status_of(said: Said) -> u8
    ensures { result ≡ status said }
{
    match said {
        Said::Done => 0,
        Said::Bad => 2,
        Said::Stalled => 3,
        Said::Broken => 7,
    }
}

// Writes a text, and gives the status of what it says, or that of a write that failed.
fn write_said<K: Sink>(sink: &mut K, said: Said, text: &[u8]) -> u8
    ensures known { (result ≡ status said) ⊎ (result ≡ 5) }
    ensures whole { result ≢ 5 → Took (K.taken sink.old) (K.taken sink.new) text.now }
    ensures part { result ≡ 5 → TookSuch (K.taken sink.old) (K.taken sink.new) text.now (λ n.
        n < length text.now) }
    ensures fault { result ≡ 5 → Rose (K.faults sink.old) (K.faults sink.new) }
{
    match write_all(sink, text) {
        Ok(()) => status_of(said),
        Err(_) => 5,
    }
}

// Does what the words say, on one thread.
fn run<S: Source, K: Sink>(alloc: Global, words: &[String], source: &mut S, sink: &mut K) -> u8
    ensures known { result ≤ 7 }
    ensures unread { AsksNothing (spelled words.now) → source.new ≡ source.old }
    ensures unwritten { result ≡ 4 → sink.new ≡ sink.old }
    ensures memory { result ≡ 6 → sink.new ≡ sink.old }
    ensures read_fault { result ≡ 4 → Rose (S.faults source.old) (S.faults source.new) }
    ensures write_fault { result ≡ 5 → Rose (K.faults sink.old) (K.faults sink.new) }
    ensures usage { TellsUsage (spelled words.now) (K.taken sink.old) (K.taken sink.new) result }
    ensures ends { ReadsToEnd (spelled words.now) (S.left source.old) (S.left source.new) result }
    ensures input { TellsInput (spelled words.now) (S.left source.old) (K.taken sink.old)
        (K.taken sink.new) result }
    ensures complete { (Rose (S.faults source.old) (S.faults source.new) → ⊥)
        → (Rose (K.faults sink.old) (K.faults sink.new) → ⊥)
        → Completes (spelled words.now) (S.left source.old) result }
{
    let Some(form) = form_of(words) else {
        return match write_all(
            sink,
            "usage: bus1sh play|run|asm|dump|check|migrate|soak N\n".as_bytes(),
        ) {
            Ok(()) => 1,
            Err(_) => 5,
        };
    };
    match read_and_answer(alloc, form, source) {
        Ok((said, text)) => write_said(sink, said, &text),
        Err(Unsaid::Fault) => 4,
        Err(Unsaid::Memory) => 6,
    }
}

/// Does what the words say, on one thread, and returns the status:
///
/// - 0: what was asked for was done, and written: with `play` the source held a script, which was played, and its
///   report was written; with `asm` it held the text of a script, which was written; with `dump` a script, whose text
///   was written; with `migrate` a script, and the script of version 2 that it becomes was written; with `check` a script
///   and its report, which is legal, and `legal` was written;
/// - 1: the words are none of these; the usage line was written;
/// - 2: the source held nothing of the form, or with `migrate` a script that is too long with cookies; a line with the
///   place and the cause of the first fault was written;
/// - 3: with `play`, the script stalls: all peers whose commands aren't at their end wait for messages that nobody sends;
///   a line that tells them was written, and behind it the report of what was reached;
/// - 4: a read failed; nothing was written;
/// - 5: a write failed; a part of the text was written;
/// - 6: memory ran out; nothing was written;
/// - 7: with `check`, the report is not legal; a line that says where was written.
///
/// The source is read to its end, or one byte past the most that the input may have (`play`, `dump` and `migrate`
/// 16,777,216 bytes, `asm` 67,108,864, `check` 268,435,456), before anything is answered; a script is taken in pieces, and
/// read once.
/// Each text is made whole before it is written. `docs/FORMATS.md` tells the forms.
pub fn quiet<S: Source, K: Sink>(
    alloc: Global,
    words: &[String],
    source: &mut S,
    sink: &mut K,
) -> u8
    ensures known { result ≤ 7 }
    ensures unread { AsksNothing (spelled words.now) → source.new ≡ source.old }
    ensures unwritten { result ≡ 4 → sink.new ≡ sink.old }
    ensures memory { result ≡ 6 → sink.new ≡ sink.old }
    ensures read_fault { result ≡ 4 → Rose (S.faults source.old) (S.faults source.new) }
    ensures write_fault { result ≡ 5 → Rose (K.faults sink.old) (K.faults sink.new) }
    ensures usage { TellsUsage (spelled words.now) (K.taken sink.old) (K.taken sink.new) result }
    ensures ends { ReadsToEnd (spelled words.now) (S.left source.old) (S.left source.new) result }
    ensures input { TellsInput (spelled words.now) (S.left source.old) (K.taken sink.old)
        (K.taken sink.new) result }
    ensures complete { (Rose (S.faults source.old) (S.faults source.new) → ⊥)
        → (Rose (K.faults sink.old) (K.faults sink.new) → ⊥)
        → Completes (spelled words.now) (S.left source.old) result }
{
    run(alloc, words, source, sink)
}

/// All that the program does: what `quiet` does, and with the words `run` and `soak N` what needs threads.
///
/// - `run`: the source holds a script; its commands are run on threads in rounds, its turns left out, and then the drain;
///   the report of what was reached is written. Statuses as `quiet` has them for `play`.
/// - `soak N`: nothing is read; the script that is made of the number N (decimal, at most 4,294,967,295) is run, and one
///   line tells what was counted in its record.
///
/// With these two words it returns if the waits of its threads end. The gate is called at each point that a driver comes
/// to. `docs/FORMATS.md` tells the forms.
pub fn top<R: Threads + Wait + Sync, S: Source, K: Sink, G: Gate + Sync>(
    rt: &R,
    alloc: Global,
    words: &[String],
    source: &mut S,
    sink: &mut K,
    gate: &G,
) -> u8
    ensures known { result ≤ 7 }
    ensures unread { AsksNothing (spelled words.now) → threads.AsksNothing (spelled words.now)
        → source.new ≡ source.old }
    ensures soak_unread { (n : ℕ) → threads.Asks (spelled words.now) (Soak n)
        → source.new ≡ source.old }
    ensures unwritten { result ≡ 4 → sink.new ≡ sink.old }
    ensures memory { result ≡ 6 → sink.new ≡ sink.old }
    ensures read_fault { result ≡ 4 → Rose (S.faults source.old) (S.faults source.new) }
    ensures write_fault { result ≡ 5 → Rose (K.faults sink.old) (K.faults sink.new) }
    ensures usage { threads.AsksNothing (spelled words.now)
        → TellsUsage (spelled words.now) (K.taken sink.old) (K.taken sink.new) result }
    ensures ends { threads.AsksNothing (spelled words.now)
        → ReadsToEnd (spelled words.now) (S.left source.old) (S.left source.new) result }
    ensures input { threads.AsksNothing (spelled words.now)
        → TellsInput (spelled words.now) (S.left source.old) (K.taken sink.old)
        (K.taken sink.new) result }
    ensures complete { (Rose (S.faults source.old) (S.faults source.new) → ⊥)
        → (Rose (K.faults sink.old) (K.faults sink.new) → ⊥)
        → threads.AsksNothing (spelled words.now)
        → Completes (spelled words.now) (S.left source.old) result }
    ensures run { threads.Asks (spelled words.now) Run
        → TellsRun (S.left source.old) (S.left source.new) (K.taken sink.old)
        (K.taken sink.new) result }
    ensures run_complete { (Rose (S.faults source.old) (S.faults source.new) → ⊥)
        → (Rose (K.faults sink.old) (K.faults sink.new) → ⊥)
        → threads.Asks (spelled words.now) Run → RunCompletes (S.left source.old) result }
    ensures soak { (n : ℕ) → threads.Asks (spelled words.now) (Soak n)
        → TellsSoak n (K.taken sink.old) (K.taken sink.new) result }
{
    match threaded_of(words) {
        None => run(alloc, words, source, sink),
        Some(Threaded::Run) => write_run(rt, alloc, source, sink, gate),
        Some(Threaded::Soak { number }) => write_soak(rt, alloc, number, sink, gate),
    }
}

// Runs the script that the source holds, and writes what it comes to.
fn write_run<R: Threads + Wait + Sync, S: Source, K: Sink, G: Gate + Sync>(
    rt: &R,
    alloc: Global,
    source: &mut S,
    sink: &mut K,
    gate: &G,
) -> u8
    ensures known { result ≤ 7 }
    ensures unwritten { result ≡ 4 → sink.new ≡ sink.old }
    ensures memory { result ≡ 6 → sink.new ≡ sink.old }
    ensures read_fault { result ≡ 4 → Rose (S.faults source.old) (S.faults source.new) }
    ensures write_fault { result ≡ 5 → Rose (K.faults sink.old) (K.faults sink.new) }
    ensures tells { TellsRun (S.left source.old) (S.left source.new) (K.taken sink.old)
        (K.taken sink.new) result }
    ensures complete { (Rose (S.faults source.old) (S.faults source.new) → ⊥)
        → (Rose (K.faults sink.old) (K.faults sink.new) → ⊥)
        → RunCompletes (S.left source.old) result }
{
    match read_and_run(rt, alloc, source, gate) {
        Ok((said, text)) => write_said(sink, said, &text),
        Err(Unsaid::Fault) => 4,
        Err(Unsaid::Memory) => 6,
    }
}

// Runs the script of a number, and writes what was counted.
fn write_soak<R: Threads + Wait + Sync, K: Sink, G: Gate + Sync>(
    rt: &R,
    alloc: Global,
    number: u32,
    sink: &mut K,
    gate: &G,
) -> u8
    ensures known { result ≤ 7 }
    ensures unread { result ≢ 4 }
    ensures memory { result ≡ 6 → sink.new ≡ sink.old }
    ensures write_fault { result ≡ 5 → Rose (K.faults sink.old) (K.faults sink.new) }
    ensures tells { TellsSoak number (K.taken sink.old) (K.taken sink.new) result }
{
    match soak(rt, alloc, gate, number) {
        Ok(line) => write_said(sink, Said::Done, &line),
        Err(_) => 6,
    }
}
