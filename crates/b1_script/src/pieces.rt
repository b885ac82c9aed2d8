ghost use Rattle.std.specs.Prelude.{◌≡◌, ◌≢◌, ◌⊎◌, ◌≤◌, ◌<◌, ◌↔◌, ◌++◌, ℕ, [], false, true, length, take, vec_len, IfOk, IfErr, IfNone, IfSome, IsTrue, MatchOption, Err, Ok, OnErr, OnOk};
ghost use Rattle.b1_errs.specs.declared.NotRead.TheVariants.{Memory};
ghost use Rattle.b1_records.specs.Reading.{Gives, IsFault};
ghost use Rattle.b1_script.specs.declared.script.Script.{Script as Scripts};
ghost use Rattle.b1_script.specs.Pieces.{HasNoneBefore, HasNoShorter, IsWholeScript, told, told_end};
ghost use Rattle.b1_script.specs.Reading.{bad_script};
ghost use Rattle.b1_script.specs.Spelling.{IsWhole};

use crate::reading::{LEN_PLACE, read, read_whole};
use crate::script::Script;
use b1_errs::NotRead;
use b1_wire::take_u32;
use std::alloc::{AllocError, Global};
use std::marker::Model;

/// The end of the field that tells a script's length.
const TOLD_END: usize = LEN_PLACE + 4;

/// A reader of one script whose bytes come in pieces. It keeps them until they are as many as their header tells, and then
/// reads them once. Bytes that break a rule it keeps too, until it is asked what they are.
#[derive(Drop)]
pub struct ScriptReader {
    bytes: Vec<u8>,
    script: Option<Script>,
    wanting: bool,
}

impl Model for ScriptReader {
    ghost use Rattle.std.specs.Prelude.{◌≡◌, false, IfNone, IfSome};
    ghost use Rattle.b1_script.specs.Pieces.{HasNoShorter, IsWholeScript, Taken};
    ghost use Rattle.b1_script.specs.Spelling.{IsWhole};

    ghost Value = { Taken };

    ghost view = { λ r. record { bytes = r.bytes.items; wanting = r.wanting } };

    ghost invariant = { λ r. record {
      found : IfSome r.script (λ s. IsWhole r.bytes.items s);
      unfound : r.wanting ≡ false → IfNone r.script (¬ IsWholeScript r.bytes.items);
      shorter : r.wanting ≡ false → HasNoShorter r.bytes.items;
    } };
}

/// The length that the header at the front of the bytes tells; `None` where they end before it.
fn told_length(bytes: &[u8]) -> Option<usize>
    ensures { MatchOption result (length bytes.now < told_end)
        (λ len. (told_end ≤ length bytes.now) × (len ≡ told bytes.now)) }
{
    match take_u32(bytes, LEN_PLACE) {
        Ok(len) => Some(len as usize),
        Err(_) => None,
    }
}

/// How many bytes there are where they may next be a whole script; `None` where they never are, however they go on.
fn next_stop(bytes: &[u8]) -> Option<usize>
    ensures { MatchOption result ((stop : ℕ) → HasNoneBefore bytes.now stop)
        (λ stop. (length bytes.now < stop) × HasNoneBefore bytes.now stop) }
{
    match told_length(bytes) {
        None => Some(TOLD_END),
        Some(len) if bytes.len() < len => Some(len),
        Some(_) => None,
    }
}

/// How many bytes of a piece are taken at once: at least one, and none behind the next stop.
fn front_len(bytes: &[u8], piece: &[u8]) -> usize
    requires some { 0 < length piece.now }
    requires unfound { ¬ IsWholeScript bytes.now }
    requires shorter { HasNoShorter bytes.now }
    ensures within { result ≤ length piece.now }
    ensures some { 0 < result }
    ensures shorter { HasNoShorter (bytes.now ++ take result piece.now) }
{
    match next_stop(bytes) {
        Some(stop) => piece.len().min(stop - bytes.len()),
        None => piece.len(),
    }
}

/// Appends the front of a piece. How many bytes it was.
fn take_front(bytes: &mut Vec<u8>, piece: &[u8]) -> Result<usize, AllocError>
    requires some { 0 < length piece.now }
    requires unfound { ¬ IsWholeScript bytes.old.items }
    requires shorter { HasNoShorter bytes.old.items }
    ensures within { IfOk result (λ n. n ≤ length piece.now) }
    ensures some { IfOk result (λ n. 0 < n) }
    ensures bytes { IfOk result (λ n. bytes.new.items ≡ bytes.old.items ++ take n piece.now) }
    ensures shorter { OnOk result (HasNoShorter bytes.new.items) }
{
    let n = front_len(bytes, piece);
    bytes.extend_from_slice(&piece[..n])?;
    Ok(n)
}

/// The script that the bytes are; `None` where they are none, or don't tell their own length.
fn judged(alloc: Global, bytes: &[u8]) -> Result<Option<Script>, AllocError>
    ensures found { IfOk result (λ script. IfSome script (λ s. IsWhole bytes.now s)) }
    ensures unfound { IfOk result (λ script. IfNone script (¬ IsWholeScript bytes.now)) }
{
    if told_length(bytes) != Some(bytes.len()) {
        return Ok(None);
    }
    match read_whole(alloc, bytes) {
        Ok(script) => Ok(Some(script)),
        Err(NotRead::Bad { .. }) => Ok(None),
        Err(NotRead::Memory) => Err(AllocError),
    }
}

/// Bytes are one whole script at most.
fn are_one_script(bytes: &[u8])
    ensures { (s t : Scripts) → IsWhole bytes.now s → IsWhole bytes.now t → s ≡ t }
{
    let _ = bytes;
}

/// Appends a piece up to the end of the script, or all of it. How many bytes it was, and the script where it ended.
fn take_piece(bytes: &mut Vec<u8>, piece: &[u8]) -> Result<(usize, Option<Script>), AllocError>
    requires unfound { ¬ IsWholeScript bytes.old.items }
    requires shorter { HasNoShorter bytes.old.items }
    ensures within { IfOk result (λ r. r.0 ≤ length piece.now) }
    ensures bytes { IfOk result (λ r. bytes.new.items ≡ bytes.old.items ++ take r.0 piece.now) }
    ensures found { IfOk result (λ r. IfSome r.1 (λ s. IsWhole bytes.new.items s)) }
    ensures unfound { IfOk result (λ r. IfNone r.1 (¬ IsWholeScript bytes.new.items)) }
    ensures all { IfOk result (λ r. IfNone r.1 (r.0 ≡ length piece.now)) }
    ensures shorter { OnOk result (HasNoShorter bytes.new.items) }
{
    let mut taken = 0;
    while taken < piece.len() {
        taken += take_front(bytes, &piece[taken..])?;
        match judged(*bytes.allocator(), bytes)? {
            Some(script) => return Ok((taken, Some(script))),
            None => {}
        }
    }
    Ok((taken, None))
}

/// The first rule that is broken by bytes that are no whole script, and at whose front none stands.
fn fault_of(alloc: Global, bytes: &[u8]) -> NotRead
    requires unfound { ¬ IsWholeScript bytes.now }
    requires shorter { HasNoShorter bytes.now }
    ensures { IsFault result (bad_script bytes.now) }
{
    match read(alloc, bytes) {
        Ok(_) => unreachable!(),
        Err(why) => why,
    }
}

impl ScriptReader {
    /// A reader that has taken nothing.
    pub fn make(alloc: Global) -> ScriptReader
        ensures { result ≡ record { bytes = []; wanting = false } }
    {
        ScriptReader {
            bytes: Vec::new(alloc),
            script: None,
            wanting: false,
        }
    }

    /// Takes a piece: all of it, but where the script becomes whole within it, only up to the script's end. Returns how many
    /// bytes it took; a reader whose script is whole takes none. An error is want of memory, and the reader then answers
    /// nothing else. All pieces of a script together take the time of reading it once.
    pub fn feed(&mut self, piece: &[u8]) -> Result<usize, AllocError>
        ensures within { IfOk result (λ n. n ≤ length piece.now) }
        ensures bytes { IfOk result (λ n. self.new.bytes ≡ self.old.bytes ++ take n piece.now) }
        // A piece that isn't taken whole ends the script.
        ensures all { IfOk result (λ n. (n ≡ length piece.now) ⊎ IsWholeScript self.new.bytes) }
        // The script ends nowhere before.
        ensures shorter { OnOk result (HasNoShorter self.new.bytes) }
        ensures ok { OnOk result ((self.old.wanting ≡ false) × (self.new.wanting ≡ false)) }
        ensures err { OnErr result (self.new.wanting ≡ true) }
    {
        if self.wanting {
            return Err(AllocError);
        }
        if self.script.is_some() {
            return Ok(0);
        }
        match take_piece(&mut self.bytes, piece) {
            Ok((taken, script)) => {
                self.script = script;
                Ok(taken)
            }
            Err(e) => {
                self.wanting = true;
                Err(e)
            }
        }
    }

    /// Whether the bytes taken are one whole script, and memory was wanting for none of them.
    pub fn is_whole(&self) -> bool
        ensures { IsTrue result
            ↔ ((self.now.wanting ≡ false) × IsWholeScript self.now.bytes) }
    {
        !self.wanting && self.script.is_some()
    }

    /// The script that the bytes taken are, or the first rule that they break, where a field that passes `MOST_SCRIPT` is
    /// judged in its turn; or want of memory, also where it was wanting before.
    pub fn finish(self) -> Result<Script, NotRead>
        ensures found { IfOk result (λ s. IsWhole self.bytes s) }
        ensures only { (s : Scripts) → IsWhole self.bytes s → Gives (λ x. x) result (Ok s) }
        ensures bad { IfErr result (λ why. IsFault why (bad_script self.bytes)) }
        ensures wanting { self.wanting ≡ true → result ≡ Err Memory }
    {
        let ScriptReader {
            bytes,
            script,
            wanting,
        } = self;
        if wanting {
            return Err(NotRead::Memory);
        }
        match script {
            Some(script) => {
                are_one_script(&bytes);
                Ok(script)
            }
            None => Err(fault_of(*bytes.allocator(), &bytes)),
        }
    }
}
