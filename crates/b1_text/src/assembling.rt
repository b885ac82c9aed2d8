ghost use Rattle.std.specs.Prelude.{◌≡◌, ◌≤◌, IfOk, MatchOption, length, take, drop};
ghost use Rattle.b1_errs.specs.declared.NotRead.TheVariants.{Bad};
ghost use Rattle.b1_errs.specs.declared.Cause.TheVariants.{Line};
ghost use Rattle.b1_text.specs.Accepted.{IsLine};
ghost use Rattle.b1_text.specs.Progress.{Makes, LeadsTo, IsFirstLine, Answers};

use crate::beginning::can_become_next;
use crate::draft::Draft;
use crate::lines::read_line;
use b1_errs::{Cause, NotRead};
use b1_model::MOST_TEXT;
use b1_script::Script;
use b1_text_words::split;
use std::alloc::{AllocError, Global};

const LINE_FEED: u8 = 10;

/// The fault at a place.
fn broken(at: usize) -> NotRead
    ensures { result ≡ Bad at Line }
{
    NotRead::Bad {
        at,
        cause: Cause::Line,
    }
}

/// The first line from a place on, and the place behind its line feed; `None` where no line feed is left.
fn first_line(bytes: &[u8], at: usize) -> Option<(&[u8], usize)>
    requires { at ≤ length bytes.now }
    ensures { MatchOption result (IsLine (drop at bytes.now)) (λ x.
        IsFirstLine bytes.now at x.0.now x.1) }
{
    let (line, _) = split(&bytes[at..], LINE_FEED)?;
    Some((line, at + line.len() + 1))
}

/// What the draft is behind one more line; `None` where no script goes on so.
fn next_draft(alloc: Global, draft: Draft, line: &[u8]) -> Result<Option<Draft>, AllocError>
    ensures { IfOk result (λ next. LeadsTo draft line.now next) }
{
    match read_line(alloc, line)? {
        Some(statement) => draft.take(alloc, statement),
        None => Ok(None),
    }
}

/// The script of a whole draft.
fn whole(draft: Draft, bytes: &[u8]) -> Result<Script, NotRead>
    requires makes { Makes bytes.now draft }
    requires short { length bytes.now ≤ MOST_TEXT }
    ensures { Answers bytes.now result }
{
    match draft {
        Draft::Whole(script) => Ok(script),
        _ => Err(broken(bytes.len())),
    }
}

/// What the bytes are, of which the lines before a place made a draft, and no line feed is left.
fn finish(alloc: Global, draft: Draft, bytes: &[u8], at: usize) -> Result<Script, NotRead>
    requires makes { Makes (take at bytes.now) draft }
    requires line { IsLine (drop at bytes.now) }
    requires within { at ≤ length bytes.now }
    requires short { length bytes.now ≤ MOST_TEXT }
    ensures { Answers bytes.now result }
{
    if at == bytes.len() {
        return whole(draft, bytes);
    }
    if can_become_next(alloc, &draft, &bytes[at..])? {
        Err(broken(bytes.len()))
    } else {
        Err(broken(at))
    }
}

/// The script whose text the bytes are.
pub fn read_text(alloc: Global, bytes: &[u8]) -> Result<Script, NotRead>
    requires { length bytes.now ≤ MOST_TEXT }
    ensures { Answers bytes.now result }
{
    let mut draft = Draft::Empty;
    let mut at = 0;
    while let Some((line, end)) = first_line(bytes, at) {
        draft = match next_draft(alloc, draft, line)? {
            Some(next) => next,
            None => return Err(broken(at)),
        };
        at = end;
    }
    finish(alloc, draft, bytes, at)
}
