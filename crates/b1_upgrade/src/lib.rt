//! Scripts of version 1 as scripts of version 2.
#![tactic(auto)]

ghost use Rattle.std.specs.Prelude.{◌≡◌, ◌<◌, ◌≤◌, nat_le, length, map, sum_by, None, IfNone, IfOk, IfSome};
ghost use Rattle.std.specs.List.{range_with_len};
ghost use Rattle.b1_model.specs.declared.limits.TheConstants as limits;
ghost use Rattle.b1_script.specs.Spelling.{HasFields, HasSpelling, spelling};
ghost use Rattle.b1_upgrade.specs.Upgraded.{places, upgraded};

use b1_model::{Commands, CookieLists, MOST_SCRIPT, Nums};
use b1_script::{Script, write};
use std::alloc::{AllocError, Global};

/// How many bytes a cookie has in a script.
const COOKIE_LEN: usize = 8;

/// The places of so many commands.
fn places_of(alloc: Global, count: usize) -> Result<Nums, AllocError>
    ensures { IfOk result (λ list. list ≡ range_with_len 0 count) }
{
    let mut items = Vec::with_capacity(alloc, count)?;
    for place in 0..count {
        items.push(place as u64)?;
    }
    Ok(Nums::from_vec(items))
}

/// The places of each peer's commands.
fn place_lists(alloc: Global, lists: &[Commands]) -> Result<CookieLists, AllocError>
    ensures { IfOk result (λ cookies. cookies ≡ map places lists.now) }
{
    let mut items = Vec::with_capacity(alloc, lists.len())?;
    for commands in lists {
        items.push(places_of(alloc, commands.len())?)?;
    }
    Ok(CookieLists::from_vec(items))
}

/// How many commands there are.
fn command_count(lists: &[Commands]) -> usize
    requires { sum_by length lists.now ≤ limits.MOST_SCRIPT }
    ensures { result ≡ sum_by length lists.now }
{
    let mut count = 0;
    for commands in lists {
        count += commands.len();
    }
    count
}

/// Whether a script of so many bytes has room for the cookies that it lacks.
fn has_room(script: &Script, len: usize) -> bool
    requires plain { script.now.cookies ≡ None }
    requires spelled { HasSpelling script.now }
    requires len { len ≡ length (spelling script.now) }
    ensures { result ≡ nat_le (length (spelling (upgraded script.now))) limits.MOST_SCRIPT }
{
    len + COOKIE_LEN * command_count(script.commands.as_slice()) <= MOST_SCRIPT
}

/// The script with cookies: its own, or where it has none each command's place in its peer's list. `None` where that would
/// be more bytes than a script may have. An error is want of memory. Takes the time of writing the script once.
pub fn upgrade(alloc: Global, script: Script) -> Result<Option<Script>, AllocError>
    requires { HasSpelling script }
    // The script of version 2 can be written.
    ensures upgraded { IfOk result (λ r. IfSome r (λ s. (s ≡ upgraded script) × HasSpelling s)) }
    // Its numbers fit their fields where the script's do.
    ensures fields { HasFields script → IfOk result (λ r. IfSome r HasFields) }
    // It is too long exactly where there is none.
    ensures long { IfOk result (λ r. IfNone r
        (limits.MOST_SCRIPT < length (spelling (upgraded script)))) }
{
    if script.cookies.is_some() {
        return Ok(Some(script));
    }
    let len = write(alloc, &script)?.len();
    if !has_room(&script, len) {
        return Ok(None);
    }
    let cookies = place_lists(alloc, script.commands.as_slice())?;
    Ok(Some(Script {
        opening: script.opening,
        commands: script.commands,
        turns: script.turns,
        cookies: Some(cookies),
    }))
}
