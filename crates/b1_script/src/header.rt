ghost use Rattle.std.specs.Prelude.{◌≡◌};
ghost use Rattle.b1_model.specs.Versions.{version_number};
ghost use Rattle.b1_records.specs.Reading.{Gives};
ghost use Rattle.b1_script.specs.Reading.{magic_number, numbered_version, magic_at, version_at, peer_count_at, clock_at, len_at, header_at, is_first_clock};
ghost use Rattle.b1_script.specs.Spelling as spelling;

use b1_errs::{Cause, NotRead};
use b1_model::{CLOCK_LIMIT, FEW_PEERS, MOST_PEERS, MOST_SCRIPT, MOST_WIDE_SCRIPT, Version};
use b1_records::fields::{long_number, number, zero};

/// The number whose bytes are `BUS1SCR1`.
pub const MAGIC: u64 = 0x3152_4353_3153_5542;

/// What a script file says of its parts.
#[derive(Clone, Copy, Debug)]
pub struct Header {
    /// Whether commands have cookies.
    pub version: Version,
    /// How many peers there are.
    pub peers: u32,
    /// Every peer's first clock.
    pub first_clock: u64,
    /// How many wires there are.
    pub wires: u32,
    /// How many turns there are.
    pub turns: u32,
    /// How many bytes the whole script has.
    pub len: u32,
}

/// How many peers a script of this version has at most.
pub fn most_peers(version: Version) -> usize
    ensures { result ≡ spelling.most_peers version }
{
    match version {
        Version::One => FEW_PEERS,
        Version::Two => MOST_PEERS,
    }
}

/// How many bytes the script of so many peers has at most.
pub fn most_len(peers: usize) -> usize
    ensures { result ≡ spelling.most_len peers }
{
    if peers <= FEW_PEERS {
        MOST_SCRIPT
    } else {
        MOST_WIDE_SCRIPT
    }
}

/// Whether a clock may be the first: even, and at most `CLOCK_LIMIT`.
fn may_be_first(clock: u64) -> bool
    ensures { result ≡ is_first_clock clock }
{
    clock % 2 == 0 && clock <= CLOCK_LIMIT
}

/// The end of the format's name.
#[tactic(auto, unfolding(crate::specs::Reading::magic_at))]
fn magic(bytes: &[u8], at: usize, limit: usize) -> Result<usize, NotRead>
    ensures { Gives (λ end. (magic_number, end)) result (magic_at limit bytes.now at) }
{
    let (name, end) = long_number(bytes, at, limit)?;
    if name != MAGIC {
        return Err(NotRead::Bad {
            at,
            cause: Cause::Magic,
        });
    }
    Ok(end)
}

/// The number of a version.
pub fn number_of_version(version: Version) -> u32
    ensures { result ≡ version_number version }
{
    match version {
        Version::One => 1,
        Version::Two => 2,
    }
}

/// The version of a number, `None` where there is none.
fn version_of_number(number: u32) -> Option<Version>
    ensures { result ≡ numbered_version number }
{
    match number {
        1 => Some(Version::One),
        2 => Some(Version::Two),
        _ => None,
    }
}

/// The format's version, and its end.
#[tactic(auto, unfolding(crate::specs::Reading::version_at))]
fn version(bytes: &[u8], at: usize, limit: usize) -> Result<(Version, usize), NotRead>
    ensures { Gives (λ x. x) result (version_at limit bytes.now at) }
{
    let (number, end) = number(bytes, at, limit)?;
    match version_of_number(number) {
        Some(version) => Ok((version, end)),
        None => Err(NotRead::Bad {
            at,
            cause: Cause::Version,
        }),
    }
}

/// How many peers there are, at least one and no more than the version allows.
#[tactic(auto, unfolding(crate::specs::Reading::peer_count_at))]
fn peer_count(
    bytes: &[u8],
    at: usize,
    version: Version,
    limit: usize,
) -> Result<(u32, usize), NotRead>
    ensures { Gives (λ x. x) result (peer_count_at limit bytes.now version at) }
{
    let (count, end) = number(bytes, at, limit)?;
    if count < 1 || count as usize > most_peers(version) {
        return Err(NotRead::Bad {
            at,
            cause: Cause::Count,
        });
    }
    Ok((count, end))
}

/// Every peer's first clock, even and at most `CLOCK_LIMIT`.
#[tactic(auto, unfolding(crate::specs::Reading::clock_at))]
fn first_clock(bytes: &[u8], at: usize, limit: usize) -> Result<(u64, usize), NotRead>
    ensures { Gives (λ x. x) result (clock_at limit bytes.now at) }
{
    let (clock, end) = long_number(bytes, at, limit)?;
    if !may_be_first(clock) {
        return Err(NotRead::Bad {
            at,
            cause: Cause::Range,
        });
    }
    Ok((clock, end))
}

/// The length of the whole script, no more than so many peers allow.
#[tactic(auto, unfolding(crate::specs::Reading::len_at))]
fn length(bytes: &[u8], at: usize, peers: u32, limit: usize) -> Result<(u32, usize), NotRead>
    ensures { Gives (λ x. x) result (len_at limit bytes.now peers at) }
{
    let (len, end) = number(bytes, at, limit)?;
    if peers as usize > FEW_PEERS && len as usize > MOST_WIDE_SCRIPT {
        return Err(NotRead::Bad {
            at,
            cause: Cause::Length,
        });
    }
    Ok((len, end))
}

/// The header, and its end.
#[tactic(auto, unfolding(crate::specs::Reading::header_at))]
pub fn read_header(bytes: &[u8], at: usize, limit: usize) -> Result<(Header, usize), NotRead>
    ensures { Gives (λ x. x) result (header_at limit bytes.now at) }
{
    let at = magic(bytes, at, limit)?;
    let (version, at) = version(bytes, at, limit)?;
    let (peers, at) = peer_count(bytes, at, version, limit)?;
    let (first_clock, at) = first_clock(bytes, at, limit)?;
    let (wires, at) = number(bytes, at, limit)?;
    let (turns, at) = number(bytes, at, limit)?;
    let (len, at) = length(bytes, at, peers, limit)?;
    let at = zero(bytes, at, limit)?;
    let header = Header {
        version,
        peers,
        first_clock,
        wires,
        turns,
        len,
    };
    Ok((header, at))
}
