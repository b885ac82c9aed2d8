ghost use Rattle.std.specs.Prelude.{◌≡◌, ◌==◌, nat_le, if◌then◌else◌};
ghost use Rattle.b1_records.specs.Spelling.{code_of, flags_of, kind_of_command, has_flag};
ghost use Rattle.b1_records.specs.Reading.{kind_of, goes_on_of, flag_of};
ghost use Rattle.std.specs.Prelude.{⊤, [], ◌∷◌, codes};

use b1_model::Command;
use bitflags::{Flag, Flags, bitflag_items};

/// What a record's code says that it is.
#[derive(Clone, Copy, Debug)]
pub enum Kind {
    Disconnect,
    Query,
    Reset,
    Release,
    Destroy,
    SliceRelease,
    Send,
    Recv,
    Await,
}

/// The flags of a SEND's record.
#[derive(Clone, Copy, Debug, PartialEq, Eq)]
pub struct SendFlags(u32);

bitflag_items! {
    impl SendFlags: u32 {
        const CONTINUE = 1;
    }
}

impl Flags for SendFlags {
    type Bits = u32;

    ghost exact = { ⊤ };

    ghost table = { (codes "CONTINUE", 1) ∷ [] };

    ghost set_of = { λ f. f.0 };

    fn flags<'a>() -> &'a [Flag<SendFlags>] {
        SendFlags::FLAGS
    }

    fn bits(&self) -> u32 {
        self.0
    }

    fn from_bits_retain(bits: u32) -> SendFlags {
        SendFlags(bits)
    }
}

/// The kind of a code, `None` where no command has it.
pub fn kind_of_code(code: u32) -> Option<Kind>
    ensures { result ≡ kind_of code }
{
    match code {
        1 => Some(Kind::Disconnect),
        2 => Some(Kind::Query),
        3 => Some(Kind::Reset),
        4 => Some(Kind::Release),
        5 => Some(Kind::Destroy),
        6 => Some(Kind::SliceRelease),
        7 => Some(Kind::Send),
        8 => Some(Kind::Recv),
        9 => Some(Kind::Await),
        _ => None,
    }
}

/// The code of a kind of command.
pub fn code_of_kind(kind: Kind) -> u32
    ensures { result ≡ code_of kind }
{
    match kind {
        Kind::Disconnect => 1,
        Kind::Query => 2,
        Kind::Reset => 3,
        Kind::Release => 4,
        Kind::Destroy => 5,
        Kind::SliceRelease => 6,
        Kind::Send => 7,
        Kind::Recv => 8,
        Kind::Await => 9,
    }
}

/// Whether a SEND with these flags goes on past a refused destination; `None` where a bit isn't known.
fn send_goes_on(flags: u32) -> Option<bool>
    ensures { result ≡ (if nat_le flags 1 then Some (flags == 1) else None) }
{
    match SendFlags::from_bits(flags) {
        Some(flags) => Some(flags.contains(SendFlags::CONTINUE)),
        None => None,
    }
}

/// Whether a command of this kind goes on past a refused destination, by its flags; `None` where a bit isn't known.
pub fn goes_on(kind: Kind, flags: u32) -> Option<bool>
    ensures { result ≡ goes_on_of kind flags }
{
    match kind {
        Kind::Send => send_goes_on(flags),
        _ if flags == 0 => Some(false),
        _ => None,
    }
}

/// The flags of a PEER_RESET's record that has a cookie.
#[derive(Clone, Copy, Debug, PartialEq, Eq)]
pub struct ResetFlags(u32);

bitflag_items! {
    impl ResetFlags: u32 {
        const FLUSH = 1;
    }
}

impl Flags for ResetFlags {
    type Bits = u32;

    ghost exact = { ⊤ };

    ghost table = { (codes "FLUSH", 1) ∷ [] };

    ghost set_of = { λ f. f.0 };

    fn flags<'a>() -> &'a [Flag<ResetFlags>] {
        ResetFlags::FLAGS
    }

    fn bits(&self) -> u32 {
        self.0
    }

    fn from_bits_retain(bits: u32) -> ResetFlags {
        ResetFlags(bits)
    }
}

/// Whether a PEER_RESET with these flags flushes; `None` where a bit isn't known.
fn reset_flushes(flags: u32) -> Option<bool>
    ensures { result ≡ (if nat_le flags 1 then Some (flags == 1) else None) }
{
    match ResetFlags::from_bits(flags) {
        Some(flags) => Some(flags.contains(ResetFlags::FLUSH)),
        None => None,
    }
}

/// Whether the one flag of a command of this kind is set; `None` where a bit isn't known.
pub fn flag(kind: Kind, flags: u32) -> Option<bool>
    ensures { result ≡ flag_of kind flags }
{
    match kind {
        Kind::Send => send_goes_on(flags),
        Kind::Reset => reset_flushes(flags),
        _ if flags == 0 => Some(false),
        _ => None,
    }
}

/// The kind of a command.
pub fn kind_of(command: &Command) -> Kind
    ensures { result ≡ kind_of_command command.now }
{
    match command {
        Command::Disconnect => Kind::Disconnect,
        Command::Query => Kind::Query,
        Command::Reset { .. } | Command::Limit { .. } => Kind::Reset,
        Command::Release { .. } => Kind::Release,
        Command::Destroy { .. } => Kind::Destroy,
        Command::SliceRelease { .. } => Kind::SliceRelease,
        Command::Send(_) => Kind::Send,
        Command::Recv => Kind::Recv,
        Command::Await => Kind::Await,
    }
}

/// The flags of a command's record that has a cookie.
pub fn flags_of_command(command: &Command) -> u32
    ensures { result ≡ flags_of (has_flag command.now) }
{
    match command {
        Command::Send(send) => flags(send.go_on),
        Command::Reset { .. } => ResetFlags::FLUSH.bits(),
        _ => 0,
    }
}

/// The flags of a SEND.
pub fn flags(go_on: bool) -> u32
    ensures { result ≡ flags_of go_on }
{
    if go_on { SendFlags::CONTINUE.bits() } else { 0 }
}
