ghost use Rattle.std.specs.Prelude.{◌≡◌, false, None};
ghost use Rattle.b1_model.specs.MachineTook.{attempt_of, is_await, shut_after, told_after};
ghost use Rattle.b1_driver.specs.Parts.{attempted_after, attempts_after, attempted_by};

use b1_model::{Command, Front, Outcome, Received};

/// What a driver knows beside its open command.
#[derive(Drop)]
pub struct Facts {
    /// Whether it has disconnected.
    pub shut: bool,
    /// Whether its peer's list of references to be given up had items when it was last told.
    pub told: bool,
    /// What its last attempt at an absent or staged front found, and how many entries it removed.
    pub attempted: Option<(Front, u64)>,
    /// How many such attempts there were, at most 2^64 - 1.
    pub attempts: u64,
}

impl Facts {
    /// Nothing is known yet.
    pub fn new() -> Facts
        ensures { result ≡ record { shut = false; told = false; attempted = None; attempts = 0 } }
    {
        Facts {
            shut: false,
            told: false,
            attempted: None,
            attempts: 0,
        }
    }

    /// What is known after an event.
    pub fn note(&mut self, command: &Command, outcome: &Outcome)
        ensures shut { self.new.shut ≡ shut_after command.now self.old.shut outcome.now }
        ensures told { self.new.told ≡ told_after self.old.told outcome.now }
        ensures attempted { self.new.attempted
            ≡ attempted_after (attempt_of command.now outcome.now) self.old.attempted }
        ensures attempts { self.new.attempts
            ≡ attempts_after (attempt_of command.now outcome.now) self.old.attempts }
    {
        self.shut = shut_after(command, self.shut, outcome);
        self.told = told_after(self.told, outcome);
        match attempt_of(command, outcome) {
            Some(found) => {
                self.attempted = Some(found);
                self.attempts = self.attempts.saturating_add(1);
            }
            None => {}
        }
    }
}

/// Whether a command is a RECV that is tried again.
pub fn is_await(command: &Command) -> bool
    ensures { result ≡ is_await command.now }
{
    matches!(command, Command::Await)
}

// Whether the driver is shut after an event.
fn shut_after(command: &Command, shut: bool, outcome: &Outcome) -> bool
    ensures { result ≡ shut_after command.now shut outcome.now }
{
    match outcome {
        Outcome::Flush { .. } => shut || matches!(command, Command::Disconnect),
        _ => shut,
    }
}

// What the driver was last told of its peer's list of references to be given up.
fn told_after(told: bool, outcome: &Outcome) -> bool
    ensures { result ≡ told_after told outcome.now }
{
    match outcome {
        Outcome::Recv { dead, .. } | Outcome::Reap { dead, .. } | Outcome::Flush { dead } => *dead,
        _ => told,
    }
}

// What an attempt that couldn't take its front found and removed.
fn attempt_of(command: &Command, outcome: &Outcome) -> Option<(Front, u64)>
    ensures { result ≡ attempt_of command.now outcome.now }
{
    match outcome {
        Outcome::Recv { got, .. } if is_await(command) => attempted_by(got),
        _ => None,
    }
}

// What a RECV that couldn't take its front found and removed.
fn attempted_by(got: &Received) -> Option<(Front, u64)>
    ensures { result ≡ attempted_by got.now }
{
    match &got.front {
        Ok(_) => None,
        Err(front) => Some((*front, got.removed)),
    }
}
