ghost use Rattle.std.specs.Prelude.{◌≡◌, IfOk};

use b1_model::{Bytes, Command, CommandLists, Commands, Nums, SendCmd};
use std::alloc::{AllocError, Global};

/// A copy of each peer's commands. An error is want of memory.
pub fn copy_lists(alloc: Global, lists: &CommandLists) -> Result<CommandLists, AllocError>
    ensures { IfOk result (λ copy. copy ≡ lists.now) }
{
    let mut copies = Vec::with_capacity(alloc, lists.len())?;
    for list in lists.as_slice() {
        copies.push(copy_commands(alloc, list)?)?;
    }
    Ok(CommandLists::from_vec(copies))
}

/// A copy of one peer's commands. An error is want of memory.
pub fn copy_commands(alloc: Global, commands: &Commands) -> Result<Commands, AllocError>
    ensures { IfOk result (λ copy. copy ≡ commands.now) }
{
    let mut copies = Vec::with_capacity(alloc, commands.len())?;
    for command in commands.as_slice() {
        copies.push(copy_command(alloc, command)?)?;
    }
    Ok(Commands::from_vec(copies))
}

/// A copy of a command. An error is want of memory.
pub fn copy_command(alloc: Global, command: &Command) -> Result<Command, AllocError>
    ensures { IfOk result (λ copy. copy ≡ command.now) }
{
    Ok(match command {
        Command::Disconnect => Command::Disconnect,
        Command::Query => Command::Query,
        Command::Reset { limits } => Command::Reset { limits: *limits },
        Command::Limit { limits } => Command::Limit { limits: *limits },
        Command::Release { number } => Command::Release { number: *number },
        Command::Destroy { numbers } => Command::Destroy {
            numbers: Nums::from_slice(alloc, numbers.as_slice())?,
        },
        Command::SliceRelease { offset } => Command::SliceRelease { offset: *offset },
        Command::Send(send) => Command::Send(copy_send(alloc, send)?),
        Command::Recv => Command::Recv,
        Command::Await => Command::Await,
    })
}

/// A copy of a SEND. An error is want of memory.
pub fn copy_send(alloc: Global, send: &SendCmd) -> Result<SendCmd, AllocError>
    ensures { IfOk result (λ copy. copy ≡ send.now) }
{
    Ok(SendCmd {
        go_on: send.go_on,
        to: Nums::from_slice(alloc, send.to.as_slice())?,
        with: Nums::from_slice(alloc, send.with.as_slice())?,
        payload: Bytes::from_slice(alloc, send.payload.as_slice())?,
    })
}
