ghost use Rattle.std.specs.Prelude.{◌≡◌, ◌++◌, OnOk, length, map, zip, string_bytes};
ghost use Rattle.std.specs.Fmt.{decimal};
ghost use Rattle.std.specs.List.{flat_map, AllByRecursion};
ghost use Rattle.b1_model.specs.Versions.{version_number};
ghost use Rattle.b1_script.specs.Spelling.{HasSpelling, entries_of};
ghost use Rattle.b1_text_words.specs.Numbers.{list_text};
ghost use Rattle.b1_text.specs.declared.statement.Statement.TheVariants as says;
ghost use Rattle.b1_text.specs.Texts.{line_text, plain, marked, plain_entries, marked_entries, entries_said, list_statements, lists_statements, opening_statements, script_text};

use b1_model::{Command, Commands, Nums, PeerSpec, Version, Wire};
use b1_script::Script;
use b1_text_words::{Form, Item, write_command, write_cookie, write_item};
use std::alloc::AllocError;
use std::fmt::Write;

pub(crate) fn write_script(out: &mut String, script: &Script) -> Result<(), AllocError>
    requires { HasSpelling script.now }
    ensures { OnOk result (string_bytes out.new ≡ string_bytes out.old ++ script_text script.now) }
{
    write_opening(out, script)?;
    write_lists(out, script)?;
    write_turns(out, script.turns.as_slice())
}

/// The number of a version in the first line.
fn number_of_version(version: Version) -> u32
    ensures { result ≡ version_number version }
{
    match version {
        Version::One => 1,
        Version::Two => 2,
    }
}

fn write_opening(out: &mut String, script: &Script) -> Result<(), AllocError>
    ensures { OnOk result (string_bytes out.new ≡ string_bytes out.old
        ++ flat_map line_text (opening_statements script.now)) }
{
    let version = number_of_version(script.version());
    let clock = script.opening.first_clock;
    write!(out, "bus1 script {version}\nclock {clock}\n")?;
    write_peers(out, script.opening.peers.as_slice())?;
    write_wires(out, script.opening.wires.as_slice())
}

fn write_peers(out: &mut String, peers: &[PeerSpec]) -> Result<(), AllocError>
    ensures { OnOk result (string_bytes out.new ≡ string_bytes out.old
        ++ flat_map (λ p. line_text (says.Peer p)) peers.now) }
{
    for peer in peers {
        write_peer(out, peer)?;
    }
    Ok(())
}

fn write_peer(out: &mut String, peer: &PeerSpec) -> Result<(), AllocError>
    ensures { OnOk result (string_bytes out.new ≡ string_bytes out.old
        ++ line_text (says.Peer peer.now)) }
{
    write!(
        out,
        "peer {} {} {} {} {}\n",
        peer.user, peer.pool, peer.limits.entries, peer.limits.bytes, peer.limits.handles
    )
}

fn write_wires(out: &mut String, wires: &[Wire]) -> Result<(), AllocError>
    ensures { OnOk result (string_bytes out.new ≡ string_bytes out.old
        ++ flat_map (λ w. line_text (says.Wire w)) wires.now) }
{
    for wire in wires {
        write_wire(out, wire)?;
    }
    Ok(())
}

fn write_wire(out: &mut String, wire: &Wire) -> Result<(), AllocError>
    ensures { OnOk result (string_bytes out.new ≡ string_bytes out.old
        ++ line_text (says.Wire wire.now)) }
{
    write!(out, "wire {} ", wire.from)?;
    write_item(out, Item::Handle(Form::Script), wire.number)?;
    write!(out, " {}\n", wire.to)
}

fn write_lists(out: &mut String, script: &Script) -> Result<(), AllocError>
    requires { HasSpelling script.now }
    ensures { OnOk result (string_bytes out.new ≡ string_bytes out.old
        ++ flat_map line_text
        (lists_statements (entries_said script.now.cookies script.now.commands))) }
{
    let lists = script.commands.as_slice();
    match &script.cookies {
        None => write_plain_lists(out, lists),
        Some(cookies) => write_marked_lists(out, cookies.as_slice(), lists),
    }
}

fn write_plain_lists(out: &mut String, lists: &[Commands]) -> Result<(), AllocError>
    ensures { OnOk result (string_bytes out.new ≡ string_bytes out.old
        ++ flat_map line_text (lists_statements (map plain_entries lists.now))) }
{
    for (number, commands) in lists.iter().enumerate() {
        write_plain_list(out, number, commands)?;
    }
    Ok(())
}

fn write_plain_list(out: &mut String, number: usize, commands: &Commands) -> Result<(), AllocError>
    ensures { OnOk result (string_bytes out.new ≡ string_bytes out.old
        ++ flat_map line_text (list_statements (number, plain_entries commands.now))) }
{
    write!(out, "commands {number}\n")?;
    write_plain_commands(out, commands.as_slice())
}

fn write_plain_commands(out: &mut String, commands: &[Command]) -> Result<(), AllocError>
    ensures { OnOk result (string_bytes out.new ≡ string_bytes out.old
        ++ flat_map (λ c. line_text (says.Command (plain c))) commands.now) }
{
    for command in commands {
        write_entry(out, None, command)?;
    }
    Ok(())
}

fn write_marked_lists(
    out: &mut String,
    cookies: &[Nums],
    lists: &[Commands],
) -> Result<(), AllocError>
    requires { map length cookies.now ≡ map length lists.now }
    ensures { OnOk result (string_bytes out.new ≡ string_bytes out.old
        ++ flat_map line_text
        (lists_statements (map marked_entries (entries_of cookies.now lists.now)))) }
{
    for (number, commands) in lists.iter().enumerate() {
        write_marked_list(out, number, &cookies[number], commands)?;
    }
    Ok(())
}

fn write_marked_list(
    out: &mut String,
    number: usize,
    cookies: &Nums,
    commands: &Commands,
) -> Result<(), AllocError>
    requires { length cookies.now ≡ length commands.now }
    ensures { OnOk result (string_bytes out.new ≡ string_bytes out.old
        ++ flat_map line_text
        (list_statements (number, marked_entries (zip cookies.now commands.now)))) }
{
    write!(out, "commands {number}\n")?;
    write_marked_commands(out, cookies.as_slice(), commands.as_slice())
}

fn write_marked_commands(
    out: &mut String,
    cookies: &[u64],
    commands: &[Command],
) -> Result<(), AllocError>
    requires { length cookies.now ≡ length commands.now }
    ensures { OnOk result (string_bytes out.new ≡ string_bytes out.old
        ++ flat_map (λ pair. line_text (says.Command (marked pair)))
        (zip cookies.now commands.now)) }
{
    for (place, command) in commands.iter().enumerate() {
        write_entry(out, Some(cookies[place]), command)?;
    }
    Ok(())
}

fn write_entry(out: &mut String, cookie: Option<u64>, command: &Command) -> Result<(), AllocError>
    ensures { OnOk result (string_bytes out.new ≡ string_bytes out.old
        ++ line_text (says.Command (record { cookie = cookie; command = command.now }))) }
{
    write_cookie(out, cookie)?;
    write_command(out, Form::Script, command)?;
    out.push_str("\n")
}

fn write_turns(out: &mut String, turns: &[u32]) -> Result<(), AllocError>
    ensures { OnOk result (string_bytes out.new ≡ string_bytes out.old
        ++ line_text (says.Turns turns.now)) }
{
    out.push_str("turns ")?;
    write_numbers(out, turns)?;
    out.push_str("\n")
}

/// The peers of turns.
fn write_numbers(out: &mut String, numbers: &[u32]) -> Result<(), AllocError>
    ensures { OnOk result (string_bytes out.new ≡ string_bytes out.old
        ++ list_text decimal numbers.now) }
{
    let [first, rest @ ..] = numbers else {
        return out.push_str("-");
    };
    write!(out, "{first}")?;
    for number in rest {
        write!(out, ",{number}")?;
    }
    Ok(())
}
