ghost use Rattle.std.specs.Prelude.{◌≡◌, ◌≤◌, ◌++◌, [], ◌∷◌, length, count_by, IfSome, OnOk};
ghost use Rattle.kc_base.specs.Limits.{file_limit};
ghost use Rattle.kc_debug_script.specs.Script.{is_break as sets_breakpoint, may_follow as allows, command_after, script_of, IsScriptRead, AreBounded};

use crate::command::{Command, read_command};
use crate::fault::DebugFault;
use kc_base::{NoMemory, after, first_line, prefix};
use std::alloc::Global;
use std::marker::Model;

/// The most lines of a script.
const LINE_LIMIT: usize = 65_535;

/// The most breakpoints of a script.
const BREAK_LIMIT: usize = 16;

/// The commands of a debugger script, in order.
#[derive(Drop)]
pub struct Script {
    commands: Vec<Command>,
}

impl Model for Script {
    ghost use Rattle.std.specs.Prelude.{List};
    ghost use Rattle.kc_debug_script.specs.declared.command.Command.{Command};
    ghost use Rattle.kc_debug_script.specs.Script.{AreBounded};

    ghost Value = { List Command };

    ghost view = { λ s. s.commands.items };

    ghost invariant = { λ s. AreBounded s.commands.items };
}

fn is_break(command: &Command) -> bool
    ensures { result ≡ sets_breakpoint command.now }
{
    matches!(command, Command::Break(_))
}

// How many of these commands set breakpoints.
fn count_breaks(commands: &[Command]) -> usize
    ensures { result ≡ count_by sets_breakpoint commands.now }
{
    commands.iter().filter(|command| is_break(command)).count()
}

// Whether a command may follow these commands.
fn may_follow(before: &[Command], command: &Command) -> bool
    ensures { result ≡ allows before.now command.now }
{
    before.len() < LINE_LIMIT && !(is_break(command) && count_breaks(before) >= BREAK_LIMIT)
}

// The command of a line behind these commands.
#[tactic(auto, using(crate::proofs::Limits::bounded_push))]
fn next_command(before: &[Command], line: &[u8]) -> Option<Command>
    requires { AreBounded before.now }
    ensures value { result ≡ command_after before.now line.now }
    ensures bounded { IfSome result (λ command. AreBounded (before.now ++ command ∷ [])) }
{
    let command = read_command(line)?;
    if may_follow(before, &command) {
        Some(command)
    } else {
        None
    }
}

fn push(commands: &mut Vec<Command>, command: Command) -> Result<(), NoMemory>
    ensures { OnOk result (commands.new.items ≡ commands.old.items ++ command ∷ []) }
{
    commands.push(command)?;
    Ok(())
}

impl Script {
    /// The commands of a script of 1,048,576 bytes at most, or the number of its first line that is no command. The 65,536th line
    /// is none, nor is the seventeenth breakpoint; lines behind the end of the script are checked too.
    pub fn read(alloc: Global, bytes: &[u8]) -> Result<Script, DebugFault>
        requires { length bytes.now ≤ file_limit }
        ensures { IsScriptRead result (script_of bytes.now) }
    {
        let mut commands = Vec::new(alloc);
        let mut rest = bytes;
        while !rest.is_empty() {
            let (len, used) = first_line(rest);
            match next_command(commands.as_slice(), prefix(rest, len)) {
                Some(command) => push(&mut commands, command)?,
                None => return Err(DebugFault::BadCommand(commands.len() as u32 + 1)),
            }
            rest = after(rest, used);
        }
        Ok(Script { commands })
    }

    /// The commands, lent.
    pub fn commands(&self) -> &[Command]
        ensures value { result.now ≡ self.now }
        ensures bounded { AreBounded self.now }
    {
        self.commands.as_slice()
    }
}
