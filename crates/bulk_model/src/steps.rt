// The commands that build a port.
ghost use Rattle.std.specs.Prelude.{◌≡◌, ◌<◌, ◌↔◌, [], length, IfOk, IfSome, IsNone, OnSome};

use bulk_base::{NoMemory, Sequence, Text, Texts, copies};
use std::alloc::Global;
use std::marker::Model;

/// A command: a program and its arguments, at least one word. Contracts see it as the list of its words.
#[derive(Debug, Drop)]
pub struct Command {
    words: Texts,
}

impl Model for Command {
    ghost use Rattle.std.specs.Prelude.{List, ℕ, ◌<◌, length};

    ghost Value = { List (List ℕ) };

    ghost view = { λ c. c.words };

    ghost invariant = { λ c. 0 < length c.words };
}

impl Command {
    /// The command of these words; None exactly where there is no word.
    pub fn new(words: Texts) -> Option<Command>
        ensures some { IfSome result (λ c. c ≡ words) }
        ensures none { IsNone result ↔ (words ≡ []) }
    {
        if words.is_empty() {
            return None;
        }
        Some(Command { words })
    }

    /// The words.
    pub fn words(&self) -> &[Text]
        ensures same { result.now ≡ self.now }
        ensures some { 0 < length self.now }
    {
        self.words.as_slice()
    }

    /// Another command of the same words. Costs their bytes.
    pub fn copy(&self, alloc: Global) -> Result<Command, NoMemory>
        ensures { IfOk result (λ command. command ≡ self.now) }
    {
        Ok(Command {
            words: copies(alloc, self.words.as_slice())?,
        })
    }
}

/// A list of commands.
pub type Commands = Sequence<Command>;

/// The commands of the five phases that a port has, in the order in which they run.
#[derive(Debug, Drop)]
pub struct Steps {
    /// What extracts the port's files.
    pub extract: Commands,
    /// What patches them.
    pub patch: Commands,
    /// What configures the build.
    pub configure: Commands,
    /// What builds.
    pub build: Commands,
    /// What puts the built files below `stage/`.
    pub stage: Commands,
}

fn command_copies(alloc: Global, commands: &[Command]) -> Result<Commands, NoMemory>
    ensures { IfOk result (λ copies. copies ≡ commands.now) }
{
    let mut found = Sequence::new(alloc);
    for command in commands {
        found.push(command.copy(alloc)?)?;
    }
    Ok(found)
}

impl Steps {
    /// Other steps with the same commands. Costs the bytes of their words.
    pub fn copy(&self, alloc: Global) -> Result<Steps, NoMemory>
        ensures { IfOk result (λ steps. steps ≡ self.now) }
    {
        Ok(Steps {
            extract: command_copies(alloc, self.extract.as_slice())?,
            patch: command_copies(alloc, self.patch.as_slice())?,
            configure: command_copies(alloc, self.configure.as_slice())?,
            build: command_copies(alloc, self.build.as_slice())?,
            stage: command_copies(alloc, self.stage.as_slice())?,
        })
    }
}
