// The commands of a port's phases.
ghost use Rattle.std.specs.Prelude.{◌≡◌, [], ◌∷◌, ◌++◌, filter, IfOk, OnOk, IsTrue};
ghost use Rattle.std.specs.Option.{option_copied, unwrap_or};
ghost use Rattle.std.specs.FinMap as map;
ghost use Rattle.bulk_base.specs.Text.{is_plain_text};
ghost use Rattle.port_desc.specs.Commands as commands;

use crate::values::{push_words_by_options, value_for, words_of_value};
use bulk_base::{NoMemory, Sequence, Text, Texts, copies};
use bulk_model::{Command, Commands, Steps};
use port_vars::Vars;
use std::alloc::Global;

/// Puts the command of some words at the end of a list, where there is a word.
fn push_command(alloc: Global, words: &[Text], found: &mut Commands) -> Result<(), NoMemory>
    ensures { OnOk result (found.new ≡ found.old ++ filter commands.is_command (words.now ∷ [])) }
{
    let Some(command) = Command::new(copies(alloc, words)?) else {
        return Ok(());
    };
    found.push(command)
}

/// The commands in words: what stands between the words `;`, without empty ones.
fn commands_of(alloc: Global, words: &[Text]) -> Result<Commands, NoMemory>
    ensures { IfOk result (λ found. found ≡ commands.commands_of words.now) }
{
    let mut found = Sequence::new(alloc);
    for piece in words.split(|word| word.is(b";")) {
        push_command(alloc, piece, &mut found)?;
    }
    Ok(found)
}

/// The commands of a variable for a flavor.
fn commands_for(
    alloc: Global,
    vars: &Vars,
    flavor: Option<&Text>,
    name: &[u8],
) -> Result<Commands, NoMemory>
    requires { IsTrue (is_plain_text name.now) }
    ensures { IfOk result (λ found. found ≡ commands.commands_for (map.get vars.now) (option_copied flavor.entry) name.now) }
{
    let words = words_of_value(alloc, value_for(alloc, vars, flavor, name)?)?;
    commands_of(alloc, words.as_slice())
}

/// The words of a command that is taken, none where there is no command.
fn words_of_command(alloc: Global, command: Option<Command>) -> Result<Vec<Text>, NoMemory>
    ensures { IfOk result (λ words. words.items ≡ unwrap_or command []) }
{
    match command {
        Some(command) => Ok(copies(alloc, command.words())?.into_vec()),
        None => Ok(Vec::new(alloc)),
    }
}

/// Commands with words put at the end of the last; where there is no command, the words make one.
fn with_words(alloc: Global, all: Commands, words: Vec<Text>) -> Result<Commands, NoMemory>
    ensures { IfOk result (λ found. found ≡ commands.with_words all words.items) }
{
    let mut found = all.into_vec();
    let mut more = words;
    let mut last = words_of_command(alloc, found.pop())?;
    last.append(&mut more)?;
    if let Some(command) = Command::new(Sequence::from_vec(last)) {
        found.push(command)?;
    }
    Ok(Sequence::from_vec(found))
}

/// The commands that configure a port.
fn configure_for(
    alloc: Global,
    vars: &Vars,
    flavor: Option<&Text>,
    on: &[Text],
) -> Result<Commands, NoMemory>
    ensures { IfOk result (λ found. found ≡ commands.configure_for (map.get vars.now) (option_copied flavor.entry) on.now) }
{
    let all = commands_for(alloc, vars, flavor, b"DO_CONFIGURE")?;
    let mut words = Vec::new(alloc);
    push_words_by_options(alloc, vars, on, b"CONFIGURE_ON", &mut words)?;
    with_words(alloc, all, words)
}

/// The commands of the five phases.
#[tactic(auto, unfolding(crate::specs::Commands::steps_for))]
pub(crate) fn steps_for(
    alloc: Global,
    vars: &Vars,
    flavor: Option<&Text>,
    on: &[Text],
) -> Result<Steps, NoMemory>
    ensures { IfOk result (λ steps. steps ≡ commands.steps_for (map.get vars.now) (option_copied flavor.entry) on.now) }
{
    Ok(Steps {
        extract: commands_for(alloc, vars, flavor, b"DO_EXTRACT")?,
        patch: commands_for(alloc, vars, flavor, b"DO_PATCH")?,
        configure: configure_for(alloc, vars, flavor, on)?,
        build: commands_for(alloc, vars, flavor, b"DO_BUILD")?,
        stage: commands_for(alloc, vars, flavor, b"DO_STAGE")?,
    })
}
