// The digest of a recipe: all that decides a build but the packages of its dependencies.
ghost use Rattle.std.specs.Prelude.{◌≡◌, ◌++◌, codes, IfOk, OnOk};
ghost use Rattle.std.specs.List.{flat_map};
ghost use Rattle.bulk_model.specs.Lines as lines;
ghost use Rattle.bulk_model.specs.Recipe as recipes;
ghost use Rattle.pkg_record.specs.Hashing.{Takes};

use crate::lines::{put_count, put_depend, put_file_line, put_line, put_names, put_option};
use bulk_base::{FileItem, Files, NoMemory, Switch, Text, decimal};
use bulk_model::{Command, Depend, Digest, Job, Steps};
use sha2::{Digest as _, Sha256};
use std::alloc::Global;

/// Adds the first line and the names.
fn add_names(alloc: Global, hasher: &mut Sha256, job: &Job) -> Result<(), NoMemory>
    ensures { OnOk result (Takes hasher.old
        (lines.line (codes "poudriere-recipe 1")
        ++ lines.name_lines job.now.name job.now.origin job.now.flavor) hasher.new) }
{
    let mut text = Vec::new(alloc);
    put_line(&mut text, b"poudriere-recipe 1", b"")?;
    put_names(&mut text, &job.name, &job.origin, &job.flavor)?;
    hasher.update(text.as_slice());
    Ok(())
}

/// Adds a line with a number.
fn add_count(
    alloc: Global,
    hasher: &mut Sha256,
    heading: &[u8],
    count: usize,
) -> Result<(), NoMemory>
    ensures { OnOk result (Takes hasher.old (lines.count_line heading.now count) hasher.new) }
{
    let mut text = Vec::new(alloc);
    put_count(alloc, &mut text, heading, count)?;
    hasher.update(text.as_slice());
    Ok(())
}

fn add_option(alloc: Global, hasher: &mut Sha256, option: &Switch) -> Result<(), NoMemory>
    ensures { OnOk result (Takes hasher.old (lines.option_line option.now) hasher.new) }
{
    let mut text = Vec::new(alloc);
    put_option(&mut text, option)?;
    hasher.update(text.as_slice());
    Ok(())
}

fn add_options(alloc: Global, hasher: &mut Sha256, options: &[Switch]) -> Result<(), NoMemory>
    ensures { OnOk result (Takes hasher.old (lines.option_lines options.now) hasher.new) }
{
    add_count(alloc, hasher, b"options ", options.len())?;
    for option in options {
        add_option(alloc, hasher, option)?;
    }
    Ok(())
}

fn add_depend(alloc: Global, hasher: &mut Sha256, depend: &Depend) -> Result<(), NoMemory>
    ensures { OnOk result (Takes hasher.old (recipes.depend_line depend.now) hasher.new) }
{
    let mut text = Vec::new(alloc);
    put_depend(&mut text, depend.kind, &depend.node, &depend.name)?;
    text.push(b'\n')?;
    hasher.update(text.as_slice());
    Ok(())
}

fn add_depends(alloc: Global, hasher: &mut Sha256, depends: &[Depend]) -> Result<(), NoMemory>
    ensures { OnOk result (Takes hasher.old (recipes.depend_lines depends.now) hasher.new) }
{
    add_count(alloc, hasher, b"depends ", depends.len())?;
    for depend in depends {
        add_depend(alloc, hasher, depend)?;
    }
    Ok(())
}

/// Appends the line with the number of commands of each phase.
fn put_steps(alloc: Global, out: &mut Vec<u8>, steps: &Steps) -> Result<(), NoMemory>
    ensures { OnOk result (out.new.items ≡ out.old.items ++ recipes.steps_line steps.now) }
{
    out.extend_from_slice(b"steps ")?;
    out.extend_from_slice(decimal(alloc, steps.extract.len() as u64)?.bytes())?;
    out.push(b' ')?;
    out.extend_from_slice(decimal(alloc, steps.patch.len() as u64)?.bytes())?;
    out.push(b' ')?;
    out.extend_from_slice(decimal(alloc, steps.configure.len() as u64)?.bytes())?;
    out.push(b' ')?;
    out.extend_from_slice(decimal(alloc, steps.build.len() as u64)?.bytes())?;
    put_count(alloc, out, b" ", steps.stage.len())
}

fn add_steps_line(alloc: Global, hasher: &mut Sha256, steps: &Steps) -> Result<(), NoMemory>
    ensures { OnOk result (Takes hasher.old (recipes.steps_line steps.now) hasher.new) }
{
    let mut text = Vec::new(alloc);
    put_steps(alloc, &mut text, steps)?;
    hasher.update(text.as_slice());
    Ok(())
}

/// Adds a word as a line.
fn add_word(hasher: &mut Sha256, word: &Text)
    ensures { Takes hasher.old (lines.line word.now) hasher.new }
{
    hasher.update(word.bytes());
    hasher.update(b"\n".as_slice());
}

fn add_command(alloc: Global, hasher: &mut Sha256, command: &Command) -> Result<(), NoMemory>
    ensures { OnOk result (Takes hasher.old (recipes.command_lines command.now) hasher.new) }
{
    let words = command.words();
    add_count(alloc, hasher, b"command ", words.len())?;
    for word in words {
        add_word(hasher, word);
    }
    Ok(())
}

fn add_commands(alloc: Global, hasher: &mut Sha256, commands: &[Command]) -> Result<(), NoMemory>
    ensures { OnOk result (Takes hasher.old
        (flat_map recipes.command_lines commands.now) hasher.new) }
{
    for command in commands {
        add_command(alloc, hasher, command)?;
    }
    Ok(())
}

fn add_steps(alloc: Global, hasher: &mut Sha256, steps: &Steps) -> Result<(), NoMemory>
    ensures { OnOk result (Takes hasher.old (recipes.step_lines steps.now) hasher.new) }
{
    add_steps_line(alloc, hasher, steps)?;
    add_commands(alloc, hasher, steps.extract.as_slice())?;
    add_commands(alloc, hasher, steps.patch.as_slice())?;
    add_commands(alloc, hasher, steps.configure.as_slice())?;
    add_commands(alloc, hasher, steps.build.as_slice())?;
    add_commands(alloc, hasher, steps.stage.as_slice())?;
    Ok(())
}

fn add_file(alloc: Global, hasher: &mut Sha256, file: &FileItem) -> Result<(), NoMemory>
    ensures { OnOk result (Takes hasher.old (lines.file_piece file.now) hasher.new) }
{
    let mut text = Vec::new(alloc);
    put_file_line(alloc, &mut text, file)?;
    hasher.update(text.as_slice());
    hasher.update(file.bytes.as_slice());
    hasher.update(b"\n".as_slice());
    Ok(())
}

fn add_files(
    alloc: Global,
    hasher: &mut Sha256,
    heading: &[u8],
    files: &[FileItem],
) -> Result<(), NoMemory>
    ensures { OnOk result (Takes hasher.old (lines.file_pieces heading.now files.now) hasher.new) }
{
    add_count(alloc, hasher, heading, files.len())?;
    for file in files {
        add_file(alloc, hasher, file)?;
    }
    Ok(())
}

fn add_recipe(alloc: Global, hasher: &mut Sha256, base: &Files, job: &Job) -> Result<(), NoMemory>
    ensures { OnOk result (Takes hasher.old (recipes.recipe_text base.now job.now) hasher.new) }
{
    add_names(alloc, hasher, job)?;
    add_options(alloc, hasher, job.options.as_slice())?;
    add_depends(alloc, hasher, job.depends.as_slice())?;
    add_steps(alloc, hasher, &job.steps)?;
    add_files(alloc, hasher, b"files ", job.files.as_slice())?;
    add_files(alloc, hasher, b"base ", base.as_slice())?;
    Ok(())
}

/// The digest of the recipe of a job over base files: SHA-256 of its text (docs/FORMATS.md, "The recipe"; FIPS 180-4).
///
/// NoMemory for want of memory alone. One pass over the job and the base files; the text is hashed line by line and file
/// by file, so that one line of it is held and no copy of a file's bytes.
pub fn recipe(alloc: Global, base: &Files, job: &Job) -> Result<Digest, NoMemory>
    ensures { IfOk result (λ digest. digest ≡ recipes.recipe base.now job.now) }
{
    let mut hasher = Sha256::new();
    add_recipe(alloc, &mut hasher, base, job)?;
    Ok(Digest {
        bytes: hasher.finalize(),
    })
}
