// A room to build in, on a disk.
ghost use Rattle.std.specs.Prelude.{◌≡◌, ◌≢◌, ◌∷◌, [], ℕ, List, true, None, codes, IfOk};
ghost use Rattle.std.specs.Process.{command_args, command_program, command_var, clears_env};
ghost use Rattle.std.specs.String.{string_bytes};
ghost use Rattle.poudriere_cli.specs.Shell.{in_folder};

use crate::fault::{noted, outer};
use crate::folder_files::{first_bytes_of, listed};
use crate::place::{pass_no_name, place};
use bulk_base::{NoMemory, Path, Paths, Text};
use outside::{Outer, Room, Untold};
use std::alloc::{AllocError, Global};
use std::env::{self, Env, VarError};
use std::fs;
use std::process::{Command, Processes, Stdio};
use std::rt::Files;

/// Enters the folder that the first word names, and becomes the program that the others name.
const IN_FOLDER: &str = "cd \"$0\" && exec \"$@\" </dev/null >/dev/null 2>&1";

/// The status of a command that a signal ended.
const ENDED_BY_SIGNAL: u8 = 255;

/// The one variable of the program's environment that a command sees: it says where programs are.
const PATH: &str = "PATH";

/// A room in a folder of a disk, links followed. Its commands are started by the system's shell.
#[derive(Drop)]
pub struct DirRoom<R: Files + Processes + Env + AllocGlobal + Clone + Drop> {
    rt: R,
    folder: String,
    begun: Vec<Text>,
    faults: u64,
}

impl<R: Files + Processes + Env + AllocGlobal + Clone + Drop> DirRoom<R> {
    /// The room in a folder, which may be absent: the first build makes it.
    pub fn new(rt: R, alloc: Global, folder: String) -> DirRoom<R>
        ensures folder { result.folder ≡ folder }
        ensures begun { result.begun.items ≡ [] }
        ensures faults { result.faults ≡ 0 }
    {
        DirRoom {
            rt,
            folder,
            begun: Vec::new(alloc),
            faults: 0,
        }
    }

    /// Removes all that the room's folder holds, and makes an empty `stage` in it.
    fn empty(&self, alloc: Global) -> Result<(), Outer> {
        let folder = self.folder.as_str();
        let stage = place(alloc, folder, "stage")?;
        if let Err(error) = fs::remove_dir_all(&self.rt, folder) {
            pass_no_name(&self.rt, folder, error)?;
        }
        fs::create_dir_all(&self.rt, stage.as_str()).map_err(outer)
    }

    fn write(&self, alloc: Global, path: &Path, bytes: &[u8]) -> Result<(), Outer> {
        let place = place(alloc, self.folder.as_str(), path.text().as_str())?;
        if let Some((folder, _)) = place.as_str().rsplit_once('/') {
            fs::create_dir_all(&self.rt, folder).map_err(outer)?;
        }
        fs::write(&self.rt, place.as_str(), bytes).map_err(outer)
    }

    /// The value of PATH; None where the program has none, or one that is no text.
    fn search_path(&self) -> Result<Option<String>, NoMemory> {
        match env::var(&self.rt, PATH) {
            Ok(path) => Ok(Some(path)),
            Err(VarError::OutOfMemory) => Err(AllocError),
            Err(_) => Ok(None),
        }
    }

    /// The shell's command that runs these words in the room. What the shell itself says of the folder is not seen.
    fn shell_command(&self, alloc: Global, words: &[Text]) -> Result<Command, NoMemory>
        ensures program { IfOk result (λ command. command_program command ≡ codes "/bin/sh") }
        ensures words { IfOk result (λ command. command_args command
            ≡ codes "-c" ∷ in_folder ∷ string_bytes self.now.folder ∷ words.now) }
    {
        let mut command = Command::new(alloc, "/bin/sh")?;
        command.arg("-c")?;
        command.arg(IN_FOLDER)?;
        command.arg(self.folder.as_str())?;
        for word in words {
            command.arg(word.as_str())?;
        }
        command.stderr(Stdio::null());
        Ok(command)
    }

    /// The same command with no variable of the environment but PATH, as the program has it.
    fn command(&self, alloc: Global, words: &[Text]) -> Result<Command, NoMemory>
        ensures program { IfOk result (λ command. command_program command ≡ codes "/bin/sh") }
        ensures words { IfOk result (λ command. command_args command
            ≡ codes "-c" ∷ in_folder ∷ string_bytes self.now.folder ∷ words.now) }
        ensures clears { IfOk result (λ command. clears_env command ≡ true) }
        ensures others { IfOk result (λ command. (name : List ℕ) → name ≢ codes "PATH"
            → command_var command name ≡ None) }
    {
        let mut command = self.shell_command(alloc, words)?;
        command.env_clear();
        if let Some(path) = self.search_path()? {
            command.env(PATH, path.as_str())?;
        }
        Ok(command)
    }

    fn status(&self, alloc: Global, words: &[Text]) -> Result<u8, Outer> {
        let mut command = self.command(alloc, words)?;
        let status = command.status(&self.rt).map_err(outer)?;
        match status.code() {
            Some(code) => Ok(u8::try_from(code).unwrap_or(ENDED_BY_SIGNAL)),
            None => Ok(ENDED_BY_SIGNAL),
        }
    }
}

impl<R: Files + Processes + Env + AllocGlobal + Clone + Drop> Room for DirRoom<R> {
    ghost use Rattle.std.specs.FinMap.{empty};

    type Ways = Untold;

    ghost folder = { λ _. empty };

    ghost begun = { λ s. s.begun.items };

    ghost faults = { λ s. s.faults };

    fn clear(&mut self, alloc: Global, name: &Text) -> Result<(), Outer> {
        self.begun.push(name.copy(alloc)?)?;
        let emptied = self.empty(alloc);
        noted(&mut self.faults, emptied)
    }

    fn put(&mut self, alloc: Global, path: &Path, bytes: &[u8]) -> Result<(), Outer> {
        let written = self.write(alloc, path, bytes);
        noted(&mut self.faults, written)
    }

    fn run(&mut self, alloc: Global, words: &[Text]) -> Result<u8, Outer> {
        let status = self.status(alloc, words);
        noted(&mut self.faults, status)
    }

    fn names(&mut self, _alloc: Global, below: &Path) -> Result<Paths, Outer> {
        let listed = listed(&self.rt, self.folder.as_str(), below);
        noted(&mut self.faults, listed)
    }

    fn take(&mut self, alloc: Global, file: &Path, most: u64) -> Result<Option<Vec<u8>>, Outer> {
        let read = first_bytes_of(&self.rt, alloc, self.folder.as_str(), file, most);
        noted(&mut self.faults, read)
    }
}
