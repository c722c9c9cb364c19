// A room in which one port at a time is built.
ghost use Rattle.std.specs.Prelude.{◌≡◌, ◌≤◌, ◌<◌, ℕ, List, [], ◌∷◌, ◌++◌, length, IsTrue, IfOk, IfSome, OnOk, OnErr, vec_len};
ghost use Rattle.std.specs.Option.{option_map};
ghost use Rattle.std.specs.FinMap.{empty, insert};
ghost use Rattle.outside.specs.Contents.{Contents, IsListing, IsFree, files_below, first_bytes};
ghost use Rattle.outside.specs.Outcomes.{GrewByAtMost};
ghost use Rattle.outside.specs.Faults.{HasCause};

use crate::outer::Outer;
use crate::ways::Ways;
use bulk_base::{Path, Paths, Text};
use std::alloc::Global;

/// A room: a folder in which commands run, one after another.
///
/// After an error the folder is unknown until the next `clear`.
pub trait Room {
    /// What commands do in the rooms of this type, or that they tell nothing.
    type Ways: Ways;

    /// What the folder holds, where `Ways` tells.
    ghost folder: { Self → Contents };

    /// The names that were given to `clear`, in order; always told.
    ghost begun: { Self → List (List ℕ) };

    /// How often the room has failed.
    ghost faults: { Self → ℕ };

    /// Begins a build: notes the port's name, then empties the folder.
    fn clear(&mut self, alloc: Global, name: &Text) -> Result<(), Outer>
        ensures emptied { IsTrue Self.Ways.tells → OnOk result (folder self.new ≡ empty) }
        ensures begun { OnOk result (begun self.new ≡ begun self.old ++ name.now ∷ []) }
        ensures begun_err { OnErr result (GrewByAtMost name.now (begun self.old) (begun self.new)) }
        ensures cause { HasCause (faults self.old) (faults self.new) result };

    /// Puts a file at a path that collides with no file there.
    fn put(&mut self, alloc: Global, path: &Path, bytes: &[u8]) -> Result<(), Outer>
        requires { IsTrue Self.Ways.tells → IsFree path.now (folder self.old) }
        ensures told { IsTrue Self.Ways.tells → OnOk result (folder self.new ≡ insert (folder self.old) path.now bytes.now) }
        ensures begun { begun self.new ≡ begun self.old }
        ensures cause { HasCause (faults self.old) (faults self.new) result };

    /// Runs a command, given as its words, and answers its status; at least one word.
    fn run(&mut self, alloc: Global, words: &[Text]) -> Result<u8, Outer>
        requires { 0 < length words.now }
        ensures status { IsTrue Self.Ways.tells → IfOk result (λ status. status ≡ (Self.Ways.runs words.now (folder self.old)).0) }
        ensures after { IsTrue Self.Ways.tells → OnOk result (folder self.new ≡ (Self.Ways.runs words.now (folder self.old)).1) }
        ensures begun { begun self.new ≡ begun self.old }
        ensures cause { HasCause (faults self.old) (faults self.new) result };

    /// All files below a folder of the room, whole paths, in byte order, none a folder of another.
    fn names(&mut self, alloc: Global, below: &Path) -> Result<Paths, Outer>
        ensures listing { IfOk result (IsListing below.now) }
        ensures told { IsTrue Self.Ways.tells → IfOk result (λ paths. paths ≡ files_below below.now (folder self.old)) }
        ensures same { IsTrue Self.Ways.tells → OnOk result (folder self.new ≡ folder self.old) }
        ensures begun { begun self.new ≡ begun self.old }
        ensures cause { HasCause (faults self.old) (faults self.new) result };

    /// The first `most` bytes of a file of the room; None where there is no such file.
    fn take(&mut self, alloc: Global, file: &Path, most: u64) -> Result<Option<Vec<u8>>, Outer>
        ensures within { IfOk result (λ found. IfSome found (λ bytes. vec_len bytes ≤ most)) }
        ensures told { IsTrue Self.Ways.tells → IfOk result (λ found. option_map (λ b. b.items) found ≡ first_bytes most file.now (folder self.old)) }
        ensures same { IsTrue Self.Ways.tells → OnOk result (folder self.new ≡ folder self.old) }
        ensures begun { begun self.new ≡ begun self.old }
        ensures cause { HasCause (faults self.old) (faults self.new) result };
}

/// A room that is lent is a room.
impl<R: Room> Room for &mut R {
    type Ways = R::Ways;

    ghost folder = { λ room. R.folder room.now };

    ghost begun = { λ room. R.begun room.now };

    ghost faults = { λ room. R.faults room.now };

    fn clear(&mut self, alloc: Global, name: &Text) -> Result<(), Outer> {
        R::clear(&mut **self, alloc, name)
    }

    fn put(&mut self, alloc: Global, path: &Path, bytes: &[u8]) -> Result<(), Outer> {
        R::put(&mut **self, alloc, path, bytes)
    }

    fn run(&mut self, alloc: Global, words: &[Text]) -> Result<u8, Outer> {
        R::run(&mut **self, alloc, words)
    }

    fn names(&mut self, alloc: Global, below: &Path) -> Result<Paths, Outer> {
        R::names(&mut **self, alloc, below)
    }

    fn take(&mut self, alloc: Global, file: &Path, most: u64) -> Result<Option<Vec<u8>>, Outer> {
        R::take(&mut **self, alloc, file, most)
    }
}
