// A ports tree.
ghost use Rattle.std.specs.Prelude.{◌≡◌, ◌≤◌, ℕ, Bool, IsTrue, IfOk, IfSome, vec_len};
ghost use Rattle.std.specs.Option.{option_map};
ghost use Rattle.outside.specs.Contents.{Contents, IsListing, files_below, first_bytes};
ghost use Rattle.outside.specs.Faults.{HasCause};

use crate::outer::Outer;
use bulk_base::{Path, Paths};
use std::alloc::Global;

/// A ports tree: files at paths, which no call changes.
pub trait Tree {
    /// Whether `content` is what the tree holds.
    ghost tells: { Bool };

    /// What the tree holds, where its type tells it.
    ghost content: { Self → Contents };

    /// How often the tree has failed.
    ghost faults: { Self → ℕ };

    /// All files below a folder, whole paths, in byte order, none a folder of another.
    fn names(&mut self, alloc: Global, folder: &Path) -> Result<Paths, Outer>
        ensures listing { IfOk result (IsListing folder.now) }
        ensures told { IsTrue tells → IfOk result (λ paths. paths ≡ files_below folder.now (content self.old)) }
        ensures same { content self.new ≡ content self.old }
        ensures cause { HasCause (faults self.old) (faults self.new) result };

    /// The first `most` bytes of a file; None where there is no such file.
    fn bytes(&mut self, alloc: Global, file: &Path, most: u64) -> Result<Option<Vec<u8>>, Outer>
        ensures within { IfOk result (λ found. IfSome found (λ bytes. vec_len bytes ≤ most)) }
        ensures told { IsTrue tells → IfOk result (λ found. option_map (λ b. b.items) found ≡ first_bytes most file.now (content self.old)) }
        ensures same { content self.new ≡ content self.old }
        ensures cause { HasCause (faults self.old) (faults self.new) result };
}
