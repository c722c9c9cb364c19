// A package store.
ghost use Rattle.std.specs.Prelude.{◌≡◌, ◌≤◌, ℕ, Bool, List, IsTrue, IfOk, IfSome, vec_len};
ghost use Rattle.std.specs.Option.{option_map};
ghost use Rattle.std.specs.FinMap.{keys};
ghost use Rattle.outside.specs.Contents.{Contents, IsAscending, first_bytes};
ghost use Rattle.outside.specs.Changes.{Made, Removed, IsUnchanged};
ghost use Rattle.outside.specs.Faults.{HasCause};
ghost use Rattle.outside.specs.declared.change.Change.{Change};
ghost use Rattle.outside.specs.declared.change.Change.TheVariants.{Put};

use crate::outer::Outer;
use bulk_base::{Text, Texts};
use std::alloc::Global;

/// A package store: files under names.
///
/// A stop at any moment leaves the content after a prefix of the journal.
pub trait Store {
    /// Whether `content` and `journal` are what the store holds and what was done to it.
    ghost tells: { Bool };

    /// What the store holds, where its type tells it.
    ghost content: { Self → Contents };

    /// The changes that took effect, in order, where its type tells them.
    ghost journal: { Self → List Change };

    /// How often the store has failed.
    ghost faults: { Self → ℕ };

    /// All names, in byte order, each once.
    fn names(&mut self, alloc: Global) -> Result<Texts, Outer>
        ensures ascending { IfOk result IsAscending }
        ensures told { IsTrue tells → IfOk result (λ names. names ≡ keys (content self.old)) }
        ensures same { IsUnchanged (content self.old) (content self.new) (journal self.old) (journal self.new) }
        ensures cause { HasCause (faults self.old) (faults self.new) result };

    /// The first `most` bytes of a file; None where there is none of that name.
    fn get(&mut self, alloc: Global, name: &Text, most: u64) -> Result<Option<Vec<u8>>, Outer>
        ensures within { IfOk result (λ found. IfSome found (λ bytes. vec_len bytes ≤ most)) }
        ensures told { IsTrue tells → IfOk result (λ found. option_map (λ b. b.items) found ≡ first_bytes most name.now (content self.old)) }
        ensures same { IsUnchanged (content self.old) (content self.new) (journal self.old) (journal self.new) }
        ensures cause { HasCause (faults self.old) (faults self.new) result };

    /// Puts a file under a name, in place of the one that was there. After a fault the old file stands or the new one.
    fn put(&mut self, alloc: Global, name: &Text, bytes: &[u8]) -> Result<(), Outer>
        ensures told { IsTrue tells → Made (Put name.now bytes.now) (content self.old) (content self.new) (journal self.old) (journal self.new) result }
        ensures cause { HasCause (faults self.old) (faults self.new) result };

    /// Removes the file of a name; Ok where there is none. After a fault the file stands or is gone.
    fn remove(&mut self, alloc: Global, name: &Text) -> Result<(), Outer>
        ensures told { IsTrue tells → Removed name.now (content self.old) (content self.new) (journal self.old) (journal self.new) result }
        ensures cause { HasCause (faults self.old) (faults self.new) result };
}
