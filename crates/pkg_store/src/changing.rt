// The changes that a run makes in a store.
ghost use Rattle.std.specs.Prelude.{IsTrue};
ghost use Rattle.outside.specs.Changes.{Made};
ghost use Rattle.outside.specs.Faults.{HasCause};
ghost use Rattle.outside.specs.declared.change.Change.TheVariants.{Put as ToPut};
ghost use Rattle.bulk_model.specs.FileNames.{package_file};
ghost use Rattle.bulk_model.specs.Spelling.{spelling};
ghost use Rattle.pkg_store.specs.Changing.{Deleted};

use bulk_base::Text;
use bulk_model::{Package, file_name};
use outside::{Outer, Store};
use pkg_record::write;
use std::alloc::Global;

/// Puts a package's record into a store, under the name of the package's file (docs/FORMATS.md, "The store"): one put.
///
/// Fault where the store failed, and then the old file of that name stands or the new one; NoMemory for want of memory alone, and
/// then nothing changed. It costs what `write` of pkg_record does and the put.
pub fn save<S: Store>(alloc: Global, store: &mut S, built: &Package) -> Result<(), Outer>
    ensures told { IsTrue S.tells → Made (ToPut (package_file built.now.name) (spelling built.now))
        (S.content store.old) (S.content store.new) (S.journal store.old) (S.journal store.new) result }
    ensures cause { HasCause (S.faults store.old) (S.faults store.new) result }
{
    let name = file_name(alloc, &built.name)?;
    let record = write(alloc, built)?;
    store.put(alloc, &name, record.as_slice())
}

/// Removes files from a store, in the order given, up to the first error; a name that is not there is passed over.
///
/// Fault where the store failed: the names before the one that failed are gone, and it may be gone too. NoMemory for want of
/// memory alone: just the names before are gone. One removal for each name.
pub fn delete<S: Store>(alloc: Global, store: &mut S, names: &[Text]) -> Result<(), Outer>
    ensures told { IsTrue S.tells → Deleted names.now
        (S.content store.old) (S.content store.new) (S.journal store.old) (S.journal store.new) result }
    ensures cause { HasCause (S.faults store.old) (S.faults store.new) result }
{
    for name in names {
        store.remove(alloc, name)?;
    }
    Ok(())
}
