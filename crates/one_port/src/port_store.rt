// What one port's run does with the store.
ghost use Rattle.std.specs.Prelude.{◌≡◌, find, IsTrue, IfOk, OnOk, OnErr};
ghost use Rattle.std.specs.FinMap.{keys};
ghost use Rattle.std.specs.Option.{option_copied};
ghost use Rattle.outside.specs.Changes.{IsUnchanged, Made};
ghost use Rattle.outside.specs.Faults.{HasCause};
ghost use Rattle.outside.specs.declared.change.Change.TheVariants.{Put};
ghost use Rattle.bulk_model.specs.FileNames.{package_file};
ghost use Rattle.bulk_model.specs.Spelling.{spelling};
ghost use Rattle.one_port.specs.Refusals.{is_package_file as is_package_file_of};

use bulk_base::{NoMemory, Text};
use bulk_model::Package;
use outside::{Outer, Store};
use pkg_record::write;
use std::alloc::Global;

fn is_package_file(name: &[u8]) -> bool
    ensures { result ≡ is_package_file_of name.now }
{
    name.len() > 3 && &name[name.len() - 4..] == b".pkg".as_slice()
}

fn package_file_among(names: &[Text]) -> Option<&Text>
    ensures { option_copied result ≡ find is_package_file_of names.now }
{
    names.iter().find(|name| is_package_file(name.bytes()))
}

/// The first name of a package file in the store.
pub(crate) fn first_package_file<S: Store>(
    alloc: Global,
    store: &mut S,
) -> Result<Option<Text>, Outer>
    ensures told { IsTrue S.tells → IfOk result (λ found. found ≡ find is_package_file_of (keys (S.content store.old))) }
    ensures same { IsUnchanged (S.content store.old) (S.content store.new) (S.journal store.old) (S.journal store.new) }
    ensures cause { HasCause (S.faults store.old) (S.faults store.new) result }
{
    let names = store.names(alloc)?;
    match package_file_among(names.as_slice()) {
        Some(name) => Ok(Some(name.copy(alloc)?)),
        None => Ok(None),
    }
}

// The name of a package's file.
fn file_name(alloc: Global, built: &Package) -> Result<Text, NoMemory>
    ensures { IfOk result (λ name. name ≡ package_file built.now.name) }
{
    let mut bytes = Vec::from_slice(alloc, built.name.bytes())?;
    bytes.extend_from_slice(b".pkg".as_slice())?;
    Text::of(alloc, bytes.as_slice())
}

/// Puts a package's record into the store.
pub(crate) fn save<S: Store>(alloc: Global, store: &mut S, built: &Package) -> Result<(), Outer>
    ensures told { IsTrue S.tells → Made (Put (package_file built.now.name) (spelling built.now)) (S.content store.old) (S.content store.new) (S.journal store.old) (S.journal store.new) result }
    ensures cause { HasCause (S.faults store.old) (S.faults store.new) result }
{
    let name = file_name(alloc, built)?;
    let record = write(alloc, built)?;
    store.put(alloc, &name, &record)
}
