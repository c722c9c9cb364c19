// The names of a store's files.
ghost use Rattle.std.specs.Prelude.{◌≡◌, IfOk};
ghost use Rattle.bulk_model.specs.FileNames as names;

use bulk_base::{NoMemory, Text};
use std::alloc::Global;

/// The name of the file of the package with a name: the name and `.pkg` (docs/FORMATS.md). NoMemory for want of memory
/// alone. Packages of different names have files of different names.
pub fn file_name(alloc: Global, name: &Text) -> Result<Text, NoMemory>
    ensures { IfOk result (λ file. file ≡ names.package_file name.now) }
{
    let mut bytes = Vec::from_slice(alloc, name.bytes())?;
    bytes.extend_from_slice(b".pkg".as_slice())?;
    Text::of(alloc, bytes.as_slice())
}

/// Whether a name is that of a package's file: it ends in `.pkg`. The catalogue's does not. Takes no memory.
pub fn is_package_file(name: &Text) -> bool
    ensures { result ≡ names.is_package_file name.now }
{
    name.bytes().ends_with(b".pkg")
}

/// The name of the catalogue's file, `catalogue.jsonl`. NoMemory for want of memory alone.
pub fn catalogue_file(alloc: Global) -> Result<Text, NoMemory>
    ensures { IfOk result (λ file. file ≡ names.catalogue_file) }
{
    Text::literal(alloc, b"catalogue.jsonl")
}
