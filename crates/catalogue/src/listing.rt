// The lines of all packages, by name.
ghost use Rattle.std.specs.Prelude.{◌≡◌, ◌++◌, [], unwrap_or, IfOk, OnOk};
ghost use Rattle.std.specs.List.{flat_map};
ghost use Rattle.std.specs.FinMap as finite;
ghost use Rattle.catalogue.specs.Catalogue.{cat, lines_of};

use crate::entry::entry_line;
use bulk_base::{Bytes, NoMemory, Text, TextMap};
use bulk_model::{Package, Shared};
use std::alloc::Global;

/// The line of each package under its name.
fn lines_of(alloc: Global, packages: &[Shared<Package>]) -> Result<TextMap<Bytes>, NoMemory>
    ensures { IfOk result (λ lines. lines ≡ lines_of packages.now) }
{
    let mut lines = TextMap::new(alloc);
    for shared in packages {
        let built = shared.get();
        let line = Bytes::from_vec(entry_line(alloc, built)?);
        lines.insert(built.name.copy(alloc)?, line)?;
    }
    Ok(lines)
}

/// Lines one after another, by these names.
fn listed(alloc: Global, lines: &TextMap<Bytes>, names: &[Text]) -> Result<Vec<u8>, NoMemory>
    ensures { IfOk result (λ text. text.items
        ≡ flat_map (λ name. unwrap_or (finite.get lines.now name) []) names.now) }
{
    let mut text = Vec::new(alloc);
    for name in names {
        if let Some(line) = lines.get(name) {
            text.extend_from_slice(line.as_slice())?;
        }
    }
    Ok(text)
}

/// The catalogue of packages (docs/FORMATS.md, "The catalogue"): a line of compact JSON for each,
/// in the byte order of their names; of equal names the last counts. NoMemory for want of memory
/// alone.
///
/// Each package's record is written and hashed once, and each package costs the logarithm of their
/// number.
pub fn catalogue(alloc: Global, packages: &[Shared<Package>]) -> Result<Vec<u8>, NoMemory>
    ensures { IfOk result (λ text. text.items ≡ cat packages.now) }
{
    let lines = lines_of(alloc, packages)?;
    let names = lines.keys(alloc)?;
    listed(alloc, &lines, names.as_slice())
}
