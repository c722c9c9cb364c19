// The tree of a number.
ghost use Rattle.std.specs.Prelude.{◌≡◌, ◌≤◌, ◌++◌, [], ◌∷◌, map, IfOk, OnOk};
ghost use Rattle.std.specs.List.{range_with_len};
ghost use Rattle.outside.specs.Failures.{fresh};
ghost use Rattle.tree_maker.specs.Made as made;

use crate::draws::Draws;
use crate::file::{categories_file, category_file, port_file};
use crate::word::CATEGORIES;
use bulk_base::{Files, NoMemory, Sequence};
use outside::{Fails, MemError, MemTree};
use std::alloc::{AllocError, Global};

/// The categories that have a port.
fn categories(alloc: Global, ports: u32) -> Result<Vec<u32>, NoMemory>
    ensures { IfOk result (λ numbers. numbers.items ≡ made.categories ports) }
{
    let mut numbers = Vec::new(alloc);
    for c in 0..ports.min(CATEGORIES) {
        numbers.push(c)?;
    }
    Ok(numbers)
}

/// Puts the files that list the ports of categories behind others.
fn push_categories(alloc: Global, files: &mut Files, ports: u32, count: u32) -> Result<(), NoMemory>
    requires { count ≤ 8 }
    ensures { OnOk result (files.new
        ≡ files.old ++ map (made.category_file ports) (range_with_len 0 count)) }
{
    for c in 0..count {
        files.push(category_file(alloc, ports, c)?)?;
    }
    Ok(())
}

/// Puts the files of ports behind others.
fn push_ports(alloc: Global, files: &mut Files, number: u64, ports: u32) -> Result<(), NoMemory>
    requires { ports ≤ 8192 }
    ensures { OnOk result (files.new ≡ files.old ++ made.port_files ports 0 number) }
{
    let mut draws = Draws::from_number(number);
    for i in 0..ports {
        files.push(port_file(alloc, &mut draws, i)?)?;
    }
    Ok(())
}

/// All files of the tree of a number.
fn files(alloc: Global, number: u64, ports: u32) -> Result<Files, NoMemory>
    requires { ports ≤ 8192 }
    ensures { IfOk result (λ files. files ≡ made.files number ports) }
{
    let numbers = categories(alloc, ports)?;
    let mut files = Sequence::new(alloc);
    files.push(categories_file(alloc, numbers.as_slice())?)?;
    push_categories(alloc, &mut files, ports, ports.min(CATEGORIES))?;
    push_ports(alloc, &mut files, number, ports)?;
    Ok(files)
}

/// The ports tree of a number, with so many ports (docs/FORMATS.md, "The tree of a number"): the
/// same numbers make the same tree. No call of it is planned to fail. NoMemory for want of memory
/// alone.
///
/// Each port costs a fixed number of steps, and a logarithm of their number.
pub fn make_tree(alloc: Global, number: u64, ports: u32) -> Result<MemTree, NoMemory>
    requires { ports ≤ 8192 }
    ensures { IfOk result (λ tree.
        tree ≡ record { content = made.tree number ports; failing = fresh [] }) }
{
    let files = files(alloc, number, ports)?;
    match MemTree::new(alloc, files, Fails::new(alloc)) {
        Ok(tree) => Ok(tree),
        Err(MemError::NotFolder { .. }) => unreachable!(),
        Err(MemError::NoMemory) => Err(AllocError),
    }
}
