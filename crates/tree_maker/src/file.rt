// The files of a tree, each at its path.
ghost use Rattle.std.specs.Prelude.{◌≡◌, ◌≤◌, ◌<◌, ◌∷◌, [], ◌++◌, length, IfOk, OnOk, if◌then◌else◌};
ghost use Rattle.std.specs.String.{string_bytes};
ghost use Rattle.tree_maker.specs.Made as made;
ghost use Rattle.tree_maker.specs.Words.{word};

use crate::draws::Draws;
use crate::port::{draw_port, port_bytes};
use crate::word::{Word, category, category_of, folder, push_spaced};
use bulk_base::{FileItem, NoMemory, Path, Sequence};
use std::alloc::Global;

/// The name of a category as a path of one part.
fn category_part(alloc: Global, c: u32) -> Result<Path, NoMemory>
    requires { c < 8 }
    ensures same { IfOk result (λ path. path ≡ made.category c) }
    ensures short { IfOk result (λ path. length path ≤ 2) }
{
    let name = category(alloc, c)?;
    Ok(Path::literal(alloc, name.as_str().as_bytes())?)
}

/// The folder of a category.
fn category_path(alloc: Global, c: u32) -> Result<Path, NoMemory>
    requires { c < 8 }
    ensures path { IfOk result (λ path. path ≡ made.category_path c) }
    ensures short { IfOk result (λ path. length path ≤ 8) }
{
    Path::literal(alloc, b"ports")?.join_short(alloc, &category_part(alloc, c)?)
}

/// The name of a port's folder as a path of one part.
fn folder_part(alloc: Global, i: u32) -> Result<Path, NoMemory>
    requires { i < 10000 }
    ensures same { IfOk result (λ path. path ≡ made.folder i) }
    ensures short { IfOk result (λ path. length path ≤ 5) }
{
    let name = folder(alloc, i)?;
    Ok(Path::literal(alloc, name.as_str().as_bytes())?)
}

/// The folder of the port `i`.
fn port_folder(alloc: Global, i: u32) -> Result<Path, NoMemory>
    requires { i < 10000 }
    ensures path { IfOk result (λ path. path ≡ made.port_folder i) }
    ensures short { IfOk result (λ path. length path ≤ 14) }
{
    category_path(alloc, category_of(i))?.join_short(alloc, &folder_part(alloc, i)?)
}

/// The path of the file of the port `i`.
fn port_path(alloc: Global, i: u32) -> Result<Path, NoMemory>
    requires { i < 10000 }
    ensures { IfOk result (λ path. path ≡ made.port_path i) }
{
    port_folder(alloc, i)?.join_short(alloc, &Path::literal(alloc, b"port.vars")?)
}

/// The file of the port `i`, by what is drawn for it.
pub(crate) fn port_file(alloc: Global, draws: &mut Draws, i: u32) -> Result<FileItem, NoMemory>
    requires { i < 10000 }
    ensures file { IfOk result (λ file. file ≡ made.port_file i draws.old) }
    ensures state { OnOk result (draws.new ≡ made.rest i draws.old) }
{
    let port = draw_port(alloc, draws, i)?;
    let bytes = port_bytes(alloc, i, &port)?;
    Ok(FileItem {
        path: port_path(alloc, i)?,
        bytes: Sequence::from_vec(bytes),
    })
}

/// The text of a file that lists names.
fn subdir_text(alloc: Global, kind: Word, numbers: &[u32]) -> Result<String, NoMemory>
    ensures { IfOk result (λ text. string_bytes text ≡ made.subdir_text (word kind) numbers.now) }
{
    let mut text = String::from_str(alloc, "SUBDIR=")?;
    push_spaced(alloc, &mut text, kind, numbers)?;
    text.push('\n')?;
    Ok(text)
}

/// Puts a number at the end, if it is wanted.
fn push_if(numbers: &mut Vec<u32>, i: u32, wanted: bool) -> Result<(), NoMemory>
    ensures { OnOk result (numbers.new.items
        ≡ numbers.old.items ++ (if wanted then i ∷ [] else [])) }
{
    if wanted {
        numbers.push(i)?;
    }
    Ok(())
}

/// The ports of a category, ascending.
fn ports_in(alloc: Global, ports: u32, c: u32) -> Result<Vec<u32>, NoMemory>
    ensures { IfOk result (λ numbers. numbers.items ≡ made.ports_in ports c) }
{
    let mut numbers = Vec::new(alloc);
    for i in 0..ports {
        push_if(&mut numbers, i, category_of(i) == c)?;
    }
    Ok(numbers)
}

/// The file that lists the ports of a category.
pub(crate) fn category_file(alloc: Global, ports: u32, c: u32) -> Result<FileItem, NoMemory>
    requires { c < 8 }
    ensures { IfOk result (λ file. file ≡ made.category_file ports c) }
{
    let numbers = ports_in(alloc, ports, c)?;
    let text = subdir_text(alloc, Word::Folder, numbers.as_slice())?;
    let folder = category_path(alloc, c)?;
    Ok(FileItem {
        path: folder.join_short(alloc, &Path::literal(alloc, b"subdir.vars")?)?,
        bytes: Sequence::from_vec(text.into_bytes()),
    })
}

/// The file that lists the categories.
pub(crate) fn categories_file(alloc: Global, numbers: &[u32]) -> Result<FileItem, NoMemory>
    ensures { IfOk result (λ file. file ≡ made.categories_file numbers.now) }
{
    let text = subdir_text(alloc, Word::Category, numbers)?;
    Ok(FileItem {
        path: Path::literal(alloc, b"ports/subdir.vars")?,
        bytes: Sequence::from_vec(text.into_bytes()),
    })
}
