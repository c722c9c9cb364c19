// The lists of categories, and of a category's ports.
ghost use Rattle.std.specs.Prelude.{◌≡◌, ◌≢◌, find, Ok, Err, IsTrue, IfOk, IfErr};
ghost use Rattle.std.specs.Option.{option_copied};
ghost use Rattle.tree_index.specs.Facts.{IsCaused};
ghost use Rattle.tree_index.specs.Gathered.{IsNameList};
ghost use Rattle.tree_index.specs.VarFiles as files;

use crate::fault::{IndexError, PortKind};
use crate::port_fault::bad_port;
use crate::var_file::read_list_at;
use bulk_base::{Path, Text, Texts, in_order};
use outside::Tree;
use port_name::is_port_name;
use port_vars::words_in;
use std::alloc::Global;

fn is_no_port_name(word: &Text) -> bool
    ensures { result ≡ files.is_no_port_name word.now }
{
    !is_port_name(word.bytes())
}

/// The first word that is no name of a category or a port.
fn first_bad(words: &Texts) -> Option<&Text>
    ensures { option_copied result ≡ find files.is_no_port_name words.now }
{
    words.iter().find(|word| is_no_port_name(word))
}

/// Words that are names of categories or ports, in byte order, each once. BadPort exactly where one is no such name.
fn names_among(alloc: Global, path: &Path, words: &Texts) -> Result<Texts, IndexError>
    ensures ok { IfOk result (λ list. files.names_among path.now words.now ≡ Ok list) }
    ensures refused { IfErr result (λ e. e ≢ IndexError.NoMemory → files.names_among path.now words.now ≡ Err e) }
    ensures form { IfOk result IsNameList }
    ensures quiet { IfErr result (λ e. e ≢ IndexError.TreeFault) }
{
    match first_bad(words) {
        None => Ok(in_order(alloc, words.as_slice())?),
        Some(_) => {
            let name = Text::literal(alloc, b"SUBDIR")?;
            Err(bad_port(alloc, path, 0, PortKind::BadValue { name }))
        }
    }
}

/// What the SUBDIR of a file of the tree lists (docs/FORMATS.md, "The tree folder"): names of categories or ports, in byte
/// order, each once.
///
/// The file has to be there and to be a variable file of at most 1,048,576 bytes, and each word of its SUBDIR has to be the name
/// of a category or a port: else BadPort. One read of the file, and O(log n) comparisons for each of the n words.
pub(crate) fn read_list<T: Tree>(
    alloc: Global,
    tree: &mut T,
    path: &Path,
) -> Result<Texts, IndexError>
    ensures ok { IsTrue T.tells → IfOk result (λ list. files.listed_in (T.content tree.old) path.now ≡ Ok list) }
    ensures refused { IsTrue T.tells → IfErr result (λ e. e ≢ IndexError.NoMemory → e ≢ IndexError.TreeFault → files.listed_in (T.content tree.old) path.now ≡ Err e) }
    ensures form { IfOk result IsNameList }
    ensures same { T.content tree.new ≡ T.content tree.old }
    ensures cause { IsCaused (T.faults tree.old) (T.faults tree.new) result }
{
    let vars = read_list_at(alloc, tree, path)?;
    let words = words_in(alloc, &vars, &Text::literal(alloc, b"SUBDIR")?)?;
    names_among(alloc, path, &words)
}
