// The variable files of a ports tree.
ghost use Rattle.std.specs.Prelude.{◌≡◌, ◌≢◌, take, Some, None, IsTrue, IfOk, IfErr, Ok, Err};
ghost use Rattle.std.specs.Option.{option_map};
ghost use Rattle.std.specs.FinMap as finite;
ghost use Rattle.tree_index.specs.VarFiles as files;
ghost use Rattle.tree_index.specs.Facts.{IsCaused};

use crate::fault::{IndexError, PortKind};
use crate::port_fault::{bad_port, vars_fault};
use bulk_base::Path;
use outside::Tree;
use port_vars::{Vars, read_list, read_vars};
use std::alloc::Global;

// One byte more than a variable file may have, and than one that lists names, so that a longer one is seen to be too long.
const MOST_BYTES: u64 = 65_537;

const MOST_LIST_BYTES: u64 = 1_048_577;

/// The variables of a file of the tree.
#[derive(Drop)]
pub(crate) struct VarFile {
    pub(crate) vars: Vars,
    /// How many bytes the file has.
    pub(crate) size: u64,
}

/// The variables of a file with these bytes.
fn vars_in(alloc: Global, path: &Path, bytes: &[u8]) -> Result<Vars, IndexError>
    ensures ok { IfOk result (λ vars. files.vars_in path.now bytes.now ≡ Ok vars) }
    ensures refused { IfErr result (λ e. e ≢ IndexError.NoMemory
        → files.vars_in path.now bytes.now ≡ Err e) }
    ensures quiet { IfErr result (λ e. e ≢ IndexError.TreeFault) }
{
    match read_vars(alloc, bytes) {
        Ok(vars) => Ok(vars),
        Err(fault) => Err(vars_fault(alloc, path, fault)),
    }
}

/// The variables of a file with these bytes that lists categories or ports.
fn list_in(alloc: Global, path: &Path, bytes: &[u8]) -> Result<Vars, IndexError>
    ensures ok { IfOk result (λ vars. files.list_in path.now bytes.now ≡ Ok vars) }
    ensures refused { IfErr result (λ e. e ≢ IndexError.NoMemory
        → files.list_in path.now bytes.now ≡ Err e) }
    ensures quiet { IfErr result (λ e. e ≢ IndexError.TreeFault) }
{
    match read_list(alloc, bytes) {
        Ok(vars) => Ok(vars),
        Err(fault) => Err(vars_fault(alloc, path, fault)),
    }
}

/// The first `most` bytes of a file that has to be there: BadPort with Absent at line 0 where it is not.
fn read_bytes<T: Tree>(
    alloc: Global,
    tree: &mut T,
    path: &Path,
    most: u64,
) -> Result<Vec<u8>, IndexError>
    ensures ok { IsTrue T.tells → IfOk result (λ bytes.
        Some bytes.items ≡ option_map (take most) (finite.get (T.content tree.old) path.now)) }
    ensures refused { IsTrue T.tells → IfErr result (λ e. e ≢ IndexError.NoMemory → e ≢ IndexError.TreeFault
        → (None ≡ option_map (take most) (finite.get (T.content tree.old) path.now))
        × (e ≡ IndexError.BadPort path.now 0 PortKind.Absent)) }
    ensures same { T.content tree.new ≡ T.content tree.old }
    ensures cause { IsCaused (T.faults tree.old) (T.faults tree.new) result }
{
    match tree.bytes(alloc, path, most)? {
        Some(bytes) => Ok(bytes),
        None => Err(bad_port(alloc, path, 0, PortKind::Absent)),
    }
}

/// The variables of a file that has to be there, with its size: BadPort with Absent at line 0 where it is not, and with the
/// first line that is at fault where it is no variable file.
pub(crate) fn read_vars_at<T: Tree>(
    alloc: Global,
    tree: &mut T,
    path: &Path,
) -> Result<VarFile, IndexError>
    ensures ok { IsTrue T.tells → IfOk result (λ file.
        files.vars_at (T.content tree.old) path.now ≡ Ok file.vars) }
    ensures size { IsTrue T.tells → IfOk result (λ file.
        files.size_at (T.content tree.old) path.now ≡ file.size) }
    ensures refused { IsTrue T.tells → IfErr result (λ e. e ≢ IndexError.NoMemory → e ≢ IndexError.TreeFault
        → files.vars_at (T.content tree.old) path.now ≡ Err e) }
    ensures same { T.content tree.new ≡ T.content tree.old }
    ensures cause { IsCaused (T.faults tree.old) (T.faults tree.new) result }
{
    let bytes = read_bytes(alloc, tree, path, MOST_BYTES)?;
    let vars = vars_in(alloc, path, bytes.as_slice())?;
    Ok(VarFile {
        vars,
        size: bytes.len() as u64,
    })
}

/// The variables of a file that has to be there and lists categories or ports, with the same refusals.
pub(crate) fn read_list_at<T: Tree>(
    alloc: Global,
    tree: &mut T,
    path: &Path,
) -> Result<Vars, IndexError>
    ensures ok { IsTrue T.tells → IfOk result (λ vars.
        files.list_at (T.content tree.old) path.now ≡ Ok vars) }
    ensures refused { IsTrue T.tells → IfErr result (λ e. e ≢ IndexError.NoMemory → e ≢ IndexError.TreeFault
        → files.list_at (T.content tree.old) path.now ≡ Err e) }
    ensures same { T.content tree.new ≡ T.content tree.old }
    ensures cause { IsCaused (T.faults tree.old) (T.faults tree.new) result }
{
    let bytes = read_bytes(alloc, tree, path, MOST_LIST_BYTES)?;
    list_in(alloc, path, bytes.as_slice())
}

/// The variables of a file that may be absent, and then sets none.
pub(crate) fn read_vars_if_there<T: Tree>(
    alloc: Global,
    tree: &mut T,
    path: &Path,
) -> Result<Vars, IndexError>
    ensures ok { IsTrue T.tells → IfOk result (λ vars. files.vars_if_there (T.content tree.old) path.now ≡ Ok vars) }
    ensures refused { IsTrue T.tells → IfErr result (λ e. e ≢ IndexError.NoMemory → e ≢ IndexError.TreeFault → files.vars_if_there (T.content tree.old) path.now ≡ Err e) }
    ensures same { T.content tree.new ≡ T.content tree.old }
    ensures cause { IsCaused (T.faults tree.old) (T.faults tree.new) result }
{
    match tree.bytes(alloc, path, MOST_BYTES)? {
        Some(bytes) => vars_in(alloc, path, bytes.as_slice()),
        None => vars_in(alloc, path, b""),
    }
}
