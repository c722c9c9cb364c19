// What the tree's MOVED says.
ghost use Rattle.std.specs.Prelude.{◌≡◌, ◌≢◌, Ok, Err, IsTrue, IfOk, IfErr};
ghost use Rattle.tree_index.specs.Facts.{IsCaused};
ghost use Rattle.tree_index.specs.Faults as faults;
ghost use Rattle.tree_index.specs.Places as places;
ghost use Rattle.tree_index.specs.Tree as trees;

use crate::fault::{IndexError, PortKind};
use crate::place::moved_file;
use crate::port_fault::bad_port;
use bulk_base::Path;
use bulk_model::Which;
use moved_list::{Moved, MovedError, read_moved};
use outside::Tree;
use std::alloc::Global;

// The most bytes of MOVED.
const MOST_FILE_BYTES: u64 = 4_194_304;

/// A fault of MOVED.
fn moved_fault(alloc: Global, path: &Path, fault: MovedError) -> IndexError
    ensures told { result ≢ IndexError.NoMemory → result ≡ faults.moved_fault path.now fault }
    ensures quiet { result ≢ IndexError.TreeFault }
{
    match fault {
        MovedError::BadLine { line } => bad_port(alloc, path, line, PortKind::BadMoved),
        MovedError::NoMemory => IndexError::NoMemory,
    }
}

/// What a MOVED with these bytes says.
#[tactic(auto, unfolding(crate::specs::Tree::moved_in))]
fn moved_in(alloc: Global, path: &Path, bytes: &[u8]) -> Result<Moved, IndexError>
    requires { path.now ≡ places.moved_file }
    ensures ok { IfOk result (λ moved. trees.moved_in bytes.now ≡ Ok moved) }
    ensures refused { IfErr result (λ e. e ≢ IndexError.NoMemory → trees.moved_in bytes.now ≡ Err e) }
    ensures quiet { IfErr result (λ e. e ≢ IndexError.TreeFault) }
{
    if bytes.len() as u64 > MOST_FILE_BYTES {
        return Err(IndexError::Limit {
            which: Which::FileBytes,
            count: MOST_FILE_BYTES + 1,
        });
    }
    match read_moved(alloc, bytes) {
        Ok(moved) => Ok(moved),
        Err(fault) => Err(moved_fault(alloc, path, fault)),
    }
}

/// What the tree's MOVED says; nothing where it is absent.
///
/// Limit of FileBytes where it has more than 4,194,304 bytes, of which no more than one is read beyond them; BadPort with
/// BadMoved at its first line that is outside the form. The cost is that of `read_moved`.
pub(crate) fn read_moved_at<T: Tree>(alloc: Global, tree: &mut T) -> Result<Moved, IndexError>
    ensures ok { IsTrue T.tells → IfOk result (λ moved. trees.moved_at (T.content tree.old) ≡ Ok moved) }
    ensures refused { IsTrue T.tells → IfErr result (λ e. e ≢ IndexError.NoMemory → e ≢ IndexError.TreeFault → trees.moved_at (T.content tree.old) ≡ Err e) }
    ensures same { T.content tree.new ≡ T.content tree.old }
    ensures cause { IsCaused (T.faults tree.old) (T.faults tree.new) result }
{
    let path = moved_file(alloc)?;
    match tree.bytes(alloc, &path, MOST_FILE_BYTES + 1)? {
        None => moved_in(alloc, &path, b""),
        Some(bytes) => moved_in(alloc, &path, bytes.as_slice()),
    }
}
