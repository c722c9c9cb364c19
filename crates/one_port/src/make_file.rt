// What make.conf says.
ghost use Rattle.std.specs.Prelude.{◌≡◌, false, IsTrue};
ghost use Rattle.conf_file.specs.Make.{make_of};
ghost use Rattle.tree_index.specs.Faults.{refused_as};
ghost use Rattle.outside.specs.Faults.{IsCaused, err_is};
ghost use Rattle.one_port.specs.Causes.{blames_tree};
ghost use Rattle.one_port.specs.Decided.{IsOfReading, Tells};
ghost use Rattle.one_port.specs.PortsWanted.{make_at, make_file};
ghost use Rattle.one_port.specs.TreeAnswers as told;

use crate::answer::Answer;
use crate::tree_answer::{conf_answer, tree_answer};
use bulk_base::Path;
use conf_file::{MakeConf, read_make};
use outside::Tree;
use std::alloc::Global;

// One byte more than a variable file may have, so that a longer one is seen to be too long.
const MOST_BYTES: u64 = 65_537;

// What a make.conf with these bytes says.
fn make_in(alloc: Global, path: &Path, bytes: &[u8]) -> Result<MakeConf, Answer>
    requires { path.now ≡ make_file }
    ensures told { Tells (refused_as (told.conf_answer make_file) (make_of bytes.now)) result }
    ensures reading { IsOfReading result }
    ensures quiet { err_is blames_tree result ≡ false }
{
    match read_make(alloc, bytes) {
        Ok(make) => Ok(make),
        Err(fault) => Err(conf_answer(alloc, path, fault)),
    }
}

/// What make.conf says; a tree without one sets nothing.
pub(crate) fn read_make_at<T: Tree>(alloc: Global, tree: &mut T) -> Result<MakeConf, Answer>
    ensures told { IsTrue T.tells → Tells (make_at (T.content tree.old)) result }
    ensures reading { IsOfReading result }
    ensures same { T.content tree.new ≡ T.content tree.old }
    ensures cause { IsCaused (T.faults tree.old) (T.faults tree.new) (err_is blames_tree result) }
{
    let path = Path::literal(alloc, b"etc/make.conf")?;
    match tree.bytes(alloc, &path, MOST_BYTES) {
        Ok(Some(bytes)) => make_in(alloc, &path, bytes.as_slice()),
        Ok(None) => make_in(alloc, &path, b""),
        Err(outer) => Err(tree_answer(outer)),
    }
}
