// The settings of a run: poudriere.conf and make.conf.
ghost use Rattle.std.specs.Prelude.{◌≡◌, false, IsTrue};
ghost use Rattle.conf_file.specs.Conf.{conf_of};
ghost use Rattle.conf_file.specs.Make.{make_of};
ghost use Rattle.tree_index.specs.Faults.{refused_as};
ghost use Rattle.outside.specs.Faults.{IsCaused, err_is};
ghost use Rattle.run_answer.specs.Kind.{blames_tree};
ghost use Rattle.run_answer.specs.Steps.{IsOfReading, Tells};
ghost use Rattle.run_plan.specs.Answering.{is_of_command};
ghost use Rattle.run_plan.specs.Settings as settings;
ghost use Rattle.run_plan.specs.Told as told;

use crate::told::conf_answer;
use bulk_base::Path;
use conf_file::{Conf, MakeConf, read_conf, read_make};
use outside::Tree;
use run_answer::{Answer, tree_answer};
use std::alloc::Global;

/// The settings of a run.
#[derive(Drop)]
pub struct Settings {
    /// What poudriere.conf says.
    pub conf: Conf,
    /// What make.conf says.
    pub make: MakeConf,
}

// One byte more than either file may have, so that a longer one is seen to be too long.
const MOST_BYTES: u64 = 65_537;

// What a poudriere.conf with these bytes says.
fn conf_in(alloc: Global, path: &Path, bytes: &[u8]) -> Result<Conf, Answer>
    requires { path.now ≡ settings.conf_path }
    ensures told { Tells
        (refused_as (told.conf_answer settings.conf_path) (conf_of bytes.now)) result }
    ensures reading { IsOfReading result }
    ensures files { err_is is_of_command result ≡ false }
    ensures quiet { err_is blames_tree result ≡ false }
{
    match read_conf(alloc, bytes) {
        Ok(conf) => Ok(conf),
        Err(fault) => Err(conf_answer(alloc, path, fault)),
    }
}

// What a make.conf with these bytes says.
fn make_in(alloc: Global, path: &Path, bytes: &[u8]) -> Result<MakeConf, Answer>
    requires { path.now ≡ settings.make_path }
    ensures told { Tells
        (refused_as (told.conf_answer settings.make_path) (make_of bytes.now)) result }
    ensures reading { IsOfReading result }
    ensures files { err_is is_of_command result ≡ false }
    ensures quiet { err_is blames_tree result ≡ false }
{
    match read_make(alloc, bytes) {
        Ok(make) => Ok(make),
        Err(fault) => Err(conf_answer(alloc, path, fault)),
    }
}

// What the tree's poudriere.conf says.
fn conf_at<T: Tree>(alloc: Global, tree: &mut T) -> Result<Conf, Answer>
    ensures told { IsTrue T.tells → Tells (settings.conf_at (T.content tree.old)) result }
    ensures reading { IsOfReading result }
    ensures files { err_is is_of_command result ≡ false }
    ensures same { T.content tree.new ≡ T.content tree.old }
    ensures cause { IsCaused (T.faults tree.old) (T.faults tree.new) (err_is blames_tree result) }
{
    let path = Path::literal(alloc, b"etc/poudriere.conf")?;
    match tree.bytes(alloc, &path, MOST_BYTES) {
        Ok(Some(bytes)) => conf_in(alloc, &path, bytes.as_slice()),
        Ok(None) => conf_in(alloc, &path, b""),
        Err(outer) => Err(tree_answer(outer)),
    }
}

// What the tree's make.conf says.
fn make_at<T: Tree>(alloc: Global, tree: &mut T) -> Result<MakeConf, Answer>
    ensures told { IsTrue T.tells → Tells (settings.make_at (T.content tree.old)) result }
    ensures reading { IsOfReading result }
    ensures files { err_is is_of_command result ≡ false }
    ensures same { T.content tree.new ≡ T.content tree.old }
    ensures cause { IsCaused (T.faults tree.old) (T.faults tree.new) (err_is blames_tree result) }
{
    let path = Path::literal(alloc, b"etc/make.conf")?;
    match tree.bytes(alloc, &path, MOST_BYTES) {
        Ok(Some(bytes)) => make_in(alloc, &path, bytes.as_slice()),
        Ok(None) => make_in(alloc, &path, b""),
        Err(outer) => Err(tree_answer(outer)),
    }
}

/// The settings of a tree: the second step of a run (the comments of poudriere.conf; Porter's
/// Handbook, "make.conf"; docs/FORMATS.md, "poudriere.conf", "Variable files").
///
/// First `etc/poudriere.conf` is read, then `etc/make.conf`; either may be absent, and then sets
/// nothing. BadConf exactly at the first line of the first file that is outside its form; TreeFault
/// where the tree failed; NoMemory for want of memory alone. At most 65,537 bytes of each file are
/// read. The tree stays as it is.
#[tactic(auto, unfolding(crate::specs::Settings::settings_step))]
pub fn read_settings<T: Tree>(alloc: Global, tree: &mut T) -> Result<Settings, Answer>
    ensures told { IsTrue T.tells → Tells (settings.settings_step (T.content tree.old)) result }
    ensures reading { IsOfReading result }
    ensures files { err_is is_of_command result ≡ false }
    ensures same { T.content tree.new ≡ T.content tree.old }
    ensures cause { IsCaused (T.faults tree.old) (T.faults tree.new) (err_is blames_tree result) }
{
    let conf = conf_at(alloc, tree)?;
    let make = make_at(alloc, tree)?;
    Ok(Settings { conf, make })
}
