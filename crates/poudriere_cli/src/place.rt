// Where files stand on a disk, and how they are read.
ghost use Rattle.std.specs.Prelude.{◌≡◌, ◌≤◌, ◌∷◌, ◌++◌, ◌⊎◌, IfOk, IfErr, IfSome, OnOk, string_bytes, vec_len};
ghost use Rattle.std.specs.IoError.{error_kind};
ghost use Rattle.poudriere_cli.specs.Failing.{IsOuterOf};

use crate::fault::outer;
use bulk_base::NoMemory;
use outside::Outer;
use std::alloc::Global;
use std::fs;
use std::io::{self, ErrorKind, Read};
use std::rt::Files;

/// The place of a name in a folder.
pub fn place(alloc: Global, folder: &str, name: &str) -> Result<String, NoMemory>
    ensures { IfOk result (λ place. string_bytes place ≡ folder.now ++ 47 ∷ name.now) }
{
    format!(in alloc; "{folder}/{name}")
}

/// Passes over the failure of a call at a place where nothing stands: there is no such name, or a part of the way
/// to it is a plain file. A link to nothing is something.
pub fn pass_absent(rt: &impl Files, place: &str, error: io::Error) -> Result<(), Outer>
    ensures passed { OnOk result (error_kind error ≡ ErrorKind.NotADirectory ⊎ error_kind error ≡ ErrorKind.NotFound) }
    ensures told { IfErr result (IsOuterOf (error_kind error)) }
{
    match error.kind() {
        ErrorKind::NotADirectory => Ok(()),
        _ => pass_no_name(rt, place, error),
    }
}

/// Passes over the failure of a call at a place where there is no such name.
pub fn pass_no_name(rt: &impl Files, place: &str, error: io::Error) -> Result<(), Outer>
    ensures passed { OnOk result (error_kind error ≡ ErrorKind.NotFound) }
    ensures told { IfErr result (IsOuterOf (error_kind error)) }
{
    match error.kind() {
        ErrorKind::NotFound if is_free(rt, place) => Ok(()),
        _ => Err(outer(error)),
    }
}

fn is_free(rt: &impl Files, place: &str) -> bool {
    match fs::symlink_metadata(rt, place) {
        Ok(_) => false,
        Err(error) => error.kind() == ErrorKind::NotFound,
    }
}

/// The first `most` bytes of the plain file at a place; None where there is none.
pub fn first_bytes<R: Files + AllocGlobal>(
    rt: &R,
    place: &str,
    most: u64,
) -> Result<Option<Vec<u8>>, Outer>
    ensures { IfOk result (λ found. IfSome found (λ bytes. vec_len bytes ≤ most)) }
{
    match fs::metadata(rt, place) {
        Ok(found) if found.is_file() => Ok(Some(read(rt, place, most).map_err(outer)?)),
        Ok(_) => Ok(None),
        Err(error) => {
            pass_absent(rt, place, error)?;
            Ok(None)
        }
    }
}

fn read<R: Files + AllocGlobal>(rt: &R, place: &str, most: u64) -> io::Result<Vec<u8>>
    ensures { IfOk result (λ bytes. vec_len bytes ≤ most) }
{
    let mut bytes = Vec::new(rt.alloc());
    fs::open(rt, place)?.take(most).read_to_end(&mut bytes)?;
    bytes.truncate(most as usize);
    Ok(bytes)
}
