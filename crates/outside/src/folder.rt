// Files in memory, none of their paths a folder of another.
ghost use Rattle.std.specs.Prelude.{◌≡◌, ◌≤◌, IsTrue, IfOk, IfErr, IfSome, OnOk, OnErr, Some, None, take, vec_len};
ghost use Rattle.std.specs.Option.{option_map, option_copied};
ghost use Rattle.std.specs.FinMap.{empty, get, insert, remove, contains_key, keys};
ghost use Rattle.outside.specs.Contents.{IsListing, can_hold, files_below, first_bytes};
ghost use Rattle.outside.specs.Given.{content_of, first_folder};
ghost use Rattle.outside.specs.Errors.{IfNotFolder};

use crate::mem_error::MemError;
use bulk_base::{Bytes, FileItem, Files, NoMemory, Path, PathMap, Paths};
use std::alloc::Global;
use std::marker::Model;

/// Files in memory, none of their paths a folder of another, for objects in memory that hold files at paths. Contracts
/// see their content.
#[derive(Drop)]
pub struct Folder {
    files: PathMap<Bytes>,
}

impl Model for Folder {
    ghost use Rattle.std.specs.Prelude.{IsTrue};
    ghost use Rattle.std.specs.FinMap.{keys};
    ghost use Rattle.std.specs.FinMap as map;
    ghost use Rattle.std.specs.Coded.{coded_ℕ, coded_list};
    ghost use Rattle.outside.specs.Contents.{Contents, has_no_folder};

    ghost Value = { Contents };

    ghost coded = { map.code (coded_list coded_ℕ) (coded_list coded_ℕ) };

    ghost view = { λ f. f.files };

    ghost invariant = { λ f. IsTrue (has_no_folder (keys f.files)) };
}

// The content of files; of equal paths the last counts.
fn collected(alloc: Global, files: Files) -> Result<PathMap<Bytes>, NoMemory>
    ensures { IfOk result (λ content. content ≡ content_of files) }
{
    let mut content = PathMap::new(alloc);
    for file in files.into_vec() {
        let FileItem { path, bytes } = file;
        content.insert(path, bytes)?;
    }
    Ok(content)
}

// The first of all paths of files that is a folder of another.
fn least_folder<'a>(
    alloc: Global,
    files: &PathMap<Bytes>,
    paths: &'a Paths,
) -> Result<Option<&'a Path>, NoMemory>
    requires { paths.now ≡ keys files.now }
    ensures { IfOk result (λ found. option_copied found ≡ first_folder paths.now) }
{
    for path in paths.as_slice() {
        if files.has_below(alloc, path)? {
            return Ok(Some(path));
        }
    }
    Ok(None)
}

/// The first `most` bytes.
pub fn front(alloc: Global, bytes: &[u8], most: u64) -> Result<Vec<u8>, NoMemory>
    ensures { IfOk result (λ front. front.items ≡ take most bytes.now) }
{
    let most = most.min(bytes.len() as u64) as usize;
    Vec::from_slice(alloc, &bytes[..most])
}

impl Folder {
    /// The files handed in, of equal paths the last. NotFolder exactly where one path is a folder of another, with
    /// the least such folder. O(log n) comparisons for each of n files.
    pub fn from_files(alloc: Global, files: Files) -> Result<Folder, MemError>
        ensures content { IfOk result (λ folder. folder ≡ content_of files) }
        ensures apart { OnOk result (first_folder (keys (content_of files)) ≡ None) }
        ensures not_folder { IfErr result (IfNotFolder (λ path. first_folder (keys (content_of files)) ≡ Some path)) }
    {
        let files = collected(alloc, files)?;
        let paths = files.keys(alloc)?;
        let nested = least_folder(alloc, &files, &paths)?;
        match nested {
            Some(path) => Err(MemError::NotFolder {
                path: path.copy(alloc)?,
            }),
            None => Ok(Folder { files }),
        }
    }

    /// A folder without files; takes no memory.
    pub fn new(alloc: Global) -> Folder
        ensures { result ≡ empty }
    {
        Folder {
            files: PathMap::new(alloc),
        }
    }

    /// Whether a file can stand at a path: none stands below it, and none of its folders is a file. A look-up for each
    /// folder of the path.
    pub fn can_hold(&self, alloc: Global, path: &Path) -> Result<bool, NoMemory>
        ensures { IfOk result (λ can. can ≡ can_hold path.now self.now) }
    {
        Ok(!self.files.has_nested(alloc, path)?)
    }

    /// Puts a file at a path, in place of the one that was there. On an error nothing changed.
    pub fn put(&mut self, path: Path, bytes: Bytes) -> Result<(), NoMemory>
        requires { IsTrue (can_hold path self.old) }
        ensures ok { OnOk result (self.new ≡ insert self.old path bytes) }
        ensures err { OnErr result (self.new ≡ self.old) }
    {
        self.files.insert(path, bytes)?;
        Ok(())
    }

    /// Takes a file away, and says whether it was there.
    pub fn remove(&mut self, file: &Path) -> bool
        ensures found { result ≡ contains_key self.old file.now }
        ensures removed { self.new ≡ remove self.old file.now }
    {
        self.files.remove(file)
    }

    /// What a file holds; None where there is no such file.
    pub fn get(&self, file: &Path) -> Option<&Bytes>
        ensures { option_copied result ≡ get self.now file.now }
    {
        self.files.get(file)
    }

    /// The paths below a folder, in byte order. One look-up, and the paths that are found.
    pub fn names(&self, alloc: Global, below: &Path) -> Result<Paths, NoMemory>
        ensures listing { IfOk result (IsListing below.now) }
        ensures told { IfOk result (λ paths. paths ≡ files_below below.now self.now) }
    {
        let paths = self.files.keys_below(alloc, below)?;
        Ok(paths)
    }

    /// The first `most` bytes of a file; None where there is no such file.
    pub fn first_bytes(
        &self,
        alloc: Global,
        file: &Path,
        most: u64,
    ) -> Result<Option<Vec<u8>>, NoMemory>
        ensures within { IfOk result (λ found. IfSome found (λ bytes. vec_len bytes ≤ most)) }
        ensures told { IfOk result (λ found. option_map (λ b. b.items) found ≡ first_bytes most file.now self.now) }
    {
        match self.files.get(file) {
            Some(bytes) => Ok(Some(front(alloc, bytes.as_slice(), most)?)),
            None => Ok(None),
        }
    }
}
