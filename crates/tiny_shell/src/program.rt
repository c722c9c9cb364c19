// The programs that rooms in memory know.
ghost use Rattle.std.specs.Prelude.{◌≡◌, if◌then◌else◌, IfOk, Some, None};
ghost use Rattle.std.specs.List.{list_all};
ghost use Rattle.std.specs.FinMap.{get};
ghost use Rattle.tiny_shell.specs.Programs as programs;
ghost use Rattle.tiny_shell.specs.Programs.{mem_runs, written, copied, all_of, EndsWith};
ghost use Rattle.bulk_base.specs.Path.{is_path};

use bulk_base::{Bytes, NoMemory, Path, PathError, Paths, Sequence, Text, number};
use outside::Folder;
use std::alloc::{AllocError, Global};

// The status where the arguments are wrong.
const WRONG: u8 = 2;

// The most bytes that `fill` writes.
const MOST_FILL: u64 = 1048576;

// The status where there is no such program.
const NO_SUCH_PROGRAM: u8 = 127;

// The path that a text spells; None where it spells none.
fn path_of(alloc: Global, text: &Text) -> Result<Option<Path>, NoMemory>
    ensures { IfOk result (λ path. path ≡ (if is_path text.now then Some text.now else None)) }
{
    match Path::from_text(alloc, text) {
        Ok(path) => Ok(Some(path)),
        Err(PathError::BadPath) => Ok(None),
        Err(PathError::NoMemory) => Err(AllocError),
    }
}

// Writes a file, in place of one that was there.
fn write(folder: &mut Folder, alloc: Global, path: &Text, bytes: Bytes) -> Result<u8, NoMemory>
    ensures { EndsWith (written path.now bytes folder.old) folder.old folder.new result }
{
    let Some(path) = path_of(alloc, path)? else {
        return Ok(WRONG);
    };
    if !folder.can_hold(alloc, &path)? {
        return Ok(1);
    }
    folder.put(path, bytes)?;
    Ok(0)
}

fn true_status(arguments: &[Text]) -> u8
    ensures { result ≡ programs.true_status arguments.now }
{
    if arguments.is_empty() { 0 } else { WRONG }
}

fn false_status(arguments: &[Text]) -> u8
    ensures { result ≡ programs.false_status arguments.now }
{
    if arguments.is_empty() { 1 } else { WRONG }
}

fn exit_status(arguments: &[Text]) -> u8
    ensures { result ≡ programs.exit_status arguments.now }
{
    let [status] = arguments else {
        return WRONG;
    };
    match number(status) {
        Some(status) if status <= 255 => status as u8,
        _ => WRONG,
    }
}

// The words with a space between, and a line feed.
fn line_of(alloc: Global, first: &Text, rest: &[Text]) -> Result<Bytes, NoMemory>
    ensures { IfOk result (λ line. line ≡ programs.line_of first.now rest.now) }
{
    let mut line = Vec::from_slice(alloc, first.bytes())?;
    for word in rest {
        line.push(b' ')?;
        line.extend_from_slice(word.bytes())?;
    }
    line.push(b'\n')?;
    Ok(Bytes::from_vec(line))
}

fn run_put(folder: &mut Folder, alloc: Global, arguments: &[Text]) -> Result<u8, NoMemory>
    ensures { EndsWith (programs.run_put arguments.now folder.old) folder.old folder.new result }
{
    let [path, first, rest @ ..] = arguments else {
        return Ok(WRONG);
    };
    let line = line_of(alloc, first, rest)?;
    write(folder, alloc, path, line)
}

// Writes what a file holds to a path.
fn copy_file(folder: &mut Folder, alloc: Global, from: &Path, to: &Text) -> Result<u8, NoMemory>
    ensures { EndsWith (copied (get folder.old from.now) to.now folder.old) folder.old folder.new result }
{
    let Some(bytes) = folder.get(from) else {
        return Ok(1);
    };
    let bytes = Bytes::from_slice(alloc, bytes.as_slice())?;
    write(folder, alloc, to, bytes)
}

fn run_cp(folder: &mut Folder, alloc: Global, arguments: &[Text]) -> Result<u8, NoMemory>
    ensures { EndsWith (programs.run_cp arguments.now folder.old) folder.old folder.new result }
{
    let [from, to] = arguments else {
        return Ok(WRONG);
    };
    let Some(from) = path_of(alloc, from)? else {
        return Ok(WRONG);
    };
    if path_of(alloc, to)?.is_none() {
        return Ok(WRONG);
    }
    copy_file(folder, alloc, &from, to)
}

// The paths that texts spell; None where one spells none.
fn paths_of(alloc: Global, texts: &[Text]) -> Result<Option<Paths>, NoMemory>
    ensures { IfOk result (λ paths. paths ≡ (if list_all is_path texts.now then Some texts.now else None)) }
{
    let mut paths = Sequence::new(alloc);
    for text in texts {
        let Some(path) = path_of(alloc, text)? else {
            return Ok(None);
        };
        paths.push(path)?;
    }
    Ok(Some(paths))
}

// What files hold, one after another; None where one is absent.
fn contents_of(folder: &Folder, alloc: Global, files: &[Path]) -> Result<Option<Bytes>, NoMemory>
    ensures { IfOk result (λ bytes. bytes ≡ all_of files.now folder.now) }
{
    let mut all = Vec::new(alloc);
    for file in files {
        let Some(bytes) = folder.get(file) else {
            return Ok(None);
        };
        all.extend_from_slice(bytes.as_slice())?;
    }
    Ok(Some(Bytes::from_vec(all)))
}

fn run_cat(folder: &mut Folder, alloc: Global, arguments: &[Text]) -> Result<u8, NoMemory>
    ensures { EndsWith (programs.run_cat arguments.now folder.old) folder.old folder.new result }
{
    let [to, _, ..] = arguments else {
        return Ok(WRONG);
    };
    if path_of(alloc, to)?.is_none() {
        return Ok(WRONG);
    }
    let Some(files) = paths_of(alloc, &arguments[1..])? else {
        return Ok(WRONG);
    };
    let Some(bytes) = contents_of(folder, alloc, files.as_slice())? else {
        return Ok(1);
    };
    write(folder, alloc, to, bytes)
}

fn test_status(folder: &Folder, alloc: Global, arguments: &[Text]) -> Result<u8, NoMemory>
    ensures { IfOk result (λ status. status ≡ programs.test_status arguments.now folder.now) }
{
    let [path] = arguments else {
        return Ok(WRONG);
    };
    let Some(path) = path_of(alloc, path)? else {
        return Ok(WRONG);
    };
    Ok(if folder.get(&path).is_some() { 0 } else { 1 })
}

fn run_rm(folder: &mut Folder, alloc: Global, arguments: &[Text]) -> Result<u8, NoMemory>
    ensures { EndsWith (programs.run_rm arguments.now folder.old) folder.old folder.new result }
{
    let [path] = arguments else {
        return Ok(WRONG);
    };
    let Some(path) = path_of(alloc, path)? else {
        return Ok(WRONG);
    };
    if folder.get(&path).is_none() {
        return Ok(1);
    }
    folder.remove(&path);
    Ok(0)
}

fn run_fill(folder: &mut Folder, alloc: Global, arguments: &[Text]) -> Result<u8, NoMemory>
    ensures { EndsWith (programs.run_fill arguments.now folder.old) folder.old folder.new result }
{
    let [path, count] = arguments else {
        return Ok(WRONG);
    };
    let count = match number(count) {
        Some(count) if count <= MOST_FILL => count as usize,
        _ => return Ok(WRONG),
    };
    let bytes = vec![in alloc; b'x'; count]?;
    write(folder, alloc, path, Bytes::from_vec(bytes))
}

// Paths, each with a line feed.
fn listed(alloc: Global, paths: &Paths) -> Result<Bytes, NoMemory>
    ensures { IfOk result (λ list. list ≡ programs.listed paths.now) }
{
    let mut list = Vec::new(alloc);
    for path in paths.as_slice() {
        list.extend_from_slice(path.bytes())?;
        list.push(b'\n')?;
    }
    Ok(Bytes::from_vec(list))
}

fn run_list(folder: &mut Folder, alloc: Global, arguments: &[Text]) -> Result<u8, NoMemory>
    ensures { EndsWith (programs.run_list arguments.now folder.old) folder.old folder.new result }
{
    let [to, below] = arguments else {
        return Ok(WRONG);
    };
    let Some(below) = path_of(alloc, below)? else {
        return Ok(WRONG);
    };
    let list = listed(alloc, &folder.names(alloc, &below)?)?;
    write(folder, alloc, to, list)
}

/// Runs a command in a folder, given as its words, and answers its status. On an error the folder is as it was.
pub(crate) fn run(folder: &mut Folder, alloc: Global, words: &[Text]) -> Result<u8, NoMemory>
    ensures { EndsWith (mem_runs words.now folder.old) folder.old folder.new result }
{
    let [program, arguments @ ..] = words else {
        return Ok(NO_SUCH_PROGRAM);
    };
    if program.is(b"true".as_slice()) {
        Ok(true_status(arguments))
    } else if program.is(b"false".as_slice()) {
        Ok(false_status(arguments))
    } else if program.is(b"exit".as_slice()) {
        Ok(exit_status(arguments))
    } else if program.is(b"put".as_slice()) {
        run_put(folder, alloc, arguments)
    } else if program.is(b"cp".as_slice()) {
        run_cp(folder, alloc, arguments)
    } else if program.is(b"cat".as_slice()) {
        run_cat(folder, alloc, arguments)
    } else if program.is(b"test".as_slice()) {
        test_status(folder, alloc, arguments)
    } else if program.is(b"rm".as_slice()) {
        run_rm(folder, alloc, arguments)
    } else if program.is(b"fill".as_slice()) {
        run_fill(folder, alloc, arguments)
    } else if program.is(b"list".as_slice()) {
        run_list(folder, alloc, arguments)
    } else {
        Ok(NO_SUCH_PROGRAM)
    }
}
