// The reader of a port's list of distfiles.
ghost use Rattle.std.specs.Prelude.{◌≡◌, ◌≢◌, ◌<◌, ◌^◌, ◌||◌, length, is_some, position, Some, None, IfOk, IfErr, OnOk};
ghost use Rattle.std.specs.List.{fold, filter_map};
ghost use Rattle.std.specs.Str.Lines.{lines as lines_of};
ghost use Rattle.dist_files.specs.Distinfo as lists;
ghost use Rattle.dist_files.specs.Lines as line_of;
ghost use Rattle.dist_files.specs.Stated as states;

use crate::dist::Dists;
use crate::fault::DistError;
use crate::pairing::{first_inside, pair};
use crate::stated::{Stated, note};
use crate::statement::{is_passed, said};
use bulk_base::{NoMemory, PathMap, lines, numbered_line};
use std::alloc::Global;

/// Notes what a line states, and says whether the line is in form.
fn take_line(alloc: Global, stated: &mut PathMap<Stated>, line: &[u8]) -> Result<bool, NoMemory>
    ensures form { IfOk result (λ good. good ≡ (is_some (line_of.said line.now) || line_of.is_passed line.now)) }
    ensures noted { OnOk result (stated.new ≡ states.noted_of stated.old (line_of.said line.now)) }
{
    match said(alloc, line)? {
        Some(statement) => {
            note(stated, statement)?;
            Ok(true)
        }
        None => Ok(is_passed(line)),
    }
}

/// What the lines state of each file, or the first line that is outside the form.
fn read_lines(alloc: Global, bytes: &[u8]) -> Result<PathMap<Stated>, DistError>
    requires { length bytes.now < 2 ^ 32 }
    ensures good { IfOk result (λ stated. position line_of.is_bad (lines_of bytes.now) ≡ None) }
    ensures ok { IfOk result (λ stated. stated ≡ states.all_noted (filter_map line_of.said (lines_of bytes.now))) }
    ensures bad_line { IfErr result (λ e. e ≢ DistError.NoMemory → lists.distinfo_of bytes.now ≡ Err e) }
{
    let spans = lines(alloc, bytes)?;
    let mut stated = PathMap::new(alloc);
    for at in 0..spans.len() {
        let line = numbered_line(bytes, &spans, at);
        if !take_line(alloc, &mut stated, line.text)? {
            return Err(DistError::BadLine { line: line.number });
        }
    }
    Ok(stated)
}

/// Reads a port's list of distfiles: `SHA256 (FILE) = DIGEST` and `SIZE (FILE) = NUMBER` for each file (Porter's Handbook,
/// "distinfo"; docs/FORMATS.md). The entries stand in byte order of their files, each once; no file is a folder of another.
///
/// The first of these refusals is answered. BadLine exactly where a line is of no form, with the number of the first such
/// line; Unpaired exactly where a file has not one line of each kind, with the least such file; Collide exactly where a file
/// has another as one of its folders, with the least such file. NoMemory for want of memory alone.
///
/// Each byte is looked at a fixed number of times; each line costs O(log n) comparisons of files, and each folder of a file too.
pub fn read_distinfo(alloc: Global, bytes: &[u8]) -> Result<Dists, DistError>
    requires { length bytes.now < 2 ^ 32 }
    ensures ok { IfOk result (λ dists. lists.distinfo_of bytes.now ≡ Ok dists) }
    ensures refused { IfErr result (λ e. e ≢ DistError.NoMemory → lists.distinfo_of bytes.now ≡ Err e) }
{
    let stated = read_lines(alloc, bytes)?;
    let files = stated.keys(alloc)?;
    let dists = pair(alloc, &stated, &files)?;
    match first_inside(alloc, &files)? {
        Some(file) => Err(DistError::Collide {
            file: file.copy(alloc)?,
        }),
        None => Ok(dists),
    }
}
