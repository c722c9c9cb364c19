// The list of moved ports, and its reader.
ghost use Rattle.std.specs.Prelude.{◌≡◌, ◌≢◌, ◌<◌, ◌^◌, ◌++◌, ◌∷◌, ℕ, List, [], length, true, IfOk, IfErr, OnOk};
ghost use Rattle.std.specs.Option.{option_copied};
ghost use Rattle.std.specs.FinMap as map;
ghost use Rattle.moved_list.specs.Lines as lines_of;
ghost use Rattle.moved_list.specs.Moved.{entries, moved_of, last_line, IsPlaceOf};

use crate::entry::{entry, is_ignored, is_moved_line};
use crate::fault::MovedError;
use crate::line::{MovedLine, MovedLines};
use bulk_base::{NoMemory, Sequence, Text, TextMap, lines, numbered_line};
use std::alloc::Global;
use std::marker::Model;

/// The lines of MOVED that say something, seen by contracts as the list of them in the file's order.
#[derive(Drop)]
pub struct Moved {
    lines: MovedLines,
    /// Where the last line of each old name stands.
    places: TextMap<usize>,
}

impl Model for Moved {
    ghost use Rattle.std.specs.Prelude.{List, ℕ};
    ghost use Rattle.std.specs.FinMap as map;
    ghost use Rattle.moved_list.specs.declared.line.MovedLine.{MovedLine};
    ghost use Rattle.moved_list.specs.Moved.{IsPlaceOf};

    ghost Value = { List MovedLine };

    ghost view = { λ m. m.lines };

    ghost invariant = { λ m. (name : List ℕ) → IsPlaceOf m.lines name (map.get m.places name) };
}

impl Moved {
    /// The lines, in the file's order.
    pub fn lines(&self) -> &[MovedLine]
        ensures { result.now ≡ self.now }
    {
        self.lines.as_slice()
    }

    /// The last line that has an old name; None where none has it. O(log n) comparisons.
    pub fn last_line(&self, name: &Text) -> Option<&MovedLine>
        ensures { option_copied result ≡ last_line self.now name.now }
    {
        match self.places.get(name) {
            Some(at) => self.lines.get(*at),
            None => None,
        }
    }
}

/// Where the last line of each old name stands.
fn last_places(alloc: Global, lines: &MovedLines) -> Result<TextMap<usize>, NoMemory>
    ensures { IfOk result (λ places. (name : List ℕ) → IsPlaceOf lines.now name (map.get places name)) }
{
    let all = lines.as_slice();
    let mut places = TextMap::new(alloc);
    for at in 0..all.len() {
        places.insert(all[at].from.copy(alloc)?, at)?;
    }
    Ok(places)
}

/// Puts what a line in form says at the end.
fn take_line(alloc: Global, found: &mut MovedLines, line: &[u8]) -> Result<(), NoMemory>
    requires { lines_of.is_moved_line line.now ≡ true }
    ensures { OnOk result (found.new ≡ found.old ++ entries (line.now ∷ [])) }
{
    if !is_ignored(line) {
        found.push(entry(alloc, line)?)?;
    }
    Ok(())
}

fn read_lines(alloc: Global, bytes: &[u8]) -> Result<MovedLines, MovedError>
    requires { length bytes.now < 2 ^ 32 }
    ensures ok { IfOk result (λ lines. moved_of bytes.now ≡ Ok lines) }
    ensures bad_line { IfErr result (λ e. e ≢ MovedError.NoMemory → moved_of bytes.now ≡ Err e) }
{
    let spans = lines(alloc, bytes)?;
    let mut found = Sequence::new(alloc);
    for at in 0..spans.len() {
        let line = numbered_line(bytes, &spans, at);
        if !is_moved_line(line.text) {
            return Err(MovedError::BadLine { line: line.number });
        }
        take_line(alloc, &mut found, line.text)?;
    }
    Ok(found)
}

/// Reads MOVED, a line `old|new|date|reason` a port (Porter's Handbook, "MOVED"; docs/FORMATS.md).
///
/// A line of blanks alone, and one that begins with `#`, says nothing. BadLine exactly where a line is not UTF-8, holds NUL,
/// or says something and is outside the form, with the number of the first such line. NoMemory for want of memory alone.
///
/// Each byte is looked at a fixed number of times, and each line costs O(log n) comparisons of old names.
pub fn read_moved(alloc: Global, bytes: &[u8]) -> Result<Moved, MovedError>
    requires { length bytes.now < 2 ^ 32 }
    ensures ok { IfOk result (λ moved. moved_of bytes.now ≡ Ok moved) }
    ensures bad_line { IfErr result (λ e. e ≢ MovedError.NoMemory → moved_of bytes.now ≡ Err e) }
{
    let lines = read_lines(alloc, bytes)?;
    let places = last_places(alloc, &lines)?;
    Ok(Moved { lines, places })
}
