// Variables by name, and the reader of variable files.
ghost use Rattle.std.specs.Prelude.{◌≡◌, ◌≢◌, ◌<◌, ◌^◌, ℕ, List, IfOk, IfErr, OnOk};
ghost use Rattle.std.specs.Option.{option_copied};
ghost use Rattle.std.specs.FinMap as map;
ghost use Rattle.port_vars.specs.Assignment.{mapped, said};
ghost use Rattle.port_vars.specs.Variables.{after_line, variables_within, value_within, variables_of, value_in, list_variables_of, list_value_in};
ghost use Rattle.port_vars.specs.Answers.{LeavesAt};

use crate::assignment::take_line;
use crate::fault::{LineError, LineKind, VarsError};
use crate::joined::{Line, joined};
use crate::limits::{LARGE, Limits, SMALL};
use bulk_base::{Text, TextMap};
use std::alloc::Global;
use std::marker::Model;

/// The variables of a variable file, seen by contracts as a finite map from names to values.
#[derive(Drop)]
pub struct Vars {
    values: TextMap<Text>,
}

impl Model for Vars {
    ghost use Rattle.std.specs.Prelude.{List, ℕ};
    ghost use Rattle.std.specs.Ordering.{nat_cmp};
    ghost use Rattle.std.specs.Cmp.Lexicographic.{slice_cmp};
    ghost use Rattle.std.specs.FinMap as map;
    ghost use Rattle.std.specs.Coded.{coded_ℕ, coded_list};

    ghost Value = { map.FinMap (slice_cmp nat_cmp) (List ℕ) };

    ghost coded = { map.code (coded_list coded_ℕ) (coded_list coded_ℕ) };

    ghost view = { λ v. v.values };
}

impl Vars {
    /// The value of a variable; None exactly where the name is not set. A look-up takes O(log n) comparisons.
    pub fn value(&self, name: &Text) -> Option<&Text>
        ensures { option_copied result ≡ map.get self.now name.now }
    {
        self.values.get(name)
    }
}

/// Makes the assignment that a joined line states, if any; a fault is at the line's number.
fn take_numbered(
    alloc: Global,
    limits: Limits,
    line: &Line,
    vars: &mut TextMap<Text>,
) -> Result<(), VarsError>
    ensures { LeavesAt line.now.number (mapped (after_line vars.old) (said limits (map.get vars.old) line.now.text)) result vars.new }
{
    match take_line(alloc, limits, line.text.as_slice(), vars) {
        Ok(()) => Ok(()),
        Err(LineError::Bad(kind)) => Err(VarsError::BadLine {
            line: line.number,
            kind,
        }),
        Err(LineError::NoMemory) => Err(VarsError::NoMemory),
    }
}

/// Reads a variable file within limits.
fn read_within(alloc: Global, limits: Limits, bytes: &[u8]) -> Result<Vars, VarsError>
    ensures ok { IfOk result (λ vars. variables_within limits bytes.now ≡ Ok vars) }
    ensures bad_line { IfErr result (λ e. e ≢ VarsError.NoMemory
        → variables_within limits bytes.now ≡ Err e) }
    ensures value { IfOk result (λ vars. (name : List ℕ)
        → map.get vars name ≡ value_within limits bytes.now name) }
{
    if bytes.len() > limits.file as usize {
        return Err(VarsError::BadLine {
            line: 0,
            kind: LineKind::TooLong,
        });
    }
    let lines = joined(alloc, bytes)?;
    let mut values = TextMap::new(alloc);
    for line in lines.as_slice() {
        take_numbered(alloc, limits, line, &mut values)?;
    }
    Ok(Vars { values })
}

/// Reads a variable file of at most 65,536 bytes, with joined lines and values of at most 8,192 (docs/FORMATS.md,
/// "Variable files").
///
/// BadLine exactly where the file is outside the grammar, with the number of the first line that is and what is wrong with
/// it first in the order of the rules: 0 and TooLong where the file has too many bytes. NoMemory for want of memory alone.
///
/// Each byte is looked at a fixed number of times; a line costs its length and that of the values that it refers to, and a
/// look-up of O(log n) comparisons for each name in it. Besides the variables, one copy of the file and of one value are held.
#[tactic(auto, unfolding(crate::specs::Variables::variables_of, crate::specs::Variables::value_in))]
pub fn read_vars(alloc: Global, bytes: &[u8]) -> Result<Vars, VarsError>
    ensures ok { IfOk result (λ vars. variables_of bytes.now ≡ Ok vars) }
    ensures bad_line { IfErr result (λ e. e ≢ VarsError.NoMemory → variables_of bytes.now ≡ Err e) }
    ensures value { IfOk result (λ vars. (name : List ℕ) → map.get vars name ≡ value_in bytes.now name) }
{
    read_within(alloc, SMALL, bytes)
}

/// Reads a variable file that lists categories or ports: the same grammar, faults and cost as `read_vars`, with 1,048,576
/// bytes at most for the file, for a joined line and for a value (docs/FORMATS.md, "Variable files").
#[tactic(auto, unfolding(crate::specs::Variables::list_variables_of, crate::specs::Variables::list_value_in))]
pub fn read_list(alloc: Global, bytes: &[u8]) -> Result<Vars, VarsError>
    ensures ok { IfOk result (λ vars. list_variables_of bytes.now ≡ Ok vars) }
    ensures bad_line { IfErr result (λ e. e ≢ VarsError.NoMemory
        → list_variables_of bytes.now ≡ Err e) }
    ensures value { IfOk result (λ vars. (name : List ℕ)
        → map.get vars name ≡ list_value_in bytes.now name) }
{
    read_within(alloc, LARGE, bytes)
}
