// Assignments.
ghost use Rattle.std.specs.Prelude.{◌≡◌, ◌<◌, ◌≤◌, ◌+◌, ◌++◌, ◌∷◌, ℕ, length, IfOk, IsTrue};
ghost use Rattle.std.specs.Option.{option_copied};
ghost use Rattle.std.specs.FinMap as map;
ghost use Rattle.bulk_base.specs.Text.{IsText};
ghost use Rattle.port_vars.specs.Reference.{is_name};
ghost use Rattle.port_vars.specs.Assignment.{changed, within, assigned, readable, stated, said, mapped};
ghost use Rattle.port_vars.specs.Variables.{after, after_line};
ghost use Rattle.port_vars.specs.Answers.{Answers, Leaves, fitting, given};

use crate::comment::uncommented;
use crate::fault::{LineError, LineKind};
use crate::limits::Limits;
use crate::name::{is_name, name_of};
use crate::operator::{Operator, operator_of};
use crate::piece::place_of;
use crate::reference::expanded;
use bulk_base::{Bytes, NoMemory, Sequence, Text, TextError, TextMap, copy_of, trim};
use std::alloc::Global;

/// What is put behind a value to append a text: a space and the text; the text alone where the value is empty.
fn piece_behind(alloc: Global, value: &Text, text: &[u8]) -> Result<Bytes, NoMemory>
    ensures value { IfOk result (λ piece.
        value.now ++ piece ≡ changed Operator.Append (Some value.now) text.now) }
    ensures form { (most : ℕ) → (length text.now < most → IsText text.now)
        → IfOk result (λ piece. length piece < most → IsText piece) }
{
    if value.bytes().is_empty() {
        return Sequence::from_slice(alloc, text);
    }
    let mut piece = Vec::from_slice(alloc, b" ")?;
    piece.extend_from_slice(text)?;
    Ok(Sequence::from_vec(piece))
}

/// Appends a text to a value. TooLong exactly where it would have more than `limit` bytes. Its cost is the text's length.
fn append(alloc: Global, limit: u32, value: &mut Text, text: &[u8]) -> Result<(), LineError>
    requires { length text.now < limit + 1 → IsText text.now }
    ensures { Leaves (fitting limit (changed Operator.Append (Some value.old) text.now)) result value.new }
{
    let piece = piece_behind(alloc, value, text)?;
    if value.bytes().len() + piece.len() > limit as usize {
        return Err(LineError::Bad(LineKind::TooLong));
    }
    value.append(&Text::of(alloc, piece.as_slice())?)?;
    Ok(())
}

/// Appends a text to a variable's value, which leaves the map and comes back, so that a list of many lines costs its length.
fn append_to(
    alloc: Global,
    limit: u32,
    name: Text,
    text: &[u8],
    vars: &mut TextMap<Text>,
) -> Result<(), LineError>
    requires { length text.now < limit + 1 → IsText text.now }
    ensures { Leaves (given limit vars.old name Operator.Append text.now) result vars.new }
{
    let mut value = match vars.take(&name) {
        Some(value) => value,
        None => Text::literal(alloc, b"")?,
    };
    append(alloc, limit, &mut value, text)?;
    vars.insert(name, value)?;
    Ok(())
}

/// Gives a variable a value. TooLong exactly where it has more than `limit` bytes.
fn put(
    alloc: Global,
    limit: u32,
    name: Text,
    value: &[u8],
    vars: &mut TextMap<Text>,
) -> Result<(), LineError>
    requires { length value.now < limit + 1 → IsText value.now }
    ensures { Leaves (mapped (map.insert vars.old name) (fitting limit value.now)) result vars.new }
{
    if value.len() > limit as usize {
        return Err(LineError::Bad(LineKind::TooLong));
    }
    vars.insert(name, Text::of(alloc, value)?)?;
    Ok(())
}

/// Gives a variable a value where it has none. TooLong exactly where its value has more than `limit` bytes.
fn put_default(
    alloc: Global,
    limit: u32,
    name: Text,
    text: &[u8],
    vars: &mut TextMap<Text>,
) -> Result<(), LineError>
    requires { length text.now < limit + 1 → IsText text.now }
    ensures { Leaves (given limit vars.old name Operator.Default text.now) result vars.new }
{
    match copy_of(alloc, vars.get(&name))? {
        Some(value) => put(alloc, limit, name, value.bytes(), vars),
        None => put(alloc, limit, name, text, vars),
    }
}

/// Gives a variable its value after an assignment. TooLong exactly where the value has more than `limit` bytes.
fn assign(
    alloc: Global,
    limit: u32,
    name: &[u8],
    operator: Operator,
    text: &[u8],
    vars: &mut TextMap<Text>,
) -> Result<(), LineError>
    requires name { IsTrue (is_name name.now) }
    requires form { length text.now < limit + 1 → IsText text.now }
    ensures { Leaves
        (mapped (after vars.old) (within limit (map.get vars.old) (record { name = name.now; operator = operator; text = text.now })))
        result vars.new }
{
    let name = Text::of(alloc, name)?;
    match operator {
        Operator::Set => put(alloc, limit, name, text, vars),
        Operator::Append => append_to(alloc, limit, name, text, vars),
        Operator::Default => put_default(alloc, limit, name, text, vars),
    }
}

/// Makes the assignment that a statement states.
fn take_assignment(
    alloc: Global,
    limit: u32,
    statement: &[u8],
    vars: &mut TextMap<Text>,
) -> Result<(), LineError>
    requires { IsText statement.now }
    ensures { Leaves (mapped (after vars.old) (assigned limit (map.get vars.old) statement.now)) result vars.new }
{
    let Some(equals) = place_of(statement, b'=') else {
        return Err(LineError::Bad(LineKind::NoOperator));
    };
    let before = &statement[..equals];
    let name = name_of(before);
    if !is_name(name) {
        return Err(LineError::Bad(LineKind::BadName));
    }
    let value = Text::of(alloc, trim(&statement[equals + 1..]))?;
    let text = expanded(alloc, vars, &value, limit as usize + 1)?;
    assign(
        alloc,
        limit,
        name,
        operator_of(before),
        text.as_slice(),
        vars,
    )
}

/// A joined line as a text. NotText exactly where it is none, else TooLong exactly where it has more than `limit` bytes.
fn readable(alloc: Global, limit: u32, line: &[u8]) -> Result<Text, LineError>
    ensures { Answers (readable limit line.now) result }
{
    let text = match Text::from_bytes(alloc, line) {
        Ok(text) => text,
        Err(TextError::NotText) => return Err(LineError::Bad(LineKind::NotText)),
        Err(TextError::NoMemory) => return Err(LineError::NoMemory),
    };
    if line.len() > limit as usize {
        return Err(LineError::Bad(LineKind::TooLong));
    }
    Ok(text)
}

/// Makes the assignment that a joined line states, if any. Its cost is the length of the line and of the values that it
/// refers to, and a look-up for each name in it.
pub(crate) fn take_line(
    alloc: Global,
    limits: Limits,
    line: &[u8],
    vars: &mut TextMap<Text>,
) -> Result<(), LineError>
    ensures { Leaves (mapped (after_line vars.old) (said limits (map.get vars.old) line.now)) result vars.new }
{
    let line = uncommented(alloc, &readable(alloc, limits.line, line)?)?;
    let statement = trim(line.bytes());
    if statement.is_empty() {
        return Ok(());
    }
    take_assignment(alloc, limits.value, statement, vars)
}
