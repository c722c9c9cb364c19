// The settings of poudriere.conf that have a meaning.
ghost use Rattle.std.specs.Prelude.{◌≡◌, false};
ghost use Rattle.std.specs.List.{list_any};
ghost use Rattle.bulk_base.specs.Text.{IsText};
ghost use Rattle.bulk_base.specs.Marks.{is_mark};
ghost use Rattle.conf_file.specs.Lines as line_of;
ghost use Rattle.conf_file.specs.Lines.{valued, stated, said, mapped};
ghost use Rattle.conf_file.specs.Conf.{Leaves, with_setting, with_line};

use crate::conf_reader::Conf;
use crate::fault::{ConfKind, LineError};
use crate::statement::{has_byte, is_name, says_nothing, statement, value_in};
use bulk_base::{Text, cut, is_text, number};
use port_vars::LineKind;
use std::alloc::Global;

/// The most bytes of a line.
const LINE_BYTES: usize = 8_192;

/// Whether a name may have a value.
fn is_value(name: &[u8], value: &Text) -> bool
    ensures { result ≡ line_of.is_value name.now value.now }
{
    if name == b"PARALLEL_JOBS".as_slice() {
        return number(value).is_some();
    }
    if name == b"FLAVOR_DEFAULT_ALL".as_slice() {
        return value.is(b"yes") || value.is(b"no");
    }
    if name == b"CHECK_CHANGED_OPTIONS".as_slice() {
        return value.is(b"verbose") || value.is(b"yes");
    }
    name != b"CHECK_CHANGED_DEPS".as_slice() || value.is(b"yes")
}

/// Gives a name its value.
fn assign(conf: &mut Conf, name: &[u8], value: Text)
    ensures { conf.new ≡ with_setting conf.old (record { name = name.now; value = value }) }
{
    if name == b"PARALLEL_JOBS".as_slice() {
        conf.jobs = number(&value);
    } else if name == b"FLAVOR_DEFAULT_ALL".as_slice() {
        conf.flavor_all = value.is(b"yes");
    } else if name == b"PRIORITY_BOOST".as_slice() {
        conf.boost = value;
    }
}

/// Gives a name its value, where it may have it.
fn take_value(alloc: Global, conf: &mut Conf, name: &[u8], value: &[u8]) -> Result<(), LineError>
    requires name { IsText name.now }
    requires value { IsText value.now }
    ensures { Leaves
        (mapped (with_setting conf.old) (valued name.now (Some value.now)))
        result conf.new }
{
    let value = Text::of(alloc, value)?;
    if !is_value(name, &value) {
        let name = Text::of(alloc, name)?;
        return Err(LineError::Bad(ConfKind::Value { name }));
    }
    assign(conf, name, value);
    Ok(())
}

/// Takes the setting that a statement makes.
fn take_statement(alloc: Global, conf: &mut Conf, text: &[u8]) -> Result<(), LineError>
    requires { IsText text.now }
    ensures { Leaves (mapped (with_setting conf.old) (stated text.now)) result conf.new }
{
    if !has_byte(text, b'=') {
        return Err(LineError::Bad(ConfKind::Line(LineKind::NoOperator)));
    }
    let (name, rest) = cut(text, b'=');
    if !is_name(name) {
        return Err(LineError::Bad(ConfKind::Line(LineKind::BadName)));
    }
    match value_in(rest) {
        Some(value) => take_value(alloc, conf, name, value),
        None => Err(LineError::Bad(ConfKind::Quote)),
    }
}

/// Takes what a line says.
pub(crate) fn take_line(alloc: Global, conf: &mut Conf, line: &[u8]) -> Result<(), LineError>
    ensures { Leaves (mapped (with_line conf.old) (said line.now)) result conf.new }
{
    if !is_text(line) {
        return Err(LineError::Bad(ConfKind::Line(LineKind::NotText)));
    }
    if line.len() > LINE_BYTES {
        return Err(LineError::Bad(ConfKind::Line(LineKind::TooLong)));
    }
    if says_nothing(line) {
        return Ok(());
    }
    take_statement(alloc, conf, statement(line))
}
