// The values of a port's variables.
ghost use Rattle.std.specs.Prelude.{◌≡◌, ◌++◌, IfOk, OnOk, IsTrue};
ghost use Rattle.std.specs.Option.{option_copied};
ghost use Rattle.std.specs.FinMap as map;
ghost use Rattle.bulk_base.specs.Text.{IsText, is_plain_text};
ghost use Rattle.port_desc.specs.Values as values_of;

use bulk_base::{NoMemory, Sequence, Switch, Text, Texts, words};
use port_vars::Vars;
use std::alloc::Global;

/// The value of a variable; None where it is not set or empty.
pub(crate) fn value_of<'a>(vars: &'a Vars, name: &Text) -> Option<&'a Text>
    ensures { option_copied result ≡ values_of.value_of (map.get vars.now) name.now }
{
    match vars.value(name) {
        Some(value) if !value.bytes().is_empty() => Some(value),
        _ => None,
    }
}

/// The same by the bytes of the variable's name.
pub(crate) fn value_named<'a>(
    alloc: Global,
    vars: &'a Vars,
    name: &[u8],
) -> Result<Option<&'a Text>, NoMemory>
    requires { IsTrue (is_plain_text name.now) }
    ensures { IfOk result (λ value. option_copied value ≡ values_of.value_of (map.get vars.now) name.now) }
{
    Ok(value_of(vars, &Text::literal(alloc, name)?))
}

/// Two texts, one behind the other.
pub(crate) fn joined(alloc: Global, front: &[u8], back: &[u8]) -> Result<Text, NoMemory>
    requires front { IsText front.now }
    requires back { IsText back.now }
    ensures { IfOk result (λ text. text ≡ front.now ++ back.now) }
{
    let mut bytes = Vec::from_slice(alloc, front)?;
    bytes.extend_from_slice(back)?;
    Text::of(alloc, bytes.as_slice())
}

/// The variable by which a flavor or an option changes another one.
pub(crate) fn helper(alloc: Global, owner: &Text, name: &[u8]) -> Result<Text, NoMemory>
    requires { IsTrue (is_plain_text name.now) }
    ensures { IfOk result (λ text. text ≡ values_of.helper owner.now name.now) }
{
    let front = joined(alloc, owner.bytes(), b"_")?;
    joined(alloc, front.bytes(), name)
}

/// The value of a flavor's helper.
fn value_of_helper<'a>(
    alloc: Global,
    vars: &'a Vars,
    flavor: &Text,
    name: &[u8],
) -> Result<Option<&'a Text>, NoMemory>
    requires { IsTrue (is_plain_text name.now) }
    ensures { IfOk result (λ value. option_copied value ≡ values_of.value_of (map.get vars.now) (values_of.helper flavor.now name.now)) }
{
    Ok(value_of(vars, &helper(alloc, flavor, name)?))
}

/// The value of a variable for a flavor: that of the flavor's helper where it has one, else the variable's own.
pub(crate) fn value_for<'a>(
    alloc: Global,
    vars: &'a Vars,
    flavor: Option<&Text>,
    name: &[u8],
) -> Result<Option<&'a Text>, NoMemory>
    requires { IsTrue (is_plain_text name.now) }
    ensures { IfOk result (λ value. option_copied value ≡ values_of.value_for (map.get vars.now) (option_copied flavor.entry) name.now) }
{
    let Some(flavor) = flavor else {
        return value_named(alloc, vars, name);
    };
    match value_of_helper(alloc, vars, flavor, name)? {
        Some(value) => Ok(Some(value)),
        None => value_named(alloc, vars, name),
    }
}

/// The words of a value.
pub(crate) fn words_of_value(alloc: Global, value: Option<&Text>) -> Result<Texts, NoMemory>
    ensures { IfOk result (λ words. words ≡ values_of.words_of_value (option_copied value.entry)) }
{
    match value {
        Some(text) => words(alloc, text),
        None => Ok(Sequence::new(alloc)),
    }
}

/// Puts the words of a variable at the end of a list.
pub(crate) fn push_words(
    alloc: Global,
    vars: &Vars,
    name: &Text,
    found: &mut Vec<Text>,
) -> Result<(), NoMemory>
    ensures { OnOk result (found.new.items ≡ found.old.items ++ values_of.words_in (map.get vars.now) name.now) }
{
    let mut more = words_of_value(alloc, value_of(vars, name))?.into_vec();
    found.append(&mut more)?;
    Ok(())
}

/// Puts the words of a variable's helpers for some options at the end of a list, one option after another.
pub(crate) fn push_words_by_options(
    alloc: Global,
    vars: &Vars,
    on: &[Text],
    name: &[u8],
    found: &mut Vec<Text>,
) -> Result<(), NoMemory>
    requires { IsTrue (is_plain_text name.now) }
    ensures { OnOk result (found.new.items ≡ found.old.items ++ values_of.words_by_options (map.get vars.now) on.now name.now) }
{
    for option in on {
        push_words(alloc, vars, &helper(alloc, option, name)?, found)?;
    }
    Ok(())
}

/// Puts the words of a variable's helper for a flavor at the end of a list.
pub(crate) fn push_words_by_flavor(
    alloc: Global,
    vars: &Vars,
    flavor: Option<&Text>,
    name: &[u8],
    found: &mut Vec<Text>,
) -> Result<(), NoMemory>
    requires { IsTrue (is_plain_text name.now) }
    ensures { OnOk result (found.new.items ≡ found.old.items ++ values_of.words_by_flavor (map.get vars.now) (option_copied flavor.entry) name.now) }
{
    let Some(flavor) = flavor else {
        return Ok(());
    };
    push_words(alloc, vars, &helper(alloc, flavor, name)?, found)
}

/// The names of the options that are on, in the list's order.
pub(crate) fn names_on(alloc: Global, options: &[Switch]) -> Result<Texts, NoMemory>
    ensures { IfOk result (λ names. names ≡ values_of.names_on options.now) }
{
    let mut names = Sequence::new(alloc);
    for option in options {
        if option.on {
            names.push(option.name.copy(alloc)?)?;
        }
    }
    Ok(names)
}
