// Lists of words in variables.
ghost use Rattle.std.specs.Prelude.{◌≡◌, ◌++◌, IfOk};
ghost use Rattle.bulk_base.specs.Text.{IsText};
ghost use Rattle.port_vars.specs.ValueWords as value_words;

use bulk_base::{NoMemory, Text, Texts};
use port_vars::{Vars, words_in};
use std::alloc::Global;

/// The words of the variable with this name.
pub(crate) fn words_at(alloc: Global, vars: &Vars, variable: &[u8]) -> Result<Texts, NoMemory>
    requires { IsText variable.now }
    ensures { IfOk result (λ words. words ≡ value_words.words_in vars.now variable.now) }
{
    words_in(alloc, vars, &Text::of(alloc, variable)?)
}

/// The words of the variable whose name is made of two parts.
pub(crate) fn words_behind(
    alloc: Global,
    vars: &Vars,
    first: &[u8],
    second: &[u8],
) -> Result<Texts, NoMemory>
    requires first { IsText first.now }
    requires second { IsText second.now }
    ensures { IfOk result (λ words. words ≡ value_words.words_in vars.now (first.now ++ second.now)) }
{
    let mut variable = Vec::from_slice(alloc, first)?;
    variable.extend_from_slice(second)?;
    words_at(alloc, vars, variable.as_slice())
}
