// The words of a variable.
ghost use Rattle.std.specs.Prelude.{◌≡◌, IfOk};
ghost use Rattle.port_vars.specs.ValueWords as value_words;

use crate::vars::Vars;
use bulk_base::{NoMemory, Sequence, Text, Texts, words};
use std::alloc::Global;

/// The words of a variable, split at blanks, in order; none where the variable is not set (docs/FORMATS.md, "Options").
/// NoMemory for want of memory alone. A look-up, and one pass over the value.
#[tactic(auto, unfolding(crate::specs::ValueWords::words_in))]
pub fn words_in(alloc: Global, vars: &Vars, variable: &Text) -> Result<Texts, NoMemory>
    ensures { IfOk result (λ words. words ≡ value_words.words_in vars.now variable.now) }
{
    match vars.value(variable) {
        Some(value) => words(alloc, value),
        None => Ok(Sequence::new(alloc)),
    }
}
