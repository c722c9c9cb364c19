// make.conf.
ghost use Rattle.std.specs.Prelude.{◌≡◌, ◌≢◌, ◌++◌, ◌∷◌, codes, Ok, Err, IfOk, IfErr};
ghost use Rattle.bulk_base.specs.Text.{IsText};
ghost use Rattle.port_vars.specs.ValueWords.{words_in as words_of};
ghost use Rattle.conf_file.specs.Make as make_conf;

use crate::fault::ConfError;
use bulk_base::{NoMemory, Text, Texts};
use option_set::Layers;
use port_name::Origin;
use port_vars::{Vars, read_vars, words_in};
use std::alloc::Global;

/// What make.conf says.
#[derive(Drop)]
pub struct MakeConf {
    /// Its variables.
    pub vars: Vars,
    /// Whether ports that are marked as broken are to be tried: TRYBROKEN is set and not empty.
    pub try_broken: bool,
}

/// Whether a variable is set and not empty.
fn is_set(vars: &Vars, variable: &Text) -> bool
    ensures { result ≡ make_conf.is_set vars.now variable.now }
{
    match vars.value(variable) {
        Some(value) => !value.bytes().is_empty(),
        None => false,
    }
}

/// Reads make.conf, a variable file (docs/FORMATS.md, "Variable files").
///
/// BadLine exactly where the file is outside the grammar of variable files, with the number of its first faulty line and
/// what is wrong with it. NoMemory for want of memory alone.
///
/// The cost is that of `read_vars` of port_vars.
pub fn read_make(alloc: Global, bytes: &[u8]) -> Result<MakeConf, ConfError>
    ensures ok { IfOk result (λ make. make_conf.make_of bytes.now ≡ Ok make) }
    ensures bad_line { IfErr result (λ e. e ≢ ConfError.NoMemory → make_conf.make_of bytes.now ≡ Err e) }
{
    let vars = read_vars(alloc, bytes)?;
    let try_broken = is_set(&vars, &Text::literal(alloc, b"TRYBROKEN")?);
    Ok(MakeConf { vars, try_broken })
}

/// The words of a variable of a file.
fn words_at(alloc: Global, vars: &Vars, variable: &[u8]) -> Result<Texts, NoMemory>
    requires { IsText variable.now }
    ensures { IfOk result (λ words. words ≡ words_of vars.now variable.now) }
{
    words_in(alloc, vars, &Text::of(alloc, variable)?)
}

/// The words of the variable of a port that has this ending: CATEGORY_PORT and the ending.
fn port_words(alloc: Global, vars: &Vars, origin: &Origin, ending: &[u8]) -> Result<Texts, NoMemory>
    requires { IsText ending.now }
    ensures { IfOk result (λ words. words ≡ words_of vars.now (make_conf.port_variable origin.now ending.now)) }
{
    let mut variable = Vec::from_slice(alloc, origin.category.bytes())?;
    variable.push(b'_')?;
    variable.extend_from_slice(origin.port.bytes())?;
    variable.extend_from_slice(ending)?;
    words_at(alloc, vars, variable.as_slice())
}

impl MakeConf {
    /// The layers of a port's options above its default: OPTIONS_SET and OPTIONS_UNSET of make.conf, its words on the port in
    /// `CATEGORY_PORT_SET` and `CATEGORY_PORT_UNSET`, and OPTIONS_FILE_SET and OPTIONS_FILE_UNSET among the variables of
    /// the port's options file (bsd.options.mk; docs/FORMATS.md, "Options").
    ///
    /// NoMemory for want of memory alone. Six look-ups, and one pass over each value.
    pub fn layers(&self, alloc: Global, origin: &Origin, file: &Vars) -> Result<Layers, NoMemory>
        ensures { IfOk result (λ layers. layers ≡ make_conf.layers_of self.now.vars origin.now file.now) }
    {
        Ok(Layers {
            global_set: words_at(alloc, &self.vars, b"OPTIONS_SET")?,
            global_unset: words_at(alloc, &self.vars, b"OPTIONS_UNSET")?,
            port_set: port_words(alloc, &self.vars, origin, b"_SET")?,
            port_unset: port_words(alloc, &self.vars, origin, b"_UNSET")?,
            file_set: words_at(alloc, file, b"OPTIONS_FILE_SET")?,
            file_unset: words_at(alloc, file, b"OPTIONS_FILE_UNSET")?,
        })
    }
}
