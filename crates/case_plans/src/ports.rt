// Ports without files and commands.
ghost use Rattle.std.specs.Prelude.{◌≡◌, IfOk, IsTrue};
ghost use Rattle.bulk_base.specs.Names.{IsPackageName, is_flavor};

use bulk_base::{NoMemory, Sequence, Text};
use bulk_model::{Job, Steps};
use case_text::CaseError;
use port_name::{NameError, NameParts, flavor, pkgname};
use std::alloc::Global;

/// A port with nothing to do, by the name of its package and its flavor.
fn bare(alloc: Global, name: Text, flavor: Text) -> Result<Job, NoMemory>
    requires name { IsPackageName name }
    requires flavor { IsTrue (is_flavor flavor) }
{
    let origin = Text::of(alloc, b"a/x")?;
    Ok(Job {
        name,
        origin,
        flavor: Some(flavor),
        options: Sequence::new(alloc),
        depends: Sequence::new(alloc),
        steps: Steps {
            extract: Sequence::new(alloc),
            patch: Sequence::new(alloc),
            configure: Sequence::new(alloc),
            build: Sequence::new(alloc),
            stage: Sequence::new(alloc),
        },
        files: Sequence::new(alloc),
    })
}

fn parts_of(alloc: Global, portname: &str) -> Result<NameParts, CaseError> {
    Ok(NameParts {
        prefix: Text::from_bytes(alloc, b"")?,
        portname: Text::from_bytes(alloc, portname.as_bytes())?,
        suffix: Text::from_bytes(alloc, b"")?,
        version: Text::from_bytes(alloc, b"1")?,
        revision: None,
        epoch: None,
    })
}

fn fault_of(error: NameError) -> CaseError {
    match error {
        NameError::NoMemory => CaseError::NoMemory,
        _ => CaseError::Unfit,
    }
}

/// The package's name of a port, by PORTNAME, in version 1. Unfit where that is none.
pub fn name_of(alloc: Global, portname: &str) -> Result<Text, CaseError>
    ensures { IfOk result IsPackageName }
{
    let parts = parts_of(alloc, portname)?;
    match pkgname(alloc, &parts) {
        Ok(name) => Ok(name),
        Err(error) => Err(fault_of(error)),
    }
}

/// A flavor. Unfit where the word is none.
fn flavor_of(alloc: Global, word: &str) -> Result<Text, CaseError>
    ensures { IfOk result (λ found. IsTrue (is_flavor found)) }
{
    let word = Text::from_bytes(alloc, word.as_bytes())?;
    match flavor(alloc, &word) {
        Ok(found) => Ok(found),
        Err(error) => Err(fault_of(error)),
    }
}

/// A port by PORTNAME, which is its flavor too. Unfit where that is none.
pub fn port(alloc: Global, portname: &str) -> Result<Job, CaseError> {
    let name = name_of(alloc, portname)?;
    let flavor = flavor_of(alloc, portname)?;
    Ok(bare(alloc, name, flavor)?)
}
