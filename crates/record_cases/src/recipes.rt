// The digests of recipes: of jobs that have the fields of a record's package, with commands of their own.
ghost use Rattle.std.specs.Prelude.{◌≡◌, map, IfOk};
ghost use Rattle.bulk_model.specs.Views.{need_of};

use crate::records::push_digest;
use bulk_base::Sequence;
use bulk_model::{Command, Commands, Depend, Depends, Job, Package, Recorded, Steps};
use case_text::{CaseError, bytes_of, files_of, words_of};
use pkg_record::{Record, read, recipe};
use std::alloc::{AllocError, Global};

/// The commands of a field, with `,` between.
fn commands_of(alloc: Global, field: &str) -> Result<Commands, CaseError> {
    let mut found = Sequence::new(alloc);
    for part in field.split(',') {
        if let Some(command) = Command::new(words_of(alloc, part)?) {
            found.push(command)?;
        }
    }
    Ok(found)
}

fn two_of(alloc: Global, first: &str, second: &str) -> Result<(Commands, Commands), CaseError> {
    let first = commands_of(alloc, first)?;
    let second = commands_of(alloc, second)?;
    Ok((first, second))
}

/// The commands of the five phases, with `;` between.
fn steps_of(alloc: Global, fields: &[&str]) -> Result<Steps, CaseError> {
    let [extract, patch, configure, build, stage] = fields else {
        return Err(CaseError::Unfit);
    };
    let stage = commands_of(alloc, stage)?;
    let (extract, patch) = two_of(alloc, extract, patch)?;
    let (configure, build) = two_of(alloc, configure, build)?;
    Ok(Steps {
        extract,
        patch,
        configure,
        build,
        stage,
    })
}

fn package_of(alloc: Global, record: &[u8]) -> Result<Package, CaseError> {
    match read(alloc, record) {
        Ok(Record::New(package)) => Ok(package),
        _ => Err(CaseError::Unfit),
    }
}

fn need(alloc: Global, depend: &Recorded) -> Result<Depend, AllocError>
    ensures { IfOk result (λ found. found ≡ need_of depend.now) }
{
    let node = depend.node.copy(alloc)?;
    let name = depend.name.copy(alloc)?;
    Ok(Depend {
        kind: depend.kind,
        node,
        name,
    })
}

fn needs(alloc: Global, depends: &[Recorded]) -> Result<Depends, AllocError>
    ensures { IfOk result (λ found. found ≡ map need_of depends.now) }
{
    let mut found = Sequence::new(alloc);
    for depend in depends {
        found.push(need(alloc, depend)?)?;
    }
    Ok(found)
}

/// The job with the fields of a package.
fn job_of(alloc: Global, package: Package, steps: Steps) -> Result<Job, AllocError> {
    let depends = needs(alloc, package.depends.as_slice())?;
    let Package {
        name,
        origin,
        flavor,
        recipe: _,
        options,
        depends: _,
        files,
    } = package;
    Ok(Job {
        name,
        origin,
        flavor,
        options,
        depends,
        steps,
        files,
    })
}

fn read_job(alloc: Global, record: &str, steps: &str) -> Result<Job, CaseError> {
    let fields: Vec<&str> = steps.split(';').collect(alloc)?;
    let steps = steps_of(alloc, fields.as_slice())?;
    let package = package_of(alloc, bytes_of(alloc, record)?.as_slice())?;
    Ok(job_of(alloc, package, steps)?)
}

/// The digest of the recipe of a job with the fields of a record's package and some commands, over a base root.
pub(crate) fn answer_recipe(
    alloc: Global,
    [record, steps, base]: [&str; 3],
    out: &mut Vec<u8>,
) -> Result<(), CaseError> {
    let base = files_of(alloc, base)?;
    let job = read_job(alloc, record, steps)?;
    Ok(push_digest(alloc, &recipe(alloc, &base, &job)?, out)?)
}
