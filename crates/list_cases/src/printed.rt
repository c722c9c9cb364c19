// What a run and a dry run print of written plans.
ghost use Rattle.bulk_model.specs.Fit.{FitsKept, FitsResults};

use bulk_base::Sequence;
use bulk_core::run_alone;
use bulk_model::{Kept, Notice, Notices, Plan, Reason, Results, Stale, Stales};
use case_plans::{
    Marks, Scripted, Written, fails_of, fault_of, fits_kept, kept_of, none_kept, plan_from,
    plan_marked, written_of,
};
use case_text::{CaseError, push_number, push_str, text_of};
use status_lists::{dry_lists, lists};
use std::alloc::{AllocError, Global};

/// What is told beside the nodes.
#[derive(Drop)]
struct Beside {
    deleted: Stales,
    notices: Notices,
}

fn reason_of(word: &str) -> Result<Reason, CaseError> {
    match word {
        "damaged" => Ok(Reason::Damaged),
        "old-record" => Ok(Reason::OldRecord),
        "asked" => Ok(Reason::Asked),
        "no-port" => Ok(Reason::NoPort),
        "ignored" => Ok(Reason::Ignored),
        "new-name" => Ok(Reason::NewName),
        "new-options" => Ok(Reason::NewOptions),
        "new-depends" => Ok(Reason::NewDepends),
        "new-recipe" => Ok(Reason::NewRecipe),
        "missing-depend" => Ok(Reason::MissingDepend),
        _ => Err(CaseError::Unfit),
    }
}

fn stale_of(alloc: Global, part: &str) -> Result<Stale, CaseError> {
    let Some((file, word)) = part.split_once(' ') else {
        return Err(CaseError::Unfit);
    };
    let reason = reason_of(word)?;
    Ok(Stale {
        file: text_of(alloc, file)?,
        reason,
    })
}

/// The files of a field that go, `;` between: each with its reason.
fn stales_of(alloc: Global, field: &str) -> Result<Stales, CaseError> {
    let mut stales = Sequence::new(alloc);
    for part in field.split(';').filter(|part| !part.is_empty()) {
        stales.push(stale_of(alloc, part)?)?;
    }
    Ok(stales)
}

fn notice_of(alloc: Global, part: &str) -> Result<Notice, CaseError> {
    let Some((word, name)) = part.split_once(' ') else {
        return Err(CaseError::Unfit);
    };
    let word = text_of(alloc, word)?;
    Ok(Notice {
        word,
        name: text_of(alloc, name)?,
    })
}

/// The words of a field that moved, `;` between: each with its name.
fn notices_of(alloc: Global, field: &str) -> Result<Notices, CaseError> {
    let mut notices = Sequence::new(alloc);
    for part in field.split(';').filter(|part| !part.is_empty()) {
        notices.push(notice_of(alloc, part)?)?;
    }
    Ok(notices)
}

fn push_lists(
    alloc: Global,
    plan: &Plan,
    results: &Results,
    beside: &Beside,
    out: &mut Vec<u8>,
) -> Result<(), AllocError>
    requires { FitsResults plan.now results.now.statuses }
{
    let text = lists(alloc, plan, results, &beside.deleted, &beside.notices)?;
    out.extend_from_slice(text.as_slice())
}

fn push_run(
    alloc: Global,
    plan: &Plan,
    kept: &Kept,
    marks: &[Marks],
    beside: &Beside,
    out: &mut Vec<u8>,
) -> Result<(), CaseError>
    requires { FitsKept plan.now kept.now }
{
    let mut baker = Scripted::new(alloc, fails_of(alloc, plan, marks)?)?;
    match run_alone(alloc, plan, kept, &mut baker) {
        Ok(results) => Ok(push_lists(alloc, plan, &results, beside, out)?),
        Err(error) => Err(fault_of(error)),
    }
}

fn push_dry(
    alloc: Global,
    plan: &Plan,
    kept: &Kept,
    beside: &Beside,
    out: &mut Vec<u8>,
) -> Result<(), AllocError> {
    let text = dry_lists(alloc, plan, kept, &beside.deleted, &beside.notices)?;
    out.extend_from_slice(text.as_slice())
}

fn push_either(
    alloc: Global,
    plan: &Plan,
    marks: &[Marks],
    beside: &Beside,
    is_dry: bool,
    out: &mut Vec<u8>,
) -> Result<(), CaseError> {
    let kept = kept_of(alloc, plan, marks)?;
    if !fits_kept(plan, &kept) {
        return Err(CaseError::Unfit);
    }
    if is_dry {
        Ok(push_dry(alloc, plan, &kept, beside, out)?)
    } else {
        push_run(alloc, plan, &kept, marks, beside, out)
    }
}

fn push_written(
    alloc: Global,
    written: Written,
    beside: &Beside,
    is_dry: bool,
    out: &mut Vec<u8>,
) -> Result<(), CaseError> {
    let Written { jobs, edges, marks } = written;
    let plan = plan_from(alloc, jobs, edges, marks.as_slice())?;
    push_either(alloc, &plan, marks.as_slice(), beside, is_dry, out)
}

fn beside_of(alloc: Global, deleted: &str, moved: &str) -> Result<Beside, CaseError> {
    let deleted = stales_of(alloc, deleted)?;
    Ok(Beside {
        deleted,
        notices: notices_of(alloc, moved)?,
    })
}

/// What a run of one builder, or a dry run, prints of a written plan, beside files that go and
/// words that moved.
pub(crate) fn answer_printed(
    alloc: Global,
    fields: [&str; 3],
    is_dry: bool,
    out: &mut Vec<u8>,
) -> Result<(), CaseError> {
    let beside = beside_of(alloc, fields[1], fields[2])?;
    push_written(alloc, written_of(alloc, fields[0])?, &beside, is_dry, out)
}

/// How long the text of a dry run is, and its end.
fn push_size(alloc: Global, text: &[u8], out: &mut Vec<u8>) -> Result<(), AllocError> {
    push_number(alloc, out, text.len() as u64)?;
    push_str(out, " bytes, at last ")?;
    out.extend_from_slice(&text[text.len().saturating_sub(60)..])
}

fn push_many(alloc: Global, plan: &Plan, out: &mut Vec<u8>) -> Result<(), AllocError> {
    let kept = none_kept(alloc, plan)?;
    let beside = Beside {
        deleted: Sequence::new(alloc),
        notices: Sequence::new(alloc),
    };
    let mut text = Vec::new(alloc);
    push_dry(alloc, plan, &kept, &beside, &mut text)?;
    push_size(alloc, text.as_slice(), out)
}

/// What a dry run prints of a chain, a fan or groups of so many nodes, of which the first is
/// ignored.
pub(crate) fn answer_skipped(
    alloc: Global,
    shape: &str,
    count: &str,
    out: &mut Vec<u8>,
) -> Result<(), CaseError> {
    let plan = plan_marked(alloc, shape, count, true)?;
    Ok(push_many(alloc, &plan, out)?)
}
