// What a run of ports prints, and its exit status.
ghost use Rattle.std.specs.Prelude.{◌≡◌, ◌++◌, [], ◌∷◌, length, map, IfOk, OnOk, OnErr};
ghost use Rattle.std.specs.List.{flat_map, list_any};
ghost use Rattle.std.specs.Option.{option_map, option_to_list};
ghost use Rattle.std.specs.String.{string_bytes};
ghost use Rattle.bulk_base.specs.Names.{node_of};
ghost use Rattle.bulk_model.specs.Lists as model;
ghost use Rattle.bulk_model.specs.Lists.{entries, is_setback, notice_line, two_words};
ghost use Rattle.bulk_model.specs.Results.{status_of_outcome};
ghost use Rattle.one_port.specs.PortsPlan.{plan_of};
ghost use Rattle.one_port.specs.Report.{ports_status, ports_text};

use bulk_base::NoMemory;
use bulk_model::{Job, Notice, Outcome, Phase};
use std::alloc::Global;

fn phase_word(phase: Phase) -> &'static str
    ensures { result.now ≡ model.phase_word phase }
{
    match phase {
        Phase::Depends => "depends",
        Phase::Extract => "extract",
        Phase::Patch => "patch",
        Phase::Configure => "configure",
        Phase::Build => "build",
        Phase::Stage => "stage",
        Phase::Package => "package",
    }
}

/// The job's node: its origin, or its origin, `@` and its flavor.
fn node(alloc: Global, job: &Job) -> Result<String, NoMemory>
    ensures { IfOk result (λ text. string_bytes text ≡ node_of job.now.origin job.now.flavor) }
{
    match &job.flavor {
        Some(flavor) => Ok(format!(in alloc; "{}@{}", job.origin, flavor)?),
        None => Ok(String::from_str(alloc, job.origin.as_str())?),
    }
}

/// A port with its package's name.
fn node_words(alloc: Global, job: &Job) -> Result<String, NoMemory>
    ensures { IfOk result (λ text. string_bytes text ≡ two_words (node_of job.now.origin job.now.flavor) job.now.name) }
{
    let node = node(alloc, job)?;
    Ok(format!(in alloc; "{} {}", node, job.name)?)
}

/// A port's entry in the list of what was built, where it was.
fn built_entry(alloc: Global, job: &Job, outcome: &Outcome) -> Result<Option<String>, NoMemory>
    ensures { IfOk result (λ entry. option_map string_bytes entry ≡ model.built_entry (plan_of (job.now ∷ [])) 0 (status_of_outcome outcome.now)) }
{
    match outcome {
        Outcome::Built(_) => Ok(Some(node_words(alloc, job)?)),
        Outcome::Failed { .. } => Ok(None),
    }
}

/// A port's entry in the list of what failed, where it did.
fn failed_entry(alloc: Global, job: &Job, outcome: &Outcome) -> Result<Option<String>, NoMemory>
    ensures { IfOk result (λ entry. option_map string_bytes entry ≡ model.failed_entry (plan_of (job.now ∷ [])) 0 (status_of_outcome outcome.now)) }
{
    match outcome {
        Outcome::Built(_) => Ok(None),
        Outcome::Failed { phase, code } => {
            let words = node_words(alloc, job)?;
            let phase = phase_word(*phase);
            Ok(Some(format!(in alloc; "{words} {phase} {code}")?))
        }
    }
}

/// Puts an entry at the end of a list, if there is one.
fn push_entry(entries: &mut Vec<String>, entry: Option<String>) -> Result<(), NoMemory>
    ensures { OnOk result (entries.new.items ≡ entries.old.items ++ option_to_list entry) }
{
    if let Some(entry) = entry {
        entries.push(entry)?;
    }
    Ok(())
}

/// The entries of the ports that were built, in their order.
fn built_entries(alloc: Global, jobs: &[Job], outcomes: &[Outcome]) -> Result<Vec<String>, NoMemory>
    requires { length outcomes.now ≡ length jobs.now }
    ensures { IfOk result (λ found. map string_bytes found.items ≡ entries (model.built_entry (plan_of jobs.now)) (plan_of jobs.now) (map status_of_outcome outcomes.now)) }
{
    let mut entries = Vec::new(alloc);
    for (job, outcome) in jobs.iter().zip(outcomes) {
        let entry = built_entry(alloc, job, outcome)?;
        push_entry(&mut entries, entry)?;
    }
    Ok(entries)
}

/// The entries of the ports that failed, in their order.
fn failed_entries(
    alloc: Global,
    jobs: &[Job],
    outcomes: &[Outcome],
) -> Result<Vec<String>, NoMemory>
    requires { length outcomes.now ≡ length jobs.now }
    ensures { IfOk result (λ found. map string_bytes found.items ≡ entries (model.failed_entry (plan_of jobs.now)) (plan_of jobs.now) (map status_of_outcome outcomes.now)) }
{
    let mut entries = Vec::new(alloc);
    for (job, outcome) in jobs.iter().zip(outcomes) {
        let entry = failed_entry(alloc, job, outcome)?;
        push_entry(&mut entries, entry)?;
    }
    Ok(entries)
}

/// A heading with the number of its entries, and a line for each of them.
fn listed(alloc: Global, heading: &str, entries: &[String]) -> Result<String, NoMemory>
    ensures { IfOk result (λ text. string_bytes text ≡ model.listed heading.now (map string_bytes entries.now)) }
{
    let count = entries.len();
    let mut text = format!(in alloc; "{heading} {count}\n")?;
    for entry in entries {
        let line = format!(in alloc; "  {entry}\n")?;
        text.push_str(line.as_str())?;
    }
    Ok(text)
}

/// A line for each notice: the word, and the name that it led to.
fn notice_lines(alloc: Global, notices: &[Notice]) -> Result<String, NoMemory>
    ensures { IfOk result (λ text. string_bytes text ≡ flat_map notice_line notices.now) }
{
    let mut text = String::new(alloc);
    for notice in notices {
        let line = format!(in alloc; "moved {} {}\n", notice.word, notice.name)?;
        text.push_str(line.as_str())?;
    }
    Ok(text)
}

fn text(
    alloc: Global,
    jobs: &[Job],
    notices: &[Notice],
    outcomes: &[Outcome],
) -> Result<String, NoMemory>
    requires { length outcomes.now ≡ length jobs.now }
    ensures { IfOk result (λ text. string_bytes text ≡ ports_text jobs.now notices.now outcomes.now) }
{
    let moved = notice_lines(alloc, notices)?;
    let built = built_entries(alloc, jobs, outcomes)?;
    let built = listed(alloc, "built", built.as_slice())?;
    let failed = failed_entries(alloc, jobs, outcomes)?;
    let failed = listed(alloc, "failed", failed.as_slice())?;
    let total = jobs.len();
    Ok(format!(in alloc;
        "{moved}deleted 0\nkept 0\n{built}{failed}ignored 0\nskipped 0\ntotal {total}\n"
    )?)
}

/// The lists of a run in which some ports were built or failed: what its words meant, a list of the built ones, one of
/// the failed ones, and the lists that stay empty.
pub(crate) fn port_lists(
    alloc: Global,
    jobs: &[Job],
    notices: &[Notice],
    outcomes: &[Outcome],
) -> Result<Vec<u8>, NoMemory>
    requires { length outcomes.now ≡ length jobs.now }
    ensures { IfOk result (λ text. text.items ≡ ports_text jobs.now notices.now outcomes.now) }
{
    Ok(text(alloc, jobs, notices, outcomes)?.into_bytes())
}

fn is_failed(outcome: &Outcome) -> bool
    ensures { result ≡ is_setback (status_of_outcome outcome.now) }
{
    match outcome {
        Outcome::Built(_) => false,
        Outcome::Failed { .. } => true,
    }
}

fn has_failed(outcomes: &[Outcome]) -> bool
    ensures { result ≡ list_any (λ outcome. is_setback (status_of_outcome outcome)) outcomes.now }
{
    outcomes.iter().any(|outcome| is_failed(outcome))
}

/// The exit status of such a run: 0 where all ports were built, 1 where one failed.
pub(crate) fn setback(outcomes: &[Outcome]) -> u8
    ensures { result ≡ ports_status outcomes.now }
{
    u8::from(has_failed(outcomes))
}
