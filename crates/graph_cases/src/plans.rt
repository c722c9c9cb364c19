// The plan of a port that is ignored and one that runs it, and why the second is skipped.
ghost use Rattle.std.specs.Prelude.{◌≡◌, IfOk};
ghost use Rattle.bulk_base.specs.Names.{IsPackageName, IsOrigin};
ghost use Rattle.graph_cases.specs.Examples.{bare, ignoring};

use bulk_base::{NoMemory, Sequence, Text};
use bulk_model::{
    DepKind, Edge, EdgeLists, Flags, Job, Jobs, MaybeTexts, Plan, Results, Status, Steps, cause,
};
use case_text::{CaseError, push_number};
use std::alloc::Global;

fn port(alloc: Global, name: Text, origin: Text) -> Job
    requires name { IsPackageName name }
    requires origin { IsOrigin origin }
    ensures { result ≡ bare name origin }
{
    Job {
        name,
        origin,
        flavor: None,
        options: Sequence::new(alloc),
        depends: Sequence::new(alloc),
        steps: Steps {
            extract: Sequence::new(alloc),
            patch: Sequence::new(alloc),
            configure: Sequence::new(alloc),
            build: Sequence::new(alloc),
            stage: Sequence::new(alloc),
        },
        files: Sequence::new(alloc),
    }
}

fn two_jobs(alloc: Global) -> Result<Jobs, NoMemory>
    ensures { IfOk result (λ jobs. jobs ≡ ignoring.jobs) }
{
    let mut jobs = Sequence::new(alloc);
    let (name, origin) = (
        Text::literal(alloc, b"i-1.0")?,
        Text::literal(alloc, b"a/i")?,
    );
    jobs.push(port(alloc, name, origin))?;
    let (name, origin) = (
        Text::literal(alloc, b"u-1.0")?,
        Text::literal(alloc, b"a/u")?,
    );
    jobs.push(port(alloc, name, origin))?;
    Ok(jobs)
}

fn one_edge(alloc: Global) -> Result<EdgeLists, NoMemory>
    ensures { IfOk result (λ edges. edges ≡ ignoring.edges) }
{
    let mut runs_it = Sequence::new(alloc);
    runs_it.push(Edge {
        kind: DepKind::Run,
        to: 0,
    })?;
    let mut edges = Sequence::new(alloc);
    edges.push(Sequence::new(alloc))?;
    edges.push(runs_it)?;
    Ok(edges)
}

fn one_ignored(alloc: Global) -> Result<MaybeTexts, NoMemory>
    ensures { IfOk result (λ ignored. ignored ≡ ignoring.ignored) }
{
    let mut ignored = Sequence::new(alloc);
    ignored.push(Some(Text::literal(alloc, b"no")?))?;
    ignored.push(None)?;
    Ok(ignored)
}

fn ignored_pair(alloc: Global) -> Result<Plan, NoMemory>
    ensures { IfOk result (λ plan. plan ≡ ignoring) }
{
    let jobs = two_jobs(alloc)?;
    let edges = one_edge(alloc)?;
    let ignored = one_ignored(alloc)?;
    let boosted = Flags::none(alloc, 2)?;
    Ok(Plan {
        jobs,
        edges,
        ignored,
        wanted: Sequence::new(alloc),
        base: Sequence::new(alloc),
        boosted,
    })
}

/// The cause of the second's skip: the number of the first.
pub(crate) fn answer_cause(alloc: Global, out: &mut Vec<u8>) -> Result<(), CaseError> {
    let plan = ignored_pair(alloc)?;
    let mut statuses = Sequence::new(alloc);
    statuses.push(Status::Ignored)?;
    statuses.push(Status::Skipped)?;
    let results = Results { statuses };
    Ok(push_number(alloc, out, u64::from(cause(&plan, &results, 1)))?)
}
