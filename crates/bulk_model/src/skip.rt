// Why a node was skipped.
ghost use Rattle.std.specs.Prelude.{◌≡◌, ◌<◌, not, length, map, IsTrue, IfSome};
ghost use Rattle.std.specs.List.{All};
ghost use Rattle.bulk_base.specs.Least.{least_passing};
ghost use Rattle.bulk_model.specs.Fit.{status_in, is_skipped, FitsResults};
ghost use Rattle.bulk_model.specs.Results.{is_good};
ghost use Rattle.bulk_model.specs.Cause.{cause};

use crate::plan::{Edge, Plan};
use crate::results::{Results, Status};
use bulk_base::lower;

impl Status {
    /// Whether a node has a package.
    pub fn has_package(&self) -> bool
        ensures { result ≡ is_good self.now }
    {
        match self {
            Status::Kept(_) | Status::Built(_) => true,
            Status::Failed { .. } | Status::Ignored | Status::Skipped => false,
        }
    }

    fn is_skipped(&self) -> bool
        ensures { result ≡ is_skipped self.now }
    {
        matches!(self, Status::Skipped)
    }
}

/// The least target of some edges that has no package.
fn least_setback(edges: &[Edge], statuses: &[Status]) -> Option<u32>
    requires { All (λ edge. edge.to < length statuses.now) edges.now }
    ensures least { result ≡ least_passing (λ d. not (is_good (status_in statuses.now d)))
        (map (λ edge. edge.to) edges.now) }
    ensures node { IfSome result (λ d. d < length statuses.now) }
{
    let mut least = None;
    for edge in edges {
        if !statuses[edge.to as usize].has_package() {
            least = Some(lower(least, edge.to));
        }
    }
    least
}

/// Why a node was skipped: its least dependency that failed or is ignored, or, where that one was skipped itself, its
/// cause (poudriere-bulk(8): what depends on a port that failed or is ignored is skipped).
///
/// Each edge of the nodes on the way is looked at once.
pub fn cause(plan: &Plan, results: &Results, n: u32) -> u32
    requires fit { FitsResults plan.now results.now.statuses }
    requires node { n < length plan.now.jobs }
    requires skipped { IsTrue (is_skipped (status_in results.now.statuses n)) }
    ensures { result ≡ cause plan.now results.now.statuses n }
{
    let statuses = results.statuses.as_slice();
    let mut node = n;
    for _ in 0..plan.jobs.len() {
        let edges = plan.edges.as_slice()[node as usize].as_slice();
        let Some(least) = least_setback(edges, statuses) else {
            return node;
        };
        if !statuses[least as usize].is_skipped() {
            return least;
        }
        node = least;
    }
    node
}
