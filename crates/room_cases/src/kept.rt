// A plan of which nothing is kept.
ghost use Rattle.std.specs.Prelude.{◌≡◌, length, replicate, None, IfOk};
ghost use Rattle.bulk_model.specs.Fit.{FitsKept};

use bulk_base::{NoMemory, Sequence};
use bulk_model::{Kept, Package, Plan, Shared};
use std::alloc::Global;

/// No package, so often.
fn nones(alloc: Global, count: usize) -> Result<Vec<Option<Shared<Package>>>, NoMemory>
    ensures { IfOk result (λ packages. packages.items ≡ replicate count None) }
{
    let mut packages = Vec::new(alloc);
    for _ in 0..count {
        packages.push(None)?;
    }
    Ok(packages)
}

/// That no package of a plan is kept.
pub(crate) fn no_kept(alloc: Global, plan: &Plan) -> Result<Kept, NoMemory>
    ensures { IfOk result (FitsKept plan.now) }
{
    let packages = Sequence::from_vec(nones(alloc, plan.jobs.len())?);
    Ok(Kept { packages })
}
