// Which object is blamed for a failed call.
ghost use Rattle.std.specs.Prelude.{◌≡◌};
ghost use Rattle.run_answer.specs.Steps as steps;

use crate::answer::Answer;
use outside::Outer;

/// How a failed call of the tree is told: TreeFault, or NoMemory. Takes no memory.
pub fn tree_answer(outer: Outer) -> Answer
    ensures { result ≡ steps.tree_answer outer }
{
    match outer {
        Outer::Fault => Answer::TreeFault,
        Outer::NoMemory => Answer::NoMemory,
    }
}

/// How a failed call of the store is told: StoreFault, or NoMemory. Takes no memory.
pub fn store_answer(outer: Outer) -> Answer
    ensures { result ≡ steps.store_answer outer }
{
    match outer {
        Outer::Fault => Answer::StoreFault,
        Outer::NoMemory => Answer::NoMemory,
    }
}
