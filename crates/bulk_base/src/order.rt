// Texts in byte order, and the least of some numbers.
ghost use Rattle.std.specs.Prelude.{◌≡◌, min, IfOk};
ghost use Rattle.std.specs.Option.{option_map_or};
ghost use Rattle.bulk_base.specs.Order as orders;

use crate::sequence::NoMemory;
use crate::text::{Text, Texts};
use crate::text_map::TextMap;
use std::alloc::Global;

/// Texts in byte order, each once. NoMemory for want of memory alone. O(log n) comparisons for each of the n texts.
#[tactic(auto, unfolding(crate::specs::Order::in_order))]
pub fn in_order(alloc: Global, texts: &[Text]) -> Result<Texts, NoMemory>
    ensures { IfOk result (λ ordered. ordered ≡ orders.in_order texts.now) }
{
    let mut set = TextMap::new(alloc);
    for text in texts {
        set.insert(text.copy(alloc)?, ())?;
    }
    set.keys(alloc)
}

/// The lesser of a number and the least so far, if there is one.
pub fn lower(least: Option<u32>, number: u32) -> u32
    ensures { result ≡ option_map_or (λ l. min l number) least number }
{
    least.map_or(number, |l| l.min(number))
}
