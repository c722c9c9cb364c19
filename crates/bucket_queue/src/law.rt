// The queue and the model's order.
ghost use Rattle.bucket_queue.specs.Taking.{QueueGivesOrder};

/// The nodes that the queue of a plan gives, each ended as results of the plan say, are those of the model's order for
/// these results. It does nothing.
pub fn queue_gives_order()
    ensures { QueueGivesOrder }
{}
