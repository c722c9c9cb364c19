// What a queue knows of a node.
ghost use Rattle.std.specs.Prelude.{◌≡◌};
ghost use Rattle.bucket_queue.specs.QueueView.{is_free, is_taken, has_package};

/// What a queue knows of a node.
#[derive(Clone, Copy, Debug, PartialEq, Eq)]
pub enum Mark {
    /// Its port is ignored.
    Ignored,
    /// Its package is kept.
    Kept,
    /// It was not taken.
    Free,
    /// It was taken and has not ended.
    Taken,
    /// It was built.
    Done,
    /// It failed.
    Bad,
}

impl Mark {
    pub(crate) fn is_free(self) -> bool
        ensures { result ≡ is_free self }
    {
        matches!(self, Mark::Free)
    }

    pub(crate) fn is_taken(self) -> bool
        ensures { result ≡ is_taken self }
    {
        matches!(self, Mark::Taken)
    }

    pub(crate) fn has_package(self) -> bool
        ensures { result ≡ has_package self }
    {
        matches!(self, Mark::Kept | Mark::Done)
    }
}
