// How a run ends.
ghost use Rattle.std.specs.Prelude.{◌≡◌};
ghost use Rattle.one_port.specs.declared.answer.Answer.TheVariants.{NoMemory as Refused};

use bulk_base::{Text, Texts};
use bulk_model::Which;
use conf_file::ConfKind;
use std::alloc::AllocError;
use tree_index::PortKind;

/// How a run ended.
#[derive(Debug, Drop)]
pub enum Answer {
    /// The lists were printed.
    Done,
    /// The words are no command.
    Usage,
    /// More builders were asked for than there are rooms, or none.
    Builders {
        /// The number that was asked for.
        asked: u64,
        /// The number of rooms.
        had: u64,
    },
    /// A file of settings is at fault.
    BadConf {
        /// The file's path.
        path: Text,
        /// The line's number, from 1; 0 for the whole file.
        line: u32,
        /// What is wrong.
        kind: ConfKind,
    },
    /// A file of the ports is at fault.
    BadPort {
        /// The file's path.
        path: Text,
        /// The line's number, from 1; 0 for the whole file.
        line: u32,
        /// What is wrong.
        kind: PortKind,
    },
    /// Two nodes have packages of one name.
    DupName {
        /// The lesser node.
        a: Text,
        /// The other node.
        b: Text,
        /// The package's name.
        name: Text,
    },
    /// A number passes its limit.
    Limit {
        /// What was counted.
        which: Which,
        /// How many there are.
        count: u64,
    },
    /// The tree has no such port.
    NoOrigin {
        /// The word.
        word: Text,
    },
    /// The port has no such flavor.
    NoFlavor {
        /// The word.
        word: Text,
    },
    /// The port was removed.
    Gone {
        /// The word.
        word: Text,
        /// Why, as MOVED says.
        reason: Text,
    },
    /// MOVED leads a word in a circle.
    MovedLoop {
        /// The names of the circle, in the order followed.
        origins: Texts,
    },
    /// Something that is not served yet is there.
    NotYet {
        /// The file that is not served yet.
        path: Text,
    },
    /// The tree failed.
    TreeFault,
    /// The store failed.
    StoreFault,
    /// A room failed.
    RoomFault {
        /// The number of the builder whose room failed.
        builder: u32,
    },
    /// The sink failed.
    SinkFault,
    /// Want of memory.
    NoMemory,
}

impl From<AllocError> for Answer {
    ghost from_gives = { λ _ answer. answer ≡ Refused };

    fn from(_: AllocError) -> Answer {
        Answer::NoMemory
    }
}

/// How a run ended, and what comes back from it.
pub struct Finished<S, R> {
    /// The process's exit status: 0, or 1 where a port failed or was skipped; 2 for a refusal, 3 for a fault, 4 for
    /// want of memory.
    pub status: u8,
    /// How the run ended.
    pub answer: Answer,
    /// The store that was handed in.
    pub store: S,
    /// The rooms that were handed in, in their order.
    pub rooms: Vec<R>,
}

/// How a run ended that was lent what it worked on.
#[derive(Debug, Drop)]
pub struct Closed {
    /// The process's exit status.
    pub status: u8,
    /// How the run ended.
    pub answer: Answer,
}
