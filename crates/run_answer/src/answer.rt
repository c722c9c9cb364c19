// Every answer of a run.
ghost use Rattle.std.specs.Prelude.{◌≡◌};
ghost use Rattle.run_answer.specs.declared.answer.Answer.TheVariants.{NoMemory as Refused};

use bulk_base::{Path, Text, Texts};
use bulk_model::Which;
use conf_file::ConfKind;
use dist_files::DistWhy;
use std::alloc::AllocError;
use tree_index::PortKind;

/// How a run ended (docs/FORMATS.md, "Refusals"). No command answers all of them: `bulk` answers
/// neither DistFault nor SiteFault nor BadCurrent.
#[derive(Debug, Drop)]
pub enum Answer {
    /// The lists were printed.
    Done,
    /// The words are no command.
    Usage,
    /// More builders were asked for than there are rooms, or none.
    Builders {
        /// The number that was asked for.
        asked: u64,
        /// The number of rooms.
        had: u64,
    },
    /// A file of settings is at fault.
    BadConf {
        /// The file's path.
        path: Text,
        /// The line's number, from 1; 0 for the whole file.
        line: u32,
        /// What is wrong.
        kind: ConfKind,
    },
    /// A file of the ports is at fault.
    BadPort {
        /// The file's path.
        path: Text,
        /// The line's number, from 1; 0 for the whole file.
        line: u32,
        /// What is wrong.
        kind: PortKind,
    },
    /// Two nodes have packages of one name.
    DupName {
        /// The lesser node.
        a: Text,
        /// The other node.
        b: Text,
        /// The package's name.
        name: Text,
    },
    /// A number passes its limit.
    Limit {
        /// What was counted.
        which: Which,
        /// How many there are.
        count: u64,
    },
    /// The word of `-f` is no path, or the tree has no such file.
    NoList {
        /// The word, as written.
        path: Text,
    },
    /// A line of the list of `-f` is no origin in form.
    BadList {
        /// The list's path.
        path: Text,
        /// The line's number, from 1.
        line: u32,
    },
    /// The tree has no such port.
    NoOrigin {
        /// The word.
        word: Text,
    },
    /// The port has no such flavor.
    NoFlavor {
        /// The word.
        word: Text,
    },
    /// The port was removed.
    Gone {
        /// The word.
        word: Text,
        /// Why, as MOVED says.
        reason: Text,
    },
    /// MOVED leads a word in a circle.
    MovedLoop {
        /// The names of the circle, in the order followed.
        origins: Texts,
    },
    /// A port depends on one that the tree does not have.
    NoDepend {
        /// The name of the node that depends.
        port: Text,
        /// The target of its entry, as written.
        origin: Text,
    },
    /// A port depends on one that moved.
    MovedDepend {
        /// The name of the node that depends.
        port: Text,
        /// The target of its entry, as written.
        old: Text,
        /// The name that MOVED leads it to.
        new: Text,
    },
    /// Ports depend on each other in a circle.
    Loop {
        /// The names of the nodes that stand on a circle, in byte order.
        ports: Texts,
    },
    /// A distfile is not the one that its port's list states.
    BadDist {
        /// The name of the port's node.
        port: Text,
        /// The file, as the list names it.
        file: Path,
        /// In what it differs.
        why: DistWhy,
    },
    /// The file that tells which generation of a site holds is no number.
    BadCurrent,
    /// The tree failed.
    TreeFault,
    /// The store failed.
    StoreFault,
    /// The folder of distfiles failed.
    DistFault,
    /// The site failed.
    SiteFault,
    /// A room failed.
    RoomFault {
        /// The number of the builder whose room failed.
        builder: u32,
    },
    /// The sink failed.
    SinkFault,
    /// Want of memory.
    NoMemory,
}

impl From<AllocError> for Answer {
    ghost from_gives = { λ _ answer. answer ≡ Refused };

    fn from(_: AllocError) -> Answer {
        Answer::NoMemory
    }
}
