// Why a ports tree has no index.
ghost use Rattle.std.specs.Prelude.{◌≡◌};
ghost use Rattle.tree_index.specs.declared.fault.IndexError.TheVariants.{NoMemory as Refused};

use bulk_base::{Text, Texts};
use bulk_model::Which;
use outside::Outer;
use port_vars::LineKind;
use std::alloc::AllocError;

/// What is wrong with a file of the ports tree (docs/FORMATS.md, "The tree folder").
#[derive(Debug, Drop)]
pub enum PortKind {
    /// A line is outside the grammar of variable files.
    Line(LineKind),
    /// A word that names an option is no option's name, or no option that the port defines.
    Undefined {
        /// The word.
        name: Text,
    },
    /// A group of options has too many or too few on.
    Group {
        /// The group's name.
        group: Text,
        /// Its members that are on, in byte order.
        on: Texts,
    },
    /// An option that is on prevents another one that is.
    Prevented {
        /// The option that prevents.
        a: Text,
        /// The option that it prevents.
        b: Text,
    },
    /// A word of FLAVORS is no flavor, is `all`, or stands there already.
    BadFlavor {
        /// The word.
        flavor: Text,
    },
    /// A variable that every port sets is not set, or its value is empty.
    Missing {
        /// The variable.
        name: Text,
    },
    /// A part of the package's name is outside its form, or a word of SUBDIR is no name of a category or a port.
    BadValue {
        /// The variable.
        name: Text,
    },
    /// A word of a dependency variable is no entry.
    BadDepend {
        /// The word.
        entry: Text,
    },
    /// An entry has a target of make behind the port.
    Target {
        /// The word.
        entry: Text,
    },
    /// The file is not there.
    Absent,
    /// A path that the builder keeps for its own files. No index answers it; the layers above do, and the next two.
    Reserved,
    /// A line of a distinfo is outside its form, or its files do not fit together.
    Distinfo,
    /// A line of a pkg-plist is outside its form.
    Plist,
    /// A line of MOVED is outside its form.
    BadMoved,
}

/// Why a ports tree has no index.
#[derive(Debug, Drop)]
pub enum IndexError {
    /// The tree failed.
    TreeFault,
    /// A file of the tree is at fault.
    BadPort {
        /// The file's path.
        path: Text,
        /// The line's number, from 1; 0 for the whole file.
        line: u32,
        /// What is wrong.
        kind: PortKind,
    },
    /// A number passes its limit.
    Limit {
        /// What was counted.
        which: Which,
        /// How many there are.
        count: u64,
    },
    /// Two nodes have packages of one name.
    DupName {
        /// The lesser node, the least that shares its package's name with another.
        a: Text,
        /// The least of the others.
        b: Text,
        /// The package's name.
        name: Text,
    },
    /// Want of memory.
    NoMemory,
}

impl From<AllocError> for IndexError {
    ghost from_gives = { λ _ e. e ≡ Refused };

    fn from(_: AllocError) -> IndexError {
        IndexError::NoMemory
    }
}

impl From<Outer> for IndexError {
    ghost use Rattle.tree_index.specs.Faults.{tree_fault};

    ghost from_gives = { λ outer e. e ≡ tree_fault outer };

    fn from(outer: Outer) -> IndexError {
        match outer {
            Outer::Fault => IndexError::TreeFault,
            Outer::NoMemory => IndexError::NoMemory,
        }
    }
}
