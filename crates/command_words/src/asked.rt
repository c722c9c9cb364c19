// What a command line asks for, and the usage lines.
ghost use Rattle.std.specs.Prelude.{◌≡◌};
ghost use Rattle.command_words.specs.Usage.{usage_of};

use bulk_base::{Text, Texts};

/// The commands that have a usage line of their own. `sample` has that of `bulk`, as has a word that is no command.
#[derive(Clone, Copy, Debug, PartialEq, Eq)]
pub enum CommandName {
    /// `bulk`
    Bulk,
    /// `pkgclean`
    PkgClean,
    /// `testport`
    TestPort,
    /// `distclean`
    DistClean,
    /// `publish`
    Publish,
}

/// Which packages of the store are to be built anew, whatever they are (poudriere-bulk(8), "-c" and "-C").
#[derive(Clone, Copy, Debug, PartialEq, Eq)]
pub enum Clean {
    /// None: neither `-c` nor `-C`.
    Nothing,
    /// Those of the ports that are named: `-C` without `-c`.
    Wanted,
    /// All: `-c`, also beside `-C`.
    All,
}

/// The ports that a command names: all alone, or else a list file, origins or both.
#[derive(Debug, Drop)]
pub struct PortWords {
    /// Whether all ports are: `-a`.
    pub all: bool,
    /// The path of a list file, as written: `-f`. It may be empty and need not be a path in form.
    pub list: Option<Text>,
    /// The words for ports, in their order. None of them need be an origin in form.
    pub origins: Texts,
}

/// The words of `bulk`.
#[derive(Debug, Drop)]
pub struct BulkWords {
    /// The ports.
    pub ports: PortWords,
    /// The packages to be built anew.
    pub clean: Clean,
    /// Whether nothing is to be changed: `-n`.
    pub dry_run: bool,
    /// Whether ports that are marked as broken are to be tried: `-T`.
    pub try_broken: bool,
    /// The number of builders: `-J`. It may be 0.
    pub builders: Option<u64>,
}

/// The words of `pkgclean`.
#[derive(Debug, Drop)]
pub struct PkgCleanWords {
    /// The ports.
    pub ports: PortWords,
    /// Whether nothing is to be changed: `-n`.
    pub dry_run: bool,
}

/// What a command line asks for.
#[derive(Debug, Drop)]
pub enum Asked {
    /// `bulk`: to build ports.
    Bulk(BulkWords),
    /// `pkgclean`: to remove the packages that the named ports do not need.
    PkgClean(PkgCleanWords),
    /// `sample`: to build a tree that is made from a number.
    Sample {
        /// The number.
        number: u64,
    },
    /// `testport`: to build one port and compare what it stages with its list.
    TestPort {
        /// The word for the port, as written.
        word: Text,
    },
    /// `distclean`: to remove the distribution files that no port names.
    DistClean {
        /// Whether nothing is to be changed: `-n`.
        dry_run: bool,
    },
    /// `publish`: to publish the store.
    Publish,
    /// The words are no command: a usage line is to be printed.
    Usage {
        /// Whose.
        command: CommandName,
    },
}

/// The usage line of a command, without a line feed behind it (docs/FORMATS.md, "The words of a command"). Takes no memory.
pub fn usage_line(command: CommandName) -> &'static str
    ensures { result.now ≡ usage_of command }
{
    match command {
        CommandName::Bulk => "usage: poudriere bulk [-acCnT] [-f path] [-J n] [origin ...]",
        CommandName::PkgClean => "usage: poudriere pkgclean [-an] [-f path] [origin ...]",
        CommandName::TestPort => "usage: poudriere testport origin",
        CommandName::DistClean => "usage: poudriere distclean [-n]",
        CommandName::Publish => "usage: poudriere publish",
    }
}
