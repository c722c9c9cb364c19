// poudriere.conf.
ghost use Rattle.std.specs.Prelude.{◌≡◌, ◌≢◌, Ok, Err, IfOk, IfErr};
ghost use Rattle.conf_file.specs.Lines.{said, mapped};
ghost use Rattle.conf_file.specs.Conf.{conf_of, with_line, LeavesAt};

use crate::fault::{ConfError, ConfKind, LineError};
use crate::setting::take_line;
use bulk_base::{Text, lines, numbered_line};
use port_vars::LineKind;
use std::alloc::Global;

/// The most bytes of the file.
const FILE_BYTES: usize = 65_536;

/// What poudriere.conf says.
#[derive(Debug, Drop)]
pub struct Conf {
    /// How many builders are wanted: PARALLEL_JOBS; None where it is not set.
    pub jobs: Option<u64>,
    /// Whether a listed port means all its flavors: FLAVOR_DEFAULT_ALL is `yes`.
    pub flavor_all: bool,
    /// The patterns of packages that are to be built early: PRIORITY_BOOST; empty where it is not set.
    pub boost: Text,
}

/// Takes what a line says; a fault is at the line's number.
fn take_numbered(alloc: Global, conf: &mut Conf, number: u32, line: &[u8]) -> Result<(), ConfError>
    ensures { LeavesAt number (mapped (with_line conf.old) (said line.now)) result conf.new }
{
    match take_line(alloc, conf, line) {
        Ok(()) => Ok(()),
        Err(LineError::Bad(kind)) => Err(ConfError::BadLine { line: number, kind }),
        Err(LineError::NoMemory) => Err(ConfError::NoMemory),
    }
}

/// Reads poudriere.conf: lines `NAME=VALUE`, of which the last of a name counts (the comments of poudriere.conf;
/// docs/FORMATS.md, "poudriere.conf").
///
/// BadLine exactly where the file has too many bytes, with 0 and TooLong, or where a line is outside the form, with the
/// number of the first such line and what is wrong with it first. Each line is judged by itself: a value that its name may
/// not have is refused also where a later line sets the name anew. NoMemory for want of memory alone.
///
/// Each byte is looked at a fixed number of times, and one value is held besides the answer.
pub fn read_conf(alloc: Global, bytes: &[u8]) -> Result<Conf, ConfError>
    ensures ok { IfOk result (λ conf. conf_of bytes.now ≡ Ok conf) }
    ensures bad_line { IfErr result (λ e. e ≢ ConfError.NoMemory → conf_of bytes.now ≡ Err e) }
{
    if bytes.len() > FILE_BYTES {
        return Err(ConfError::BadLine {
            line: 0,
            kind: ConfKind::Line(LineKind::TooLong),
        });
    }
    let spans = lines(alloc, bytes)?;
    let mut conf = Conf {
        jobs: None,
        flavor_all: false,
        boost: Text::literal(alloc, b"")?,
    };
    for at in 0..spans.len() {
        let line = numbered_line(bytes, &spans, at);
        take_numbered(alloc, &mut conf, line.number, line.text)?;
    }
    Ok(conf)
}
