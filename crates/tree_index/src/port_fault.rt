// What is wrong with a file of the ports tree, by the fault that its reader gives.
ghost use Rattle.std.specs.Prelude.{◌≡◌, ◌≢◌};
ghost use Rattle.tree_index.specs.Faults as faults;

use crate::fault::{IndexError, PortKind};
use bulk_base::Path;
use bulk_model::Which;
use option_set::OptionError;
use port_desc::DescError;
use port_vars::VarsError;
use std::alloc::Global;

/// A fault at a line of a file; 0 stands for the whole file. NoMemory where there is none for the path's text.
pub(crate) fn bad_port(alloc: Global, path: &Path, line: u32, kind: PortKind) -> IndexError
    ensures told { result ≢ IndexError.NoMemory → result ≡ IndexError.BadPort path.now line kind }
    ensures quiet { result ≢ IndexError.TreeFault }
{
    match path.text().copy(alloc) {
        Ok(path) => IndexError::BadPort { path, line, kind },
        Err(_) => IndexError::NoMemory,
    }
}

/// A fault of a variable file.
pub(crate) fn vars_fault(alloc: Global, path: &Path, fault: VarsError) -> IndexError
    ensures told { result ≢ IndexError.NoMemory → result ≡ faults.vars_fault path.now fault }
    ensures quiet { result ≢ IndexError.TreeFault }
{
    match fault {
        VarsError::BadLine { line, kind } => bad_port(alloc, path, line, PortKind::Line(kind)),
        VarsError::NoMemory => IndexError::NoMemory,
    }
}

/// A refusal of a port's options.
pub(crate) fn option_fault(alloc: Global, path: &Path, fault: OptionError) -> IndexError
    ensures told { result ≢ IndexError.NoMemory → result ≡ faults.option_fault path.now fault }
    ensures quiet { result ≢ IndexError.TreeFault }
{
    let kind = match fault {
        OptionError::Undefined { name } => PortKind::Undefined { name },
        OptionError::Group { group, on } => PortKind::Group { group, on },
        OptionError::Prevented { a, b } => PortKind::Prevented { a, b },
        OptionError::Limit { count } => {
            return IndexError::Limit {
                which: Which::Options,
                count,
            };
        }
        OptionError::NoMemory => return IndexError::NoMemory,
    };
    bad_port(alloc, path, 0, kind)
}

/// A refusal of a port's description.
pub(crate) fn desc_fault(alloc: Global, path: &Path, fault: DescError) -> IndexError
    ensures told { result ≢ IndexError.NoMemory → result ≡ faults.desc_fault path.now fault }
    ensures quiet { result ≢ IndexError.TreeFault }
{
    let kind = match fault {
        DescError::BadFlavor { flavor } => PortKind::BadFlavor { flavor },
        DescError::Missing { name } => PortKind::Missing { name },
        DescError::BadValue { name } => PortKind::BadValue { name },
        DescError::BadDepend { entry } => PortKind::BadDepend { entry },
        DescError::Target { entry } => PortKind::Target { entry },
        DescError::Limit { count } => {
            return IndexError::Limit {
                which: Which::Depends,
                count,
            };
        }
        DescError::NoMemory => return IndexError::NoMemory,
    };
    bad_port(alloc, path, 0, kind)
}
