//! Names of ports: origins, flavors, nodes and packages, with the first part that is outside its form, and sets of names.
#![tactic(auto)]

mod fault;
mod form;
mod names;
mod package;
mod package_form;
mod place;
mod word;

pub use fault::{NameError, NamePart};
pub use form::{is_flavor, is_option_name, is_port_name};
pub use names::Names;
pub use package::{NameParts, pkgname};
pub use package_form::is_package_name;
pub use place::Origin;
pub use word::{flavor, is_node, is_origin, origin};
