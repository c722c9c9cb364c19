//! Settings of the builder: poudriere.conf with its patterns of names, make.conf, and the layers of options that make.conf and
//! an options file ask for.
#![tactic(auto)]

mod conf_reader;
mod fault;
mod make;
mod pattern;
mod setting;
mod statement;

pub use conf_reader::{Conf, read_conf};
pub use fault::{ConfError, ConfKind};
pub use make::{MakeConf, read_make};
pub use pattern::matches;
