// How many bytes a variable file may have.

/// The most bytes of a file, of a joined line and of a variable's value.
#[derive(Clone, Copy)]
pub(crate) struct Limits {
    pub(crate) file: u32,
    pub(crate) line: u32,
    pub(crate) value: u32,
}

/// The limits of a port's description, of the options files and of make.conf.
pub(crate) const SMALL: Limits = Limits {
    file: 65_536,
    line: 8_192,
    value: 8_192,
};

/// The limits of the files that list categories and ports.
pub(crate) const LARGE: Limits = Limits {
    file: 1_048_576,
    line: 1_048_576,
    value: 1_048_576,
};
