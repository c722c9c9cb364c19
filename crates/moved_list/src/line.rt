// What a line of MOVED says.
use bulk_base::{Sequence, Text};

/// A port or a flavor of one that moved or was removed (Porter's Handbook, "MOVED").
#[derive(Debug, Drop)]
pub struct MovedLine {
    /// The old name: an origin, or an origin and a flavor with `@` between.
    pub from: Text,
    /// The new name, in the same form; None where the port was removed.
    pub to: Option<Text>,
    /// The date, in whatever form.
    pub date: Text,
    /// The reason.
    pub reason: Text,
}

/// A list of such lines.
pub type MovedLines = Sequence<MovedLine>;
