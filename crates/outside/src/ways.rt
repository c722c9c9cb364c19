// What running a command does, where it is told.
ghost use Rattle.std.specs.Prelude.{List, ℕ, Bool, true, false};
ghost use Rattle.outside.specs.Contents.{Contents};

/// What running a command in a room does, as a property of the room's type; used by contracts alone.
///
/// A type either tells a definition, `runs`, from a command's words and a folder to the command's status and the
/// folder after it, or it tells nothing. The types that implement it are never made.
pub trait Ways {
    /// Whether `runs` is what the rooms of this type do.
    ghost tells: { Bool };

    /// The status and the folder after a command, from its words and the folder before it.
    ghost runs: { List (List ℕ) → Contents → ℕ × Contents };
}

/// The ways of rooms that tell nothing, as those on a disk.
pub struct Untold;

impl Ways for Untold {
    ghost tells = { false };

    ghost runs = { λ _ folder. (0, folder) };
}
