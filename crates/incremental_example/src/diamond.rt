// Two runs over the store of a diamond of ports.
ghost use Rattle.incremental_example.specs.Diamond.{DiamondMeetsPremises};

/// A first run over an empty store builds a diamond of ports and ends. Then an option of one port is
/// changed: a second run keeps what the option does not concern, deletes the rest, and is stopped
/// behind the first of its two puts. These runs meet all that the laws of incremental runs ask for,
/// where no two of the five recipes share a digest.
pub fn diamond_meets_premises()
    ensures { DiamondMeetsPremises }
{}
