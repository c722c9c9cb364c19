// Paths below a folder, and without it.
ghost use Rattle.path_laws.specs.Laws.{RestsAreLists, JoinedCollideAlike};

/// What is listed below a folder is a list of paths with the folder taken off too: in byte order,
/// none a folder of another.
pub fn rests_are_lists()
    ensures { RestsAreLists }
{}

/// Two paths collide below a folder exactly where they collide by themselves.
pub fn joined_collide_alike()
    ensures { JoinedCollideAlike }
{}
