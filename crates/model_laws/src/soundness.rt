// Closed and sound packages.
ghost use Rattle.model_laws.specs.Soundness.{
  ClosedPartIsGreatest,
  FewerStaySound,
  MembersStay,
  MembersAreInOrder,
  RoundsInstallAll,
  SoundIsByRounds,
};

/// What rounds leave of members is their greatest closed part.
pub fn closed_part_is_greatest()
    ensures { ClosedPartIsGreatest }
{}

/// Fewer members than sound ones are sound.
pub fn fewer_stay_sound()
    ensures { FewerStaySound }
{}

/// To put members in order keeps just them, where a name tells the package.
pub fn members_stay()
    ensures { MembersStay }
{}

/// Members are put in order, each once.
pub fn members_are_in_order()
    ensures { MembersAreInOrder }
{}

/// Rounds over members in order give just what is installed for a package.
pub fn rounds_install_all()
    ensures { RoundsInstallAll }
{}

/// Members of distinct names are sound just where they are sound by rounds.
pub fn sound_is_by_rounds()
    ensures { SoundIsByRounds }
{}
