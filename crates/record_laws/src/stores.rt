// What holds of the packages of a store, and what a change of the store changes.
ghost use Rattle.record_laws.specs.Stores.{PackagesAreThere, PackagesHaveNames, PutsArePackages, RemovalsLeaveOthers};
ghost use Rattle.record_laws.specs.Stores.{OtherPutsLeaveAll, OtherRemovalsLeaveAll};

/// Just the packages that are read of the files named after them are those of a store, and no two have one name
/// (docs/FORMATS.md, "The store").
pub fn packages_are_there()
    ensures there { PackagesAreThere }
    ensures names { PackagesHaveNames }
{}

/// A package's record, put under its own file name, adds this package in place of one of its name.
pub fn puts_are_packages()
    ensures { PutsArePackages }
{}

/// The removal of a package's file takes away the package of this name and no other.
pub fn removals_leave_others()
    ensures { RemovalsLeaveOthers }
{}

/// A change under a name that is no package file's leaves the packages of a store.
pub fn other_changes_leave_all()
    ensures puts { OtherPutsLeaveAll }
    ensures removals { OtherRemovalsLeaveAll }
{}
