// What the removal of files changes.
ghost use Rattle.pkg_store.specs.Changing.{EachIsRemoved};

/// Where names are in byte order and all of them are there, the removal of all, one after another, changes each, and the
/// journal tells them in this order. A function that does nothing.
pub fn each_is_removed()
    ensures { EachIsRemoved }
{}
