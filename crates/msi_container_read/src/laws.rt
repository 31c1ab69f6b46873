//! What follows from the definitions of what is held at a path, and of all storages: each law is the contract of a
//! function without a body.

ghost use Rattle.msi_container_read.specs.Storages.{OneContentsAt, EmptyPathIsRoot, HeldIsNotMissing};
ghost use Rattle.msi_container_read.specs.Storages.{FoundStoragesAreNamed};
ghost use Rattle.msi_container_read.specs.StorageLists.{OneStorageList, NumberedAreReached};

/// Bytes hold at most one contents at a path of names.
pub fn one_contents_at()
    ensures { OneContentsAt }
{}

/// What bytes hold at the empty path is what they hold.
pub fn empty_path_is_root()
    ensures { EmptyPathIsRoot }
{}

/// Where contents are held at a path, none of its names is missing.
pub fn held_is_not_missing()
    ensures { HeldIsNotMissing }
{}

/// The storage of a name is one of the entries, is a storage, and has this name.
pub fn found_storages_are_named()
    ensures { FoundStoragesAreNamed }
{}

/// Bytes have at most one list of storages.
pub fn one_storage_list()
    ensures { OneStorageList }
{}

/// The storages of a list, with the root, are those that a path of names leads to from the root.
pub fn numbered_are_reached()
    ensures { NumberedAreReached }
{}
