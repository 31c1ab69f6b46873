//! Why bytes hold no container, or not the storage that is asked for: a sentence for each rule of MS-CFB.

use msi_base::Reason;

pub(crate) const ENTRY_KIND: Reason = Reason("a directory entry is neither a storage nor a stream");

pub(crate) const NO_ROOT: Reason = Reason("the first directory entry is not the root");

pub(crate) const NO_STORAGE: Reason = Reason("there is no storage of this name");

pub(crate) const NAME_LENGTH: Reason = Reason("a name is odd, empty or too long");

pub(crate) const NAME_TEXT: Reason = Reason("a name is not well-formed UTF-16");

pub(crate) const NAME_TWICE: Reason = Reason("two directory entries have one name");

pub(crate) const SIGNATURE: Reason = Reason("the signature is not that of a compound file");

pub(crate) const VERSION: Reason = Reason("the major version is not one that is read");

pub(crate) const BYTE_ORDER: Reason = Reason("the byte order mark is wrong");

pub(crate) const SECTOR_SHIFT: Reason = Reason("the sector size does not fit the version");

pub(crate) const MINI_SECTOR_SHIFT: Reason = Reason("the mini sector size is not 64");

pub(crate) const MINI_STREAM_CUTOFF: Reason = Reason("the mini stream cutoff is not 4096");

pub(crate) const SECTOR_OUTSIDE_FILE: Reason = Reason("a sector starts past the end of the file");

pub(crate) const SECTOR_USED_TWICE: Reason = Reason("a sector is used twice");

pub(crate) const MINI_SECTOR_OUTSIDE_STREAM: Reason = Reason(
    "a mini sector lies outside the mini stream",
);

pub(crate) const MINI_SECTOR_USED_TWICE: Reason = Reason("a mini sector is used twice");

pub(crate) const SECTOR_WITHOUT_SUCCESSOR: Reason = Reason(
    "a sector has no entry in its allocation table",
);

pub(crate) const EMPTY_CHAIN: Reason = Reason("a chain that needs a sector has none");

pub(crate) const ENTRY_OUTSIDE_DIRECTORY: Reason = Reason(
    "a link leads past the end of the directory",
);

pub(crate) const ENTRY_REACHED_TWICE: Reason = Reason("a directory entry is reached twice");
