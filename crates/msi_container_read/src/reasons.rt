//! Why bytes hold no container.

use msi_base::Reason;

pub(crate) const NO_ROOT: Reason = Reason("the first directory entry is not the root");

pub(crate) const NAME_TWICE: Reason = Reason("two directory entries have one name");
