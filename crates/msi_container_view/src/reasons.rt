//! Why a directory isn't looked at.

use msi_base::Reason;

pub(crate) const NAME_TWICE: Reason = Reason("two directory entries have one name");
