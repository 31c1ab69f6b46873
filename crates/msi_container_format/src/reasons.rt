//! Why a text is no name.

use msi_base::Reason;

pub(crate) const NAME_LENGTH: Reason = Reason("a name is empty or has more than 31 UTF-16 units");
