//! Why contents make no file.

use msi_base::Reason;

pub(crate) const STORAGES: Reason = Reason("storages lie below the root");

pub(crate) const IMAGE_TOO_LARGE: Reason = Reason("the file would pass 2^31 bytes");
