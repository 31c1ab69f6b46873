//! Why a call is refused: a sentence for each rule.

use msi_base::errors::Reason;

pub const STORAGES: Reason = Reason("the package has storages below its root, and is only read");

pub const NO_STREAM: Reason = Reason("there is no stream of this name");

pub const NO_KIND: Reason = Reason("the root's CLSID is that of no package");

pub const NO_SUMMARY: Reason = Reason("the summary's stream is missing");

pub const NO_POOL: Reason = Reason("a stream of the string pool is missing");

pub(crate) const OLD_NO_INSTALLER: Reason = Reason("the old package is no installer package");

pub(crate) const NEW_NO_INSTALLER: Reason = Reason("the new package is no installer package");
