//! Why a file is read as no transform, or none is written: a sentence for each rule.

use msi_base::errors::Reason;

pub(crate) const NO_TRANSFORM: Reason = Reason("the root's CLSID is not that of a transform");

pub(crate) const NO_POOL: Reason = Reason("a stream of the transform's string pool is missing");

pub(crate) const TEXTS_NOT_UTF8: Reason = Reason("a text of the transform isn't in UTF-8");

pub(crate) const TABLE_NAME: Reason = Reason("no table may have this name");
