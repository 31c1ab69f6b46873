//! Why property sets are refused: a sentence for each rule.

use msi_base::errors::Reason;

pub(crate) const PROPERTY_CUT: Reason = Reason("a property set ends in the middle of a field");

pub(crate) const PROPERTY_MARK: Reason = Reason("the mark in front of a property set is wrong");

pub(crate) const PROPERTY_VERSION: Reason = Reason(
    "the version of a property set is neither 0 nor 1",
);

pub(crate) const PROPERTY_SYSTEM: Reason = Reason("the system of a property set is not known");

pub(crate) const PROPERTY_SECTIONS: Reason = Reason(
    "the number behind a property set's class is 0",
);

pub(crate) const PROPERTY_TYPE: Reason = Reason(
    "the type of a property is not known in its version",
);

pub(crate) const PROPERTY_TEXT: Reason = Reason("the text of a property does not end in a null");

pub(crate) const PROPERTY_PAGE: Reason = Reason(
    "the property of the code page names none that is known",
);

pub(crate) const PROPERTY_TWICE: Reason = Reason("a property is listed twice");

pub(crate) const SECTION_LONG: Reason = Reason(
    "the section of a property set is too long to be written",
);

pub(crate) const WRITER_ENDED: Reason = Reason("the writer takes no more bytes");
