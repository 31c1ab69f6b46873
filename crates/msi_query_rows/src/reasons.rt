//! Why a query for rows is refused: a sentence for each rule.

use msi_base::errors::Reason;

pub(crate) const JOIN_COLUMN: Reason = Reason(
    "the condition of a join names a column that isn't there",
);

pub(crate) const REPEATED_TABLE: Reason = Reason(
    "two tables of a query go by one name: name one of them otherwise, as FROM A, A Other",
);

pub(crate) const KEPT_COLUMN: Reason = Reason("a column that is to be kept isn't there");

pub(crate) const CONDITION_COLUMN: Reason = Reason("a condition names a column that isn't there");

pub(crate) const ORDER_COLUMN: Reason = Reason("the order names a column that isn't there");
