//! The code page of a transform, beside that of the package to which it is applied.

ghost use Rattle.std.specs.Prelude.{◌≡◌};
ghost use Rattle.msi_base.specs.Refusals.{unless_refused};
ghost use Rattle.msi_transform_rows.specs.RecordRefusals.{nowhere as at_no_record};
ghost use Rattle.msi_transform_schema.specs.SchemaApplying.{is_other_page as differs, page_refusals};

use crate::reasons;
use msi_base::errors::{Error, ErrorKind};
use msi_transform::{ErrorConditions, Transform};
use msi_transform_rows::Refusal;

fn is_other_page(page_id: u32, other: u32) -> bool
    ensures { result ≡ differs page_id other }
{
    page_id != 0 && other != 0 && page_id != other
}

/// Refuses a transform whose page isn't that of the package, where neither is neutral, unless that passes.
///
/// # Errors
/// Fails with `InvalidInput`.
pub fn check_page(
    page_id: u32,
    transform: &Transform,
    passing: ErrorConditions,
) -> Result<(), Refusal>
    ensures { result ≡ at_no_record (unless_refused (page_refusals page_id transform.now passing) tt) }
{
    if is_other_page(page_id, transform.page_id()) && !passing.other_page {
        let error = Error::new(ErrorKind::InvalidInput, reasons::OTHER_PAGE);
        return Err(Refusal::nowhere(error));
    }
    Ok(())
}
