//! The text of the summary's UUID, which identifies a package (Revision Number of the Windows Installer SDK, property
//! 9).

ghost use Rattle.std.specs.Prelude.{◌≡◌, OnOk, OnErr};
ghost use Rattle.std.specs.Option.{option_copied};
ghost use Rattle.msi_base.specs.Results.{OnlyMemory};
ghost use Rattle.msi_summary_properties.specs.Properties.{without_value};
ghost use Rattle.msi_summary.specs.Property.{uuid_id};
ghost use Rattle.msi_summary.specs.Summary.{text_with_id, with_text, without_braces};

use crate::property::UUID;
use crate::summary::SummaryInfo;
use msi_base::errors::Error;

/// Returns a text without the braces at its ends.
pub fn without_braces(text: &str) -> &str
    ensures { result.now ≡ without_braces text.now }
{
    text.trim_start_matches('{').trim_end_matches('}')
}

/// Returns the text of the UUID (property 9), or none if the property is missing or of another type.
pub fn uuid_text(summary: &SummaryInfo) -> Option<&str>
    ensures { option_copied result ≡ text_with_id uuid_id summary.now }
{
    summary.text(UUID)
}

/// Sets the text of the UUID (property 9). If it fails, the summary is as before.
///
/// # Errors
/// Fails with `OutOfMemory` if the text can't be stored.
pub fn set_uuid_text(summary: &mut SummaryInfo, text: &str) -> Result<(), Error>
    ensures ok { OnOk result (summary.new ≡ with_text uuid_id text.now summary.old) }
    ensures kind { OnlyMemory result }
    ensures err { OnErr result (summary.new ≡ summary.old) }
{
    summary.set_text(UUID, text)
}

impl SummaryInfo {
    /// Removes the UUID of the package (property 9), where it is there. It can't fail.
    pub fn clear_uuid(&mut self)
        ensures { self.new ≡ without_value uuid_id self.old }
    {
        self.clear(UUID);
    }
}
