//! What the crates above need beyond the surface.

ghost use Rattle.std.specs.Prelude.{◌≡◌, ◌⊎◌, ◌↔◌, Some, IsTrue, IfOk, IfErr, IsErrOf};
ghost use Rattle.msi_base.specs.Results.{Gives, OnlyMemory};
ghost use Rattle.msi_base.specs.declared.errors.ErrorKind.TheVariants.{InvalidData, InvalidInput, OutOfMemory};
ghost use Rattle.msi_summary_properties.specs.Properties.{Properties};
ghost use Rattle.msi_summary_properties.specs.PropertyLaws.{IsKept};
ghost use Rattle.msi_summary_properties.specs.PropertyStream.{property_stream, AreWritable};
ghost use Rattle.msi_summary_properties.specs.PropertyWriting.{is_refused};
ghost use Rattle.msi_summary.specs.Summary.{new_summary, summary_format, SpellsSummary};

use crate::summary::SummaryInfo;
pub use crate::summary::identity::{set_uuid_text, uuid_text, without_braces};
use msi_base::errors::Error;
use msi_summary_properties::PropertySet;
use msi_summary_properties::parts::stream_of;
use std::alloc::Global;

/// Returns a new summary: a title, and nothing else but the page, UTF-8.
///
/// # Errors
/// Fails with `OutOfMemory` if the properties can't be stored.
pub fn new_summary(alloc: Global, title: &str) -> Result<SummaryInfo, Error>
    ensures ok { IfOk result (λ summary. summary ≡ new_summary title.now) }
    ensures kind { OnlyMemory result }
{
    SummaryInfo::new(alloc, title)
}

/// Returns the summary that the bytes of a stream encode: a property set (MS-OLEPS 2.21) of the summary's format.
///
/// # Errors
/// Fails with `InvalidData` if the bytes encode no property set, or one of another format. Otherwise it fails with
/// `OutOfMemory` if the properties can't be stored.
pub fn summary_of(alloc: Global, bytes: &[u8]) -> Result<SummaryInfo, Error>
    // What is read is spelled.
    ensures found { IfOk result (λ summary. SpellsSummary bytes.now summary) }
    // What is spelled is read, and nothing else, unless memory runs out.
    ensures only { (set : Properties) → SpellsSummary bytes.now set → Gives (λ s. s) result (Some set) }
    ensures kinds { IfErr result (λ kind. (kind ≡ InvalidData) ⊎ (kind ≡ OutOfMemory)) }
{
    SummaryInfo::from_properties(PropertySet::read(alloc, bytes)?)
}

/// Returns the bytes of a summary's stream: the plain encoding of its property set (MS-OLEPS 2.21), as
/// `PropertySet::write` writes it.
///
/// # Errors
/// Fails with `InvalidInput` if the page can't encode a text, or the section would have 2^32 bytes or more. Otherwise
/// it fails with `OutOfMemory` if there is no memory for the bytes.
pub fn summary_bytes(summary: &SummaryInfo) -> Result<Vec<u8>, Error>
    ensures ok { IfOk result (λ bytes. property_stream summary.now ≡ Some bytes.items) }
    // Where the page carries each text there and back, the bytes spell the summary, so reading gives it.
    ensures spelled { IfOk result (λ bytes. AreWritable summary.now → SpellsSummary bytes.items summary.now) }
    ensures refused { IsErrOf result InvalidInput ↔ IsTrue (is_refused summary.now) }
    // Every summary, whatever was set or removed, has the summary's format and is kept as it can be read again.
    ensures kept { IsKept summary.now }
    ensures format { summary.now.format_identifier ≡ summary_format }
    ensures kinds { IfErr result (λ kind. (kind ≡ InvalidInput) ⊎ (kind ≡ OutOfMemory)) }
{
    stream_of(summary.properties())
}
