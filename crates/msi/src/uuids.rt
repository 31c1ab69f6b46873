//! UUIDs (RFC 9562) as values of tables, and the one that identifies a package.

ghost use Rattle.std.specs.Prelude.{◌≡◌, IfOk, OnErr, OnOk};
ghost use Rattle.msi_base.specs.Results.{OnlyMemory};
ghost use Rattle.msi_categories.specs.Spellings.{braced_uuid_text};
ghost use Rattle.msi_summary.specs.Summary.{uuid_of, with_uuid};
ghost use Rattle.msi_table_values.specs.declared.value.Value.TheVariants.{Str};
ghost use Rattle.uuid.specs.Text.{parsed};

use msi_base::errors::Error;
use msi_categories::parts::braced_uuid;
use msi_summary::SummaryInfo;
use msi_summary::parts::{set_uuid_text, uuid_text, without_braces};
use msi_table_values::value::Value;
use std::alloc::Global;
use uuid::Uuid;

/// What is made of a UUID.
pub trait FromUuid: Sized {
    /// Returns what a UUID is made into.
    ///
    /// # Errors
    /// Fails with `OutOfMemory`.
    fn from_uuid(alloc: Global, uuid: Uuid) -> Result<Self, Error>;
}

impl FromUuid for Value {
    /// Returns a UUID in braces and upper case (RFC 9562, section 4), as a text: a value for columns of the category
    /// `Guid`.
    fn from_uuid(alloc: Global, uuid: Uuid) -> Result<Value, Error>
        ensures ok { IfOk result (λ value. value ≡ Str (braced_uuid_text uuid)) }
        ensures kind { OnlyMemory result }
    {
        Ok(Value::Str(braced_uuid(alloc, uuid)?))
    }
}

/// What has the UUID of a package.
pub trait HasUuid {
    /// Returns the UUID of the package, if it is there.
    fn uuid(&self) -> Option<Uuid>;

    /// Sets the UUID of the package.
    ///
    /// # Errors
    /// Fails with `OutOfMemory`.
    fn set_uuid(&mut self, uuid: Uuid) -> Result<(), Error>;
}

fn uuid_in(text: &str) -> Option<Uuid>
    ensures { result ≡ parsed text.now }
{
    Uuid::parse_str(text).ok()
}

impl HasUuid for SummaryInfo {
    /// Returns the UUID of the package (property 9), read from its text without the braces at its ends, in any form
    /// of a UUID's text. It is none if the property is missing or of another type, or if the text is in no form of a
    /// UUID.
    fn uuid(&self) -> Option<Uuid>
        ensures { result ≡ uuid_of self.now }
    {
        let text = uuid_text(self)?;
        uuid_in(without_braces(text))
    }

    /// Sets the UUID of the package (property 9), as a text in braces and in upper case. If it fails, the summary is as
    /// before.
    fn set_uuid(&mut self, uuid: Uuid) -> Result<(), Error>
        ensures ok { OnOk result (self.new ≡ with_uuid uuid self.old) }
        ensures kind { OnlyMemory result }
        ensures err { OnErr result (self.new ≡ self.old) }
    {
        let mut buffer = Uuid::encode_buffer();
        set_uuid_text(self, uuid.braced().encode_upper(&mut buffer))
    }
}
