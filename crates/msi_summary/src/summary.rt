//! The summary of a package: a property set of one format, by the names of its properties. The ids and types
//! are those of the Windows Installer SDK, "Summary Information Stream Property Set".

ghost use Rattle.std.specs.Prelude.{◌≡◌, ◌≢◌, ◌↔◌, IfOk, IfErr, IsTrue, OnOk, OnErr};
ghost use Rattle.std.specs.Option.{option_copied};
ghost use Rattle.msi_base.specs.Results.{OnlyMemory};
ghost use Rattle.msi_base.specs.declared.errors.ErrorKind.TheVariants.{InvalidData, OutOfMemory};
ghost use Rattle.msi_summary_properties.specs.Properties.{page_of, with_page, with_value, without_value};
ghost use Rattle.msi_summary_properties.specs.PropertyStream.{AreWritable, HaveUtf8Texts};
ghost use Rattle.msi_summary.specs.Summary.{cleared, is_set_empty, new_summary, summary_format};
ghost use Rattle.msi_summary.specs.Summary.{number_with_id, text_with_id, time_with_id};
ghost use Rattle.msi_summary.specs.Summary.{with_number, with_text, with_time};

pub(crate) mod identity;
mod keywords;
mod numbers;
mod template;
mod texts;
mod times;

use crate::property::SummaryProperty;
use crate::reasons;
use msi_base::codepage::CodePage;
use msi_base::errors::{Error, ErrorKind};
use msi_base::text::IntoText;
use msi_categories::timestamp::Timestamp;
use msi_summary_properties::parts::{allocator, put};
use msi_summary_properties::{OperatingSystem, PropertySet, PropertyText, PropertyValue};
use std::alloc::Global;
use std::marker::Model;

/// The format identifier that says that a property set is a summary (FMTID_SummaryInformation of MS-OLEPS).
const FORMAT: [u8; 16] = [
    0xE0, 0x85, 0x9F, 0xF2, 0xF9, 0x4F, 0x68, 0x10, 0xAB, 0x91, 0x08, 0x00, 0x2B, 0x27, 0xB3, 0xD9,
];

/// The summary of a package: a property set of the summary's format (MS-OLEPS 2.21), whose properties have
/// names. Contracts see the property set.
///
/// A getter returns nothing, or an empty list, if its property is missing or has another type. A setter that fails
/// leaves the summary as it was.
#[derive(Drop)]
pub struct SummaryInfo {
    properties: PropertySet,
}

impl Model for SummaryInfo {
    ghost use Rattle.std.specs.Prelude.{◌≡◌};
    ghost use Rattle.msi_summary_properties.specs.Properties.{Properties};
    ghost use Rattle.msi_summary.specs.Summary.{summary_format};

    ghost Value = { Properties };

    ghost view = { λ s. s.properties };

    ghost invariant = { λ s. s.properties.format_identifier ≡ summary_format };
}

impl SummaryInfo {
    /// Returns a summary that has only a title and the page UTF-8.
    pub(crate) fn new(alloc: Global, title: &str) -> Result<SummaryInfo, Error>
        ensures ok { IfOk result (λ summary. summary ≡ new_summary title.now) }
        ensures kind { OnlyMemory result }
    {
        let mut properties = PropertySet::new(alloc, OperatingSystem::Win32, 10, FORMAT);
        properties.set_codepage(CodePage::Utf8)?;
        let mut summary = SummaryInfo { properties };
        summary.set_title(title)?;
        Ok(summary)
    }

    pub(crate) fn from_properties(properties: PropertySet) -> Result<SummaryInfo, Error>
        ensures ok { IfOk result (λ summary. summary ≡ properties) }
        ensures allowed { OnOk result (properties.format_identifier ≡ summary_format) }
        ensures refused { OnErr result (properties.format_identifier ≢ summary_format) }
        ensures kind { IfErr result (λ kind. kind ≡ InvalidData) }
    {
        if *properties.format_identifier() != FORMAT {
            return Err(Error::new(ErrorKind::InvalidData, reasons::SUMMARY_FORMAT));
        }
        Ok(SummaryInfo { properties })
    }

    pub(crate) fn properties(&self) -> &PropertySet
        ensures set { result.now ≡ self.now }
        ensures format { self.now.format_identifier ≡ summary_format }
    {
        &self.properties
    }

    /// Returns the code page of the texts (MS-OLEPS 2.18.2): the one that property 1 names, and UTF-8 without it.
    pub fn codepage(&self) -> CodePage
        ensures { result ≡ page_of self.now }
    {
        self.properties.codepage()
    }

    /// Sets the code page of the texts (property 1, MS-OLEPS 2.18.2). The texts stay, also if the page can't encode
    /// them; the summary can't be written then. If it fails, the summary is as before.
    ///
    /// # Errors
    /// Fails with `OutOfMemory` if the property can't be stored.
    pub fn set_codepage(&mut self, page: CodePage) -> Result<(), Error>
        ensures ok { OnOk result (self.new ≡ with_page page self.old) }
        ensures page { OnOk result (page_of self.new ≡ page) }
        ensures kind { OnlyMemory result }
        ensures err { OnErr result (self.new ≡ self.old) }
    {
        self.properties.set_codepage(page)
    }

    /// Returns whether each text reads back as it was, once it is written in the summary's page. It takes no memory.
    pub fn is_writable(&self) -> bool
        ensures exact { IsTrue result ↔ AreWritable self.now }
        ensures utf8 { HaveUtf8Texts self.now.values }
    {
        self.properties.is_writable()
    }

    /// Clears a property: sets the keywords, the architecture or the languages to none, and removes any other, where it
    /// is there. Without the code page texts are in UTF-8. If it fails, the summary is as before.
    ///
    /// # Errors
    /// Fails with `OutOfMemory` if the text without keywords, architecture or languages can't be made or stored.
    pub fn clear_property(&mut self, property: SummaryProperty) -> Result<(), Error>
        ensures ok { OnOk result (self.new ≡ cleared property self.old) }
        ensures kind { IfErr result (λ kind. IsTrue (is_set_empty property) × (kind ≡ OutOfMemory)) }
        ensures err { OnErr result (self.new ≡ self.old) }
    {
        match property {
            SummaryProperty::Keywords => self.clear_keywords(),
            SummaryProperty::Arch => self.clear_arch(),
            SummaryProperty::Languages => self.clear_languages(),
            SummaryProperty::Codepage
            | SummaryProperty::Text(_)
            | SummaryProperty::Number(_)
            | SummaryProperty::Time(_)
            | SummaryProperty::Uuid => {
                self.clear(property.id());
                Ok(())
            }
        }
    }

    fn allocator(&self) -> Global {
        allocator(&self.properties)
    }

    fn text(&self, id: u32) -> Option<&str>
        ensures { option_copied result ≡ text_with_id id self.now }
    {
        match self.properties.get(id) {
            Some(PropertyValue::LpStr(text)) => Some(text.as_str()),
            _ => None,
        }
    }

    fn number(&self, id: u32) -> Option<i32>
        ensures { result ≡ number_with_id id self.now }
    {
        match self.properties.get(id) {
            Some(PropertyValue::I4(number)) => Some(*number),
            _ => None,
        }
    }

    fn time(&self, id: u32) -> Option<Timestamp>
        ensures { result ≡ time_with_id id self.now }
    {
        match self.properties.get(id) {
            Some(PropertyValue::FileTime(time)) => Some(*time),
            _ => None,
        }
    }

    /// Sets a property other than the page.
    fn put(&mut self, id: u32, value: PropertyValue) -> Result<(), Error>
        requires { id ≢ 1 }
        ensures ok { OnOk result (self.new ≡ with_value id value self.old) }
        ensures kind { OnlyMemory result }
        ensures err { OnErr result (self.new ≡ self.old) }
    {
        put(&mut self.properties, id, value)
    }

    fn set_text<S: IntoText>(&mut self, id: u32, text: S) -> Result<(), Error>
        requires { id ≢ 1 }
        ensures ok { OnOk result (self.new ≡ with_text id (S.text text) self.old) }
        ensures kind { OnlyMemory result }
        ensures err { OnErr result (self.new ≡ self.old) }
    {
        let text = text.into_text(self.allocator())?;
        self.put(id, PropertyValue::LpStr(PropertyText::from_text(text)))
    }

    fn set_number(&mut self, id: u32, number: i32) -> Result<(), Error>
        requires { id ≢ 1 }
        ensures ok { OnOk result (self.new ≡ with_number id number self.old) }
        ensures kind { OnlyMemory result }
        ensures err { OnErr result (self.new ≡ self.old) }
    {
        self.put(id, PropertyValue::I4(number))
    }

    fn set_time(&mut self, id: u32, time: Timestamp) -> Result<(), Error>
        requires { id ≢ 1 }
        ensures ok { OnOk result (self.new ≡ with_time id time self.old) }
        ensures kind { OnlyMemory result }
        ensures err { OnErr result (self.new ≡ self.old) }
    {
        self.put(id, PropertyValue::FileTime(time))
    }

    fn clear(&mut self, id: u32)
        ensures { self.new ≡ without_value id self.old }
    {
        self.properties.remove(id);
    }
}
