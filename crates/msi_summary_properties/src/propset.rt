//! Property sets (MS-OLEPS 2.20 and 2.21) as values: the properties by their ids, of which 1 names the code
//! page.

ghost use Rattle.std.specs.Prelude.{◌≡◌, IfErr, OnOk, OnErr, true, if◌then◌else◌};
ghost use Rattle.std.specs.Option.{option_copied};
ghost use Rattle.msi_base.specs.Results.{OnlyMemory};
ghost use Rattle.msi_base.specs.declared.errors.ErrorKind.TheVariants.{InvalidInput, OutOfMemory};
ghost use Rattle.msi_summary_properties.specs.Properties.{can_set, new_set, page_in, page_of, page_value, set_of};
ghost use Rattle.msi_summary_properties.specs.Properties.{value_with_id};
ghost use Rattle.msi_summary_properties.specs.Properties.{with_page, with_value, without_value};
ghost use Rattle.msi_summary_properties.specs.PropertyStream.{FitsValue};
ghost use Rattle.msi_summary_properties.specs.PropertyLaws.{IsKept};

use crate::reasons;
use crate::texts::PropertyText;
use msi_base::codepage::CodePage;
use msi_base::errors::{Error, ErrorKind};
use msi_categories::timestamp::Timestamp;
use std::alloc::Global;
use std::collections::BTreeMap;
use std::marker::Model;

/// The id of the property that names the page (MS-OLEPS 2.18.2).
const PAGE: u32 = 1;

/// The value of a property, of one of the seven types that installers use (MS-OLEPS 2.15). Reading a set refuses
/// every other type of the standard.
#[derive(PartialEq, Eq, Debug, Drop)]
pub enum PropertyValue {
    /// Nothing (type 0, VT_EMPTY).
    Empty,
    /// The null value (type 1, VT_NULL).
    Null,
    /// A number of one byte (type 16, VT_I1).
    I1(i8),
    /// A number of two bytes (type 2, VT_I2).
    I2(i16),
    /// A number of four bytes (type 3, VT_I4).
    I4(i32),
    /// A text (type 30, VT_LPSTR), which is encoded in the page of its set.
    LpStr(PropertyText),
    /// A time (type 64, VT_FILETIME), counted in steps of 100 nanoseconds since the year 1601.
    FileTime(Timestamp),
}

/// The system that a set was made on (MS-OLEPS 2.21, the high half of the system identifier).
#[derive(Clone, Copy, PartialEq, Eq, Debug)]
pub enum OperatingSystem {
    /// 16-bit Windows (0).
    Win16,
    /// Mac OS (1).
    Macintosh,
    /// 32-bit Windows (2).
    Win32,
}

/// A set of properties (MS-OLEPS 2.21): a system and its version, a class identifier, a format identifier, which says
/// what the properties mean, and values by their ids, of 32 bits. Contracts see these parts. The code page of the
/// texts follows from property 1, which is always an `I2` of a known page where it is there.
#[derive(Drop)]
pub struct PropertySet {
    alloc: Global,
    os: OperatingSystem,
    os_version: u16,
    clsid: [u8; 16],
    format_identifier: [u8; 16],
    values: BTreeMap<u32, PropertyValue>,
}

impl Model for PropertySet {
    ghost use Rattle.msi_summary_properties.specs.Properties.{Properties, set_of};
    ghost use Rattle.msi_summary_properties.specs.PropertyLaws.{IsKept};

    ghost Value = { Properties };

    ghost view = { λ s. set_of s.os s.os_version s.clsid s.format_identifier s.values.entries };

    ghost invariant = { λ s. IsKept (set_of s.os s.os_version s.clsid s.format_identifier s.values.entries) };
}

/// Returns the page that a value of property 1 names, read without sign.
pub(crate) fn page_named(value: &PropertyValue) -> Option<CodePage>
    ensures { result ≡ page_in (Some value.now) }
{
    match value {
        PropertyValue::I2(id) => CodePage::from_id(i32::from(id.cast_unsigned())),
        _ => None,
    }
}

fn page_value(page: CodePage) -> PropertyValue
    ensures { result ≡ page_value page }
{
    let id = page.id() as u16;
    PropertyValue::I2(id.cast_signed())
}

fn can_set(id: u32, value: &PropertyValue) -> bool
    ensures { result ≡ can_set id value.now }
{
    id != PAGE || page_named(value).is_some()
}

/// Reads the value's number, since only a number that is read is known to fit its type, and does nothing else.
fn read_number(value: &PropertyValue)
    ensures { FitsValue value.now }
{
    match value {
        PropertyValue::I1(number) => {
            let _number = *number;
        }
        PropertyValue::I2(number) => {
            let _number = *number;
        }
        PropertyValue::I4(number) => {
            let _number = *number;
        }
        PropertyValue::FileTime(time) => {
            let _ticks = time.ticks();
        }
        PropertyValue::Empty | PropertyValue::Null | PropertyValue::LpStr(_) => {}
    }
}

impl PropertySet {
    /// Returns a set of a format without any property, with a class identifier of zeros. Its page is UTF-8, as no
    /// property says another. It takes no memory.
    pub fn new(
        alloc: Global,
        os: OperatingSystem,
        os_version: u16,
        format_identifier: [u8; 16],
    ) -> PropertySet
        ensures { result ≡ new_set os os_version format_identifier }
    {
        PropertySet {
            alloc,
            os,
            os_version,
            clsid: [0; 16],
            format_identifier,
            values: BTreeMap::new(alloc),
        }
    }

    pub(crate) fn from_parts(
        alloc: Global,
        os: OperatingSystem,
        os_version: u16,
        clsid: [u8; 16],
        format_identifier: [u8; 16],
        values: BTreeMap<u32, PropertyValue>,
    ) -> PropertySet
        requires { IsKept (set_of os os_version clsid format_identifier values.entries) }
        ensures { result ≡ set_of os os_version clsid format_identifier values.entries }
    {
        PropertySet {
            alloc,
            os,
            os_version,
            clsid,
            format_identifier,
            values,
        }
    }

    pub(crate) fn allocator(&self) -> Global {
        self.alloc
    }

    pub(crate) fn os(&self) -> OperatingSystem
        ensures { result ≡ self.now.os }
    {
        self.os
    }

    pub(crate) fn os_version(&self) -> u16
        ensures { result ≡ self.now.os_version }
    {
        self.os_version
    }

    pub(crate) fn clsid(&self) -> &[u8; 16]
        ensures { result.now ≡ self.now.clsid }
    {
        &self.clsid
    }

    pub(crate) fn values(&self) -> &BTreeMap<u32, PropertyValue>
        ensures values { result.now.entries ≡ self.now.values }
        ensures kept { IsKept self.now }
    {
        &self.values
    }

    /// Returns the format identifier: which format says what the properties mean (MS-OLEPS 2.21, FMTID0), as the 16
    /// bytes of the stream.
    pub fn format_identifier(&self) -> &[u8; 16]
        ensures { result.now ≡ self.now.format_identifier }
    {
        &self.format_identifier
    }

    /// Returns the code page of the texts (MS-OLEPS 2.18.2): the one that property 1 names, and UTF-8 without it.
    pub fn codepage(&self) -> CodePage
        ensures { result ≡ page_of self.now }
    {
        match self.get(PAGE) {
            Some(value) => page_named(value).unwrap_or(CodePage::Utf8),
            None => CodePage::Utf8,
        }
    }

    /// Sets the code page of the texts (MS-OLEPS 2.18.2): property 1 becomes an `I2` whose 16 bits are the page's id.
    /// The texts stay, also if the page can't encode them; `write` fails then. If it fails, the set is as before.
    ///
    /// # Errors
    /// Fails with `OutOfMemory` if the property can't be stored.
    pub fn set_codepage(&mut self, page: CodePage) -> Result<(), Error>
        ensures ok { OnOk result (self.new ≡ with_page page self.old) }
        ensures page { OnOk result (page_of self.new ≡ page) }
        ensures kind { OnlyMemory result }
        ensures err { OnErr result (self.new ≡ self.old) }
    {
        self.put(PAGE, page_value(page))
    }

    /// Returns the value of the property with this id, where there is one.
    pub fn get(&self, id: u32) -> Option<&PropertyValue>
        ensures { option_copied result ≡ value_with_id id self.now.values }
    {
        self.values.get(&id)
    }

    /// Sets the property with this id, in place of the value that it had. If it fails, the set is as before.
    ///
    /// # Errors
    /// Fails with `InvalidInput` if property 1, the page, is to be something else than an `I2` whose 16 bits, read
    /// without sign, are the id of a known page (MS-OLEPS 2.18.2). Otherwise it fails with `OutOfMemory` if the
    /// property can't be stored.
    pub fn set(&mut self, id: u32, value: PropertyValue) -> Result<(), Error>
        ensures ok { OnOk result (self.new ≡ with_value id value self.old) }
        ensures allowed { OnOk result (can_set id value ≡ true) }
        ensures kind { IfErr result (λ kind. kind ≡ (if can_set id value then OutOfMemory else InvalidInput)) }
        ensures err { OnErr result (self.new ≡ self.old) }
    {
        if !can_set(id, &value) {
            return Err(Error::new(ErrorKind::InvalidInput, reasons::PROPERTY_PAGE));
        }
        self.put(id, value)
    }

    /// Sets a property to a value that it may have. If it fails, the set is as before.
    pub(crate) fn put(&mut self, id: u32, value: PropertyValue) -> Result<(), Error>
        requires { can_set id value ≡ true }
        ensures ok { OnOk result (self.new ≡ with_value id value self.old) }
        ensures kind { OnlyMemory result }
        ensures err { OnErr result (self.new ≡ self.old) }
    {
        read_number(&value);
        self.values.insert(id, value)?;
        Ok(())
    }

    /// Removes the property with this id, where there is one. Without property 1 the page is UTF-8. It can't fail.
    pub fn remove(&mut self, id: u32)
        ensures { self.new ≡ without_value id self.old }
    {
        self.values.remove(&id);
    }
}
