//! The summary's numbers: properties that are an `I4` (MS-OLEPS 2.15). Their names are those of the Windows
//! Installer SDK.

ghost use Rattle.std.specs.Prelude.{◌≡◌, OnOk, OnErr};
ghost use Rattle.msi_base.specs.Results.{OnlyMemory};
ghost use Rattle.msi_summary_properties.specs.Properties.{without_value};
ghost use Rattle.msi_summary.specs.Property.{number_id};
ghost use Rattle.msi_summary.specs.Summary.{number_with_id, with_number};
ghost use Rattle.msi_summary.specs.declared.property.NumberProperty.TheVariants.{PageCount, WordCount, CharacterCount};
ghost use Rattle.msi_summary.specs.declared.property.NumberProperty.TheVariants.{DocSecurity};

use crate::property::NumberProperty;
use crate::summary::SummaryInfo;
use msi_base::errors::Error;

impl SummaryInfo {
    /// Returns a number. It is none if the property is missing or of another type.
    pub fn number_property(&self, property: NumberProperty) -> Option<i32>
        ensures { result ≡ number_with_id (number_id property) self.now }
    {
        self.number(property.id())
    }

    /// Sets a number. If it fails, the summary is as before.
    ///
    /// # Errors
    /// Fails with `OutOfMemory` if the property can't be stored.
    pub fn set_number_property(
        &mut self,
        property: NumberProperty,
        number: i32,
    ) -> Result<(), Error>
        ensures ok { OnOk result (self.new ≡ with_number (number_id property) number self.old) }
        ensures kind { OnlyMemory result }
        ensures err { OnErr result (self.new ≡ self.old) }
    {
        self.set_number(property.id(), number)
    }

    /// Returns the least version of Windows Installer that the package needs, times 100, so 200 for version 2.0 (Page
    /// Count, property 14). It is none if the property is missing or of another type.
    pub fn page_count(&self) -> Option<i32>
        ensures { result ≡ number_with_id (number_id PageCount) self.now }
    {
        self.number_property(NumberProperty::PageCount)
    }

    /// Sets the least version of Windows Installer that the package needs, times 100 (property 14). If it fails, the
    /// summary is as before.
    ///
    /// # Errors
    /// Fails with `OutOfMemory` if the property can't be stored.
    pub fn set_page_count(&mut self, number: i32) -> Result<(), Error>
        ensures ok { OnOk result (self.new ≡ with_number (number_id PageCount) number self.old) }
        ensures kind { OnlyMemory result }
        ensures err { OnErr result (self.new ≡ self.old) }
    {
        self.set_number_property(NumberProperty::PageCount, number)
    }

    /// Removes the least version of Windows Installer that the package needs (property 14), where it is there. It
    /// can't fail.
    pub fn clear_page_count(&mut self)
        ensures { self.new ≡ without_value (number_id PageCount) self.old }
    {
        self.clear(NumberProperty::PageCount.id());
    }

    /// Returns where the package's files lie and which form their names have, as a sum of flags (Word Count, property
    /// 15). It is none if the property is missing or of another type.
    pub fn word_count(&self) -> Option<i32>
        ensures { result ≡ number_with_id (number_id WordCount) self.now }
    {
        self.number_property(NumberProperty::WordCount)
    }

    /// Sets where the package's files lie and which form their names have (property 15). If it fails, the summary is
    /// as before.
    ///
    /// # Errors
    /// Fails with `OutOfMemory` if the property can't be stored.
    pub fn set_word_count(&mut self, number: i32) -> Result<(), Error>
        ensures ok { OnOk result (self.new ≡ with_number (number_id WordCount) number self.old) }
        ensures kind { OnlyMemory result }
        ensures err { OnErr result (self.new ≡ self.old) }
    {
        self.set_number_property(NumberProperty::WordCount, number)
    }

    /// Removes the flags of the package's files (property 15), where they are there. It can't fail.
    pub fn clear_word_count(&mut self)
        ensures { self.new ≡ without_value (number_id WordCount) self.old }
    {
        self.clear(NumberProperty::WordCount.id());
    }

    /// Returns where a transform applies and which errors it passes over, as a sum of flags (Character Count,
    /// property 16). It is none if the property is missing or of another type.
    pub fn character_count(&self) -> Option<i32>
        ensures { result ≡ number_with_id (number_id CharacterCount) self.now }
    {
        self.number_property(NumberProperty::CharacterCount)
    }

    /// Sets where a transform applies and which errors it passes over (property 16). If it fails, the summary is as
    /// before.
    ///
    /// # Errors
    /// Fails with `OutOfMemory` if the property can't be stored.
    pub fn set_character_count(&mut self, number: i32) -> Result<(), Error>
        ensures ok { OnOk result (self.new ≡ with_number (number_id CharacterCount) number self.old) }
        ensures kind { OnlyMemory result }
        ensures err { OnErr result (self.new ≡ self.old) }
    {
        self.set_number_property(NumberProperty::CharacterCount, number)
    }

    /// Removes the flags of a transform (property 16), where they are there. It can't fail.
    pub fn clear_character_count(&mut self)
        ensures { self.new ≡ without_value (number_id CharacterCount) self.old }
    {
        self.clear(NumberProperty::CharacterCount.id());
    }

    /// Returns whether the package is to be read alone (Security, property 19): 0 says nothing, 2 recommends it, 4
    /// demands it. It is none if the property is missing or of another type.
    pub fn doc_security(&self) -> Option<i32>
        ensures { result ≡ number_with_id (number_id DocSecurity) self.now }
    {
        self.number_property(NumberProperty::DocSecurity)
    }

    /// Sets whether the package is to be read alone (property 19): 0 says nothing, 2 recommends it, 4 demands it; any
    /// other number is accepted too. If it fails, the summary is as before.
    ///
    /// # Errors
    /// Fails with `OutOfMemory` if the property can't be stored.
    pub fn set_doc_security(&mut self, number: i32) -> Result<(), Error>
        ensures ok { OnOk result (self.new ≡ with_number (number_id DocSecurity) number self.old) }
        ensures kind { OnlyMemory result }
        ensures err { OnErr result (self.new ≡ self.old) }
    {
        self.set_number_property(NumberProperty::DocSecurity, number)
    }

    /// Removes whether the package is to be read alone (property 19), where it is there. It can't fail.
    pub fn clear_doc_security(&mut self)
        ensures { self.new ≡ without_value (number_id DocSecurity) self.old }
    {
        self.clear(NumberProperty::DocSecurity.id());
    }
}
