//! The summary's times: properties that are a `FileTime` (MS-OLEPS 2.15), counted in steps of 100 nanoseconds since
//! the year 1601. Their names are those of the Windows Installer SDK.

ghost use Rattle.std.specs.Prelude.{◌≡◌, OnOk, OnErr};
ghost use Rattle.msi_base.specs.Results.{OnlyMemory};
ghost use Rattle.msi_summary_properties.specs.Properties.{without_value};
ghost use Rattle.msi_summary.specs.Property.{time_id};
ghost use Rattle.msi_summary.specs.Summary.{time_with_id, with_time};
ghost use Rattle.msi_summary.specs.declared.property.TimeProperty.TheVariants.{LastPrinted, CreationTime};
ghost use Rattle.msi_summary.specs.declared.property.TimeProperty.TheVariants.{LastSavedTime};

use crate::property::TimeProperty;
use crate::summary::SummaryInfo;
use msi_base::errors::Error;
use msi_categories::timestamp::Timestamp;

impl SummaryInfo {
    /// Returns a time. It is none if the property is missing or of another type.
    pub fn time_property(&self, property: TimeProperty) -> Option<Timestamp>
        ensures { result ≡ time_with_id (time_id property) self.now }
    {
        self.time(property.id())
    }

    /// Sets a time. If it fails, the summary is as before.
    ///
    /// # Errors
    /// Fails with `OutOfMemory` if the property can't be stored.
    pub fn set_time_property(
        &mut self,
        property: TimeProperty,
        time: Timestamp,
    ) -> Result<(), Error>
        ensures ok { OnOk result (self.new ≡ with_time (time_id property) time self.old) }
        ensures kind { OnlyMemory result }
        ensures err { OnErr result (self.new ≡ self.old) }
    {
        self.set_time(property.id(), time)
    }

    /// Returns when the package was printed last (Last Printed, property 11); installers set it when an
    /// administrative image is made. It is none if the property is missing or of another type.
    pub fn last_printed(&self) -> Option<Timestamp>
        ensures { result ≡ time_with_id (time_id LastPrinted) self.now }
    {
        self.time_property(TimeProperty::LastPrinted)
    }

    /// Sets when the package was printed last (property 11). If it fails, the summary is as before.
    ///
    /// # Errors
    /// Fails with `OutOfMemory` if the property can't be stored.
    pub fn set_last_printed(&mut self, time: Timestamp) -> Result<(), Error>
        ensures ok { OnOk result (self.new ≡ with_time (time_id LastPrinted) time self.old) }
        ensures kind { OnlyMemory result }
        ensures err { OnErr result (self.new ≡ self.old) }
    {
        self.set_time_property(TimeProperty::LastPrinted, time)
    }

    /// Sets when the package was printed last (property 11) to the present time, which the caller passes in. If it
    /// fails, the summary is as before.
    ///
    /// # Errors
    /// Fails with `OutOfMemory` if the property can't be stored.
    pub fn set_last_printed_to_now(&mut self, now: Timestamp) -> Result<(), Error>
        ensures ok { OnOk result (self.new ≡ with_time (time_id LastPrinted) now self.old) }
        ensures kind { OnlyMemory result }
        ensures err { OnErr result (self.new ≡ self.old) }
    {
        self.set_last_printed(now)
    }

    /// Removes when the package was printed last (property 11), where it is there. It can't fail.
    pub fn clear_last_printed(&mut self)
        ensures { self.new ≡ without_value (time_id LastPrinted) self.old }
    {
        self.clear(TimeProperty::LastPrinted.id());
    }

    /// Returns when the package was made (Create Time/Date, property 12). It is none if the property is missing or of
    /// another type.
    pub fn creation_time(&self) -> Option<Timestamp>
        ensures { result ≡ time_with_id (time_id CreationTime) self.now }
    {
        self.time_property(TimeProperty::CreationTime)
    }

    /// Sets when the package was made (property 12). If it fails, the summary is as before.
    ///
    /// # Errors
    /// Fails with `OutOfMemory` if the property can't be stored.
    pub fn set_creation_time(&mut self, time: Timestamp) -> Result<(), Error>
        ensures ok { OnOk result (self.new ≡ with_time (time_id CreationTime) time self.old) }
        ensures kind { OnlyMemory result }
        ensures err { OnErr result (self.new ≡ self.old) }
    {
        self.set_time_property(TimeProperty::CreationTime, time)
    }

    /// Sets when the package was made (property 12) to the present time, which the caller passes in. If it fails, the
    /// summary is as before.
    ///
    /// # Errors
    /// Fails with `OutOfMemory` if the property can't be stored.
    pub fn set_creation_time_to_now(&mut self, now: Timestamp) -> Result<(), Error>
        ensures ok { OnOk result (self.new ≡ with_time (time_id CreationTime) now self.old) }
        ensures kind { OnlyMemory result }
        ensures err { OnErr result (self.new ≡ self.old) }
    {
        self.set_creation_time(now)
    }

    /// Removes when the package was made (property 12), where it is there. It can't fail.
    pub fn clear_creation_time(&mut self)
        ensures { self.new ≡ without_value (time_id CreationTime) self.old }
    {
        self.clear(TimeProperty::CreationTime.id());
    }

    /// Returns when the package was saved last (Last Saved Time/Date, property 13). It is none if the property is
    /// missing or of another type.
    pub fn last_saved_time(&self) -> Option<Timestamp>
        ensures { result ≡ time_with_id (time_id LastSavedTime) self.now }
    {
        self.time_property(TimeProperty::LastSavedTime)
    }

    /// Sets when the package was saved last (property 13). If it fails, the summary is as before.
    ///
    /// # Errors
    /// Fails with `OutOfMemory` if the property can't be stored.
    pub fn set_last_save_time(&mut self, time: Timestamp) -> Result<(), Error>
        ensures ok { OnOk result (self.new ≡ with_time (time_id LastSavedTime) time self.old) }
        ensures kind { OnlyMemory result }
        ensures err { OnErr result (self.new ≡ self.old) }
    {
        self.set_time_property(TimeProperty::LastSavedTime, time)
    }

    /// Sets when the package was saved last (property 13) to the present time, which the caller passes in. If it
    /// fails, the summary is as before.
    ///
    /// # Errors
    /// Fails with `OutOfMemory` if the property can't be stored.
    pub fn set_last_save_time_to_now(&mut self, now: Timestamp) -> Result<(), Error>
        ensures ok { OnOk result (self.new ≡ with_time (time_id LastSavedTime) now self.old) }
        ensures kind { OnlyMemory result }
        ensures err { OnErr result (self.new ≡ self.old) }
    {
        self.set_last_save_time(now)
    }

    /// Removes when the package was saved last (property 13), where it is there. It can't fail.
    pub fn clear_last_save_time(&mut self)
        ensures { self.new ≡ without_value (time_id LastSavedTime) self.old }
    {
        self.clear(TimeProperty::LastSavedTime.id());
    }
}
