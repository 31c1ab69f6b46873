//! The summary's texts: properties that are an `LpStr` (MS-OLEPS 2.15). Their names are those of the Windows
//! Installer SDK.

ghost use Rattle.std.specs.Prelude.{◌≡◌, OnOk, OnErr};
ghost use Rattle.std.specs.Option.{option_copied};
ghost use Rattle.msi_base.specs.Results.{OnlyMemory};
ghost use Rattle.msi_summary_properties.specs.Properties.{without_value};
ghost use Rattle.msi_summary.specs.Property.{text_id};
ghost use Rattle.msi_summary.specs.Summary.{text_with_id, with_text};
ghost use Rattle.msi_summary.specs.declared.property.TextProperty.TheVariants.{Title, Subject, Author, Comments};
ghost use Rattle.msi_summary.specs.declared.property.TextProperty.TheVariants.{LastSavedBy, CreatingApplication};

use crate::property::TextProperty;
use crate::summary::SummaryInfo;
use msi_base::errors::Error;
use msi_base::text::IntoText;

impl SummaryInfo {
    /// Returns a text. It is none if the property is missing or of another type.
    pub fn text_property(&self, property: TextProperty) -> Option<&str>
        ensures { option_copied result ≡ text_with_id (text_id property) self.now }
    {
        self.text(property.id())
    }

    /// Sets a text. If it fails, the summary is as before.
    ///
    /// # Errors
    /// Fails with `OutOfMemory` if the text can't be copied or stored.
    pub fn set_text_property<S: IntoText>(
        &mut self,
        property: TextProperty,
        text: S,
    ) -> Result<(), Error>
        ensures ok { OnOk result (self.new ≡ with_text (text_id property) (S.text text) self.old) }
        ensures kind { OnlyMemory result }
        ensures err { OnErr result (self.new ≡ self.old) }
    {
        self.set_text(property.id(), text)
    }

    /// Returns the title (Title, property 2): what the file is, as `Installation Database`. It is none if the
    /// property is missing or of another type.
    pub fn title(&self) -> Option<&str>
        ensures { option_copied result ≡ text_with_id (text_id Title) self.now }
    {
        self.text_property(TextProperty::Title)
    }

    /// Sets the title (property 2). If it fails, the summary is as before.
    ///
    /// # Errors
    /// Fails with `OutOfMemory` if the text can't be copied or stored.
    pub fn set_title<S: IntoText>(&mut self, text: S) -> Result<(), Error>
        ensures ok { OnOk result (self.new ≡ with_text (text_id Title) (S.text text) self.old) }
        ensures kind { OnlyMemory result }
        ensures err { OnErr result (self.new ≡ self.old) }
    {
        self.set_text_property(TextProperty::Title, text)
    }

    /// Removes the title (property 2), where it is there. It can't fail.
    pub fn clear_title(&mut self)
        ensures { self.new ≡ without_value (text_id Title) self.old }
    {
        self.clear(TextProperty::Title.id());
    }

    /// Returns the subject (Subject, property 3): the name of what is installed. It is none if the property is
    /// missing or of another type.
    pub fn subject(&self) -> Option<&str>
        ensures { option_copied result ≡ text_with_id (text_id Subject) self.now }
    {
        self.text_property(TextProperty::Subject)
    }

    /// Sets the subject (property 3). If it fails, the summary is as before.
    ///
    /// # Errors
    /// Fails with `OutOfMemory` if the text can't be copied or stored.
    pub fn set_subject<S: IntoText>(&mut self, text: S) -> Result<(), Error>
        ensures ok { OnOk result (self.new ≡ with_text (text_id Subject) (S.text text) self.old) }
        ensures kind { OnlyMemory result }
        ensures err { OnErr result (self.new ≡ self.old) }
    {
        self.set_text_property(TextProperty::Subject, text)
    }

    /// Removes the subject (property 3), where it is there. It can't fail.
    pub fn clear_subject(&mut self)
        ensures { self.new ≡ without_value (text_id Subject) self.old }
    {
        self.clear(TextProperty::Subject.id());
    }

    /// Returns the author (Author, property 4): who made the package. It is none if the property is missing or of
    /// another type.
    pub fn author(&self) -> Option<&str>
        ensures { option_copied result ≡ text_with_id (text_id Author) self.now }
    {
        self.text_property(TextProperty::Author)
    }

    /// Sets the author (property 4). If it fails, the summary is as before.
    ///
    /// # Errors
    /// Fails with `OutOfMemory` if the text can't be copied or stored.
    pub fn set_author<S: IntoText>(&mut self, text: S) -> Result<(), Error>
        ensures ok { OnOk result (self.new ≡ with_text (text_id Author) (S.text text) self.old) }
        ensures kind { OnlyMemory result }
        ensures err { OnErr result (self.new ≡ self.old) }
    {
        self.set_text_property(TextProperty::Author, text)
    }

    /// Removes the author (property 4), where it is there. It can't fail.
    pub fn clear_author(&mut self)
        ensures { self.new ≡ without_value (text_id Author) self.old }
    {
        self.clear(TextProperty::Author.id());
    }

    /// Returns the comments (Comments, property 6): what the package is for. It is none if the property is missing or
    /// of another type.
    pub fn comments(&self) -> Option<&str>
        ensures { option_copied result ≡ text_with_id (text_id Comments) self.now }
    {
        self.text_property(TextProperty::Comments)
    }

    /// Sets the comments (property 6). If it fails, the summary is as before.
    ///
    /// # Errors
    /// Fails with `OutOfMemory` if the text can't be copied or stored.
    pub fn set_comments<S: IntoText>(&mut self, text: S) -> Result<(), Error>
        ensures ok { OnOk result (self.new ≡ with_text (text_id Comments) (S.text text) self.old) }
        ensures kind { OnlyMemory result }
        ensures err { OnErr result (self.new ≡ self.old) }
    {
        self.set_text_property(TextProperty::Comments, text)
    }

    /// Removes the comments (property 6), where it is there. It can't fail.
    pub fn clear_comments(&mut self)
        ensures { self.new ≡ without_value (text_id Comments) self.old }
    {
        self.clear(TextProperty::Comments.id());
    }

    /// Returns who saved the package last (Last Saved By, property 8). It is none if the property is missing or of
    /// another type.
    pub fn last_saved_by(&self) -> Option<&str>
        ensures { option_copied result ≡ text_with_id (text_id LastSavedBy) self.now }
    {
        self.text_property(TextProperty::LastSavedBy)
    }

    /// Sets who saved the package last (property 8). If it fails, the summary is as before.
    ///
    /// # Errors
    /// Fails with `OutOfMemory` if the text can't be copied or stored.
    pub fn set_last_saved_by<S: IntoText>(&mut self, text: S) -> Result<(), Error>
        ensures ok { OnOk result (self.new ≡ with_text (text_id LastSavedBy) (S.text text) self.old) }
        ensures kind { OnlyMemory result }
        ensures err { OnErr result (self.new ≡ self.old) }
    {
        self.set_text_property(TextProperty::LastSavedBy, text)
    }

    /// Removes who saved the package last (property 8), where it is there. It can't fail.
    pub fn clear_last_saved_by(&mut self)
        ensures { self.new ≡ without_value (text_id LastSavedBy) self.old }
    {
        self.clear(TextProperty::LastSavedBy.id());
    }

    /// Returns the program that made the package (Creating Application, property 18). It is none if the property is
    /// missing or of another type.
    pub fn creating_application(&self) -> Option<&str>
        ensures { option_copied result ≡ text_with_id (text_id CreatingApplication) self.now }
    {
        self.text_property(TextProperty::CreatingApplication)
    }

    /// Sets the program that made the package (property 18). If it fails, the summary is as before.
    ///
    /// # Errors
    /// Fails with `OutOfMemory` if the text can't be copied or stored.
    pub fn set_creating_application<S: IntoText>(&mut self, text: S) -> Result<(), Error>
        ensures ok { OnOk result (self.new
            ≡ with_text (text_id CreatingApplication) (S.text text) self.old) }
        ensures kind { OnlyMemory result }
        ensures err { OnErr result (self.new ≡ self.old) }
    {
        self.set_text_property(TextProperty::CreatingApplication, text)
    }

    /// Removes the program that made the package (property 18), where it is there. It can't fail.
    pub fn clear_creating_application(&mut self)
        ensures { self.new ≡ without_value (text_id CreatingApplication) self.old }
    {
        self.clear(TextProperty::CreatingApplication.id());
    }
}
