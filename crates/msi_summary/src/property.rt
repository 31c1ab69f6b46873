//! The properties of a summary: their ids (Windows Installer SDK, "Summary Information Stream Property Set") and the
//! names that the programs use.

ghost use Rattle.std.specs.Prelude.{◌≡◌, ◌≢◌, ◌<◌, ◌^◌, bytes_eq};
ghost use Rattle.msi_summary.specs.Property.{all_properties, property_id, property_name, property_named};
ghost use Rattle.msi_summary.specs.Property.{number_id, number_name, text_id, text_name, time_id, time_name};

/// The id of the code page.
const CODEPAGE: u32 = 1;

/// The id of the keywords.
pub(crate) const KEYWORDS: u32 = 5;

/// The id of the template, which has the architecture and the languages.
pub(crate) const TEMPLATE: u32 = 7;

/// The id of the UUID.
pub(crate) const UUID: u32 = 9;

/// A property that is a text.
#[derive(Clone, Copy, PartialEq, Eq, Hash, Debug)]
pub enum TextProperty {
    /// What the file is, as `Installation Database` (Title).
    Title,
    /// The name of what is installed (Subject).
    Subject,
    /// Who made the package (Author).
    Author,
    /// What the package is for (Comments).
    Comments,
    /// Who saved the package last (Last Saved By).
    LastSavedBy,
    /// The program that made the package (Creating Application).
    CreatingApplication,
}

impl TextProperty {
    /// Returns the id of the property.
    pub fn id(self) -> u32
        ensures id { result ≡ text_id self }
        ensures other { result ≢ 1 }
        ensures small { result < 2 ^ 15 }
    {
        match self {
            TextProperty::Title => 2,
            TextProperty::Subject => 3,
            TextProperty::Author => 4,
            TextProperty::Comments => 6,
            TextProperty::LastSavedBy => 8,
            TextProperty::CreatingApplication => 18,
        }
    }

    fn name(self) -> &'static str
        ensures { result.now ≡ text_name self }
    {
        match self {
            TextProperty::Title => "title",
            TextProperty::Subject => "subject",
            TextProperty::Author => "author",
            TextProperty::Comments => "comments",
            TextProperty::LastSavedBy => "last_saved_by",
            TextProperty::CreatingApplication => "creating_application",
        }
    }
}

/// A property that is a number.
#[derive(Clone, Copy, PartialEq, Eq, Hash, Debug)]
pub enum NumberProperty {
    /// The least version of Windows Installer that the package needs, times 100 (Page Count).
    PageCount,
    /// Where the package's files lie and which form their names have, as a sum of flags (Word Count).
    WordCount,
    /// Where a transform applies and which errors it passes over, as a sum of flags (Character Count).
    CharacterCount,
    /// Whether the package is to be read alone (Security).
    DocSecurity,
}

impl NumberProperty {
    /// Returns the id of the property.
    pub fn id(self) -> u32
        ensures id { result ≡ number_id self }
        ensures other { result ≢ 1 }
        ensures small { result < 2 ^ 15 }
    {
        match self {
            NumberProperty::PageCount => 14,
            NumberProperty::WordCount => 15,
            NumberProperty::CharacterCount => 16,
            NumberProperty::DocSecurity => 19,
        }
    }

    fn name(self) -> &'static str
        ensures { result.now ≡ number_name self }
    {
        match self {
            NumberProperty::PageCount => "page_count",
            NumberProperty::WordCount => "word_count",
            NumberProperty::CharacterCount => "character_count",
            NumberProperty::DocSecurity => "doc_security",
        }
    }
}

/// A property that is a time.
#[derive(Clone, Copy, PartialEq, Eq, Hash, Debug)]
pub enum TimeProperty {
    /// When the package was printed last (Last Printed).
    LastPrinted,
    /// When the package was made (Create Time/Date).
    CreationTime,
    /// When the package was saved last (Last Saved Time/Date).
    LastSavedTime,
}

impl TimeProperty {
    /// Returns the id of the property.
    pub fn id(self) -> u32
        ensures id { result ≡ time_id self }
        ensures other { result ≢ 1 }
        ensures small { result < 2 ^ 15 }
    {
        match self {
            TimeProperty::LastPrinted => 11,
            TimeProperty::CreationTime => 12,
            TimeProperty::LastSavedTime => 13,
        }
    }

    fn name(self) -> &'static str
        ensures { result.now ≡ time_name self }
    {
        match self {
            TimeProperty::LastPrinted => "last_printed",
            TimeProperty::CreationTime => "creation_time",
            TimeProperty::LastSavedTime => "last_saved_time",
        }
    }
}

/// A property of a summary, or one of the two parts of the template.
#[derive(Clone, Copy, PartialEq, Eq, Hash, Debug)]
pub enum SummaryProperty {
    /// The code page of the texts (Codepage).
    Codepage,
    /// A text.
    Text(TextProperty),
    /// A number.
    Number(NumberProperty),
    /// A time.
    Time(TimeProperty),
    /// The keywords (Keywords).
    Keywords,
    /// The architecture that the package is for, the first part of the template (Template).
    Arch,
    /// The languages, the second part of the template.
    Languages,
    /// The UUID of the package (Revision Number).
    Uuid,
}

impl SummaryProperty {
    /// Returns every property, in the order of their ids.
    pub fn all() -> [SummaryProperty; 18]
        ensures { result ≡ all_properties }
    {
        [
            SummaryProperty::Codepage,
            SummaryProperty::Text(TextProperty::Title),
            SummaryProperty::Text(TextProperty::Subject),
            SummaryProperty::Text(TextProperty::Author),
            SummaryProperty::Keywords,
            SummaryProperty::Text(TextProperty::Comments),
            SummaryProperty::Arch,
            SummaryProperty::Languages,
            SummaryProperty::Text(TextProperty::LastSavedBy),
            SummaryProperty::Uuid,
            SummaryProperty::Time(TimeProperty::LastPrinted),
            SummaryProperty::Time(TimeProperty::CreationTime),
            SummaryProperty::Time(TimeProperty::LastSavedTime),
            SummaryProperty::Number(NumberProperty::PageCount),
            SummaryProperty::Number(NumberProperty::WordCount),
            SummaryProperty::Number(NumberProperty::CharacterCount),
            SummaryProperty::Text(TextProperty::CreatingApplication),
            SummaryProperty::Number(NumberProperty::DocSecurity),
        ]
    }

    /// Returns the id of the property; of the architecture and the languages that of the template.
    pub fn id(self) -> u32
        ensures id { result ≡ property_id self }
        ensures small { result < 2 ^ 15 }
    {
        match self {
            SummaryProperty::Codepage => CODEPAGE,
            SummaryProperty::Text(property) => property.id(),
            SummaryProperty::Number(property) => property.id(),
            SummaryProperty::Time(property) => property.id(),
            SummaryProperty::Keywords => KEYWORDS,
            SummaryProperty::Arch => TEMPLATE,
            SummaryProperty::Languages => TEMPLATE,
            SummaryProperty::Uuid => UUID,
        }
    }

    /// Returns the name of the property in the programs, as `last_saved_by`.
    pub fn name(self) -> &'static str
        ensures { result.now ≡ property_name self }
    {
        match self {
            SummaryProperty::Codepage => "codepage",
            SummaryProperty::Text(property) => property.name(),
            SummaryProperty::Number(property) => property.name(),
            SummaryProperty::Time(property) => property.name(),
            SummaryProperty::Keywords => "keywords",
            SummaryProperty::Arch => "arch",
            SummaryProperty::Languages => "languages",
            SummaryProperty::Uuid => "uuid",
        }
    }

    fn has_name(self, name: &str) -> bool
        ensures { result ≡ bytes_eq (property_name self) name.now }
    {
        self.name() == name
    }

    /// Returns the property of a name, if there is one.
    pub fn from_name(name: &str) -> Option<SummaryProperty>
        ensures { result ≡ property_named name.now }
    {
        for property in SummaryProperty::all() {
            if property.has_name(name) {
                return Some(property);
            }
        }
        None
    }
}
