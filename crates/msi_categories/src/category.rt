//! Categories of column values.

ghost use Rattle.std.specs.Prelude.{◌≡◌, Some, None, IfOk, IfErr, bytes_eq, ◌||◌};
ghost use Rattle.std.specs.Fmt.{padded};
ghost use Rattle.msi_categories.specs.Categories.{all_categories, category_name, category_in, other_name};
ghost use Rattle.msi_base.specs.declared.errors.ErrorKind.TheVariants.{InvalidData};

use crate::reasons;
use msi_base::errors::{Error, ErrorKind};
use std::fmt;
use std::str::FromStr;

/// What the values of a column are for (MSI SDK, "Column Data Types").
#[derive(Clone, Copy, PartialEq, Eq, Hash, Debug)]
pub enum Category {
    /// Any text.
    Text,
    /// Text without a small letter of ASCII.
    UpperCase,
    /// Text without a capital letter of ASCII.
    LowerCase,
    /// A number from -32768 to 32767.
    Integer,
    /// A number from -2147483648 to 2147483647.
    DoubleInteger,
    /// A number from -2147483648 to 2147483647, as a double integer is.
    Number,
    /// A date and time of day.
    TimeDate,
    /// A name of ASCII letters, digits, underscores and periods that begins with a letter or an underscore.
    Identifier,
    /// An identifier, which may have a percent sign in front.
    Property,
    /// The name of a file or folder, short and long.
    Filename,
    /// The name of a file or folder, short and long, with wildcards.
    WildCardFilename,
    /// A full path.
    Path,
    /// Full paths between semicolons.
    Paths,
    /// A full or relative path.
    AnyPath,
    /// A file name or an identifier.
    DefaultDir,
    /// A path in the registry.
    RegPath,
    /// Text with properties in square brackets.
    Formatted,
    /// Text with properties in square brackets that holds a security descriptor.
    FormattedSddlText,
    /// Formatted text that may hold placeholders of fields.
    Template,
    /// A condition on properties.
    Condition,
    /// A UUID with its hyphens, in braces and without small letters.
    Guid,
    /// A version: one to four numbers from 0 to 65535 between periods.
    Version,
    /// Languages: one or more numbers from 0 to 65535 between commas.
    Language,
    /// The name of a stream of bytes.
    Binary,
    /// Where a custom action comes from.
    CustomSource,
    /// A cabinet: `#` and the identifier of a stream, or a file name of 1 to 8 bytes with at most 3 behind its last
    /// period.
    Cabinet,
    /// The target of a shortcut.
    Shortcut,
}

impl Category {
    /// Returns every category.
    pub fn all() -> [Category; 27]
        ensures { result ≡ all_categories }
    {
        [
            Category::Text,
            Category::UpperCase,
            Category::LowerCase,
            Category::Integer,
            Category::DoubleInteger,
            Category::Number,
            Category::TimeDate,
            Category::Identifier,
            Category::Property,
            Category::Filename,
            Category::WildCardFilename,
            Category::Path,
            Category::Paths,
            Category::AnyPath,
            Category::DefaultDir,
            Category::RegPath,
            Category::Formatted,
            Category::FormattedSddlText,
            Category::Template,
            Category::Condition,
            Category::Guid,
            Category::Version,
            Category::Language,
            Category::Binary,
            Category::CustomSource,
            Category::Cabinet,
            Category::Shortcut,
        ]
    }

    /// Returns the name of the category, as the table `_Validation` has it.
    pub fn name(self) -> &'static str
        ensures { result.now ≡ category_name self }
    {
        match self {
            Category::Text => "Text",
            Category::UpperCase => "UpperCase",
            Category::LowerCase => "LowerCase",
            Category::Integer => "Integer",
            Category::DoubleInteger => "DoubleInteger",
            Category::Number => "Number",
            Category::TimeDate => "TimeDate",
            Category::Identifier => "Identifier",
            Category::Property => "Property",
            Category::Filename => "Filename",
            Category::WildCardFilename => "WildCardFilename",
            Category::Path => "Path",
            Category::Paths => "Paths",
            Category::AnyPath => "AnyPath",
            Category::DefaultDir => "DefaultDir",
            Category::RegPath => "RegPath",
            Category::Formatted => "Formatted",
            Category::FormattedSddlText => "FormattedSDDLText",
            Category::Template => "Template",
            Category::Condition => "Condition",
            Category::Guid => "GUID",
            Category::Version => "Version",
            Category::Language => "Language",
            Category::Binary => "Binary",
            Category::CustomSource => "CustomSource",
            Category::Cabinet => "Cabinet",
            Category::Shortcut => "Shortcut",
        }
    }

    fn other_name(self) -> &'static str
        ensures { result.now ≡ other_name self }
    {
        match self {
            Category::FormattedSddlText => "FormattedSddlText",
            Category::Guid => "Guid",
            _ => self.name(),
        }
    }

    fn has_name(self, text: &str) -> bool
        ensures { result ≡ (bytes_eq (category_name self) text.now || bytes_eq (other_name self) text.now) }
    {
        self.name() == text || self.other_name() == text
    }
}

/// Writes the name.
impl fmt::Display for Category {
    ghost output = { λ category. Some (category_name category) };

    ghost styled_output = { λ category spec. Some (padded spec (category_name category)) };

    fn fmt<W: fmt::Write>(&self, f: &mut fmt::Formatter<W>) -> fmt::Result {
        f.pad(self.name())
    }
}

/// The category that a text names: its name, or `FormattedSddlText` or `Guid`. The error is `InvalidData`.
impl FromStr for Category {
    type Err = Error;

    ghost from_str_gives = { λ text r. IfOk r (λ category. category_in text ≡ Some category)
        × IfErr r (λ kind. (category_in text ≡ None) × (kind ≡ InvalidData)) };

    fn from_str(text: &str) -> Result<Category, Error> {
        for category in Category::all() {
            if category.has_name(text) {
                return Ok(category);
            }
        }
        Err(Error::new(ErrorKind::InvalidData, reasons::CATEGORY_NAME))
    }
}
