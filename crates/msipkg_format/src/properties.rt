//! The properties of a summary as text archives and JSON have them.

use msi_summary::SummaryProperty;

/// A property as files have it: one for each id. The architecture and the languages are one there, the template.
#[derive(Clone, Copy)]
pub enum StoredProperty {
    /// The architecture and the languages.
    Template,
    /// Any other property.
    Single(SummaryProperty),
}

impl StoredProperty {
    /// Returns what files have of a property, if that isn't a part of one before it, as the languages are.
    pub fn of(property: SummaryProperty) -> Option<StoredProperty> {
        match property {
            SummaryProperty::Arch => Some(StoredProperty::Template),
            SummaryProperty::Languages => None,
            SummaryProperty::Codepage
            | SummaryProperty::Text(_)
            | SummaryProperty::Number(_)
            | SummaryProperty::Time(_)
            | SummaryProperty::Keywords
            | SummaryProperty::Uuid => Some(StoredProperty::Single(property)),
        }
    }

    /// Returns the property of an id, if there is one.
    pub fn from_id(id: i32) -> Option<StoredProperty> {
        for property in SummaryProperty::all() {
            if let Some(stored) = StoredProperty::of(property)
                && stored.id() == id
            {
                return Some(stored);
            }
        }
        None
    }

    /// Returns the id, which the installer's table `_SummaryInformation` has.
    pub fn id(self) -> i32 {
        match self {
            StoredProperty::Template => SummaryProperty::Arch.id() as i32,
            StoredProperty::Single(property) => property.id() as i32,
        }
    }

    /// Returns the name, which JSON has.
    pub fn name(self) -> &'static str {
        match self {
            StoredProperty::Template => "template",
            StoredProperty::Single(property) => property.name(),
        }
    }
}
