//! What holds of the format and of the definitions themselves: each is the contract of a function without a body.

ghost use Rattle.msi_summary.specs.Property.{PropertyNamesComeBack};
ghost use Rattle.msi_summary.specs.SummaryLaws.{ArchKeepsLanguages, LanguagesKeepArch};

pub use msi_summary_properties::laws::{
    one_set, removing_changes_one, sets_read_back, setting_changes_one, written_sets_can_be_read,
};

/// An architecture without a `;` is read as it was set, and setting it keeps the languages.
pub fn arch_keeps_languages()
    ensures { ArchKeepsLanguages }
{}

/// Languages are read as they were set, and setting them keeps the architecture.
pub fn languages_keep_arch()
    ensures { LanguagesKeepArch }
{}

/// The name of a property is read as that property.
pub fn property_names_come_back()
    ensures { PropertyNamesComeBack }
{}
