//! Laws of the formats themselves: each is the contract of a function without a body.

ghost use Rattle.msi_categories.specs.Categories.{CategoryNamesComeBack};
ghost use Rattle.msi_categories.specs.Languages.{LanguageIdsTellTags, LanguagePartsComeBack, LanguageRowsAscend};
ghost use Rattle.msi_categories.specs.Languages.{LanguageTagsTellIds};
ghost use Rattle.msi_categories.specs.Times.{MomentsComeBackFromUnix, StoredMomentsComeBack};

/// The name of a category is read as that category.
pub fn category_names_come_back()
    ensures { CategoryNamesComeBack }
{}

/// The primary language and the sub-language of an id make the id again.
pub fn language_parts_come_back()
    ensures { LanguagePartsComeBack }
{}

/// The rows of languages ascend by id, so an id has at most one row.
pub fn language_rows_ascend()
    ensures { LanguageRowsAscend }
{}

/// The id of a row leads to the row's tag.
pub fn language_ids_tell_tags()
    ensures { LanguageIdsTellTags }
{}

/// The tag of a row leads to the row's id, so a tag has at most one row.
pub fn language_tags_tell_ids()
    ensures { LanguageTagsTellIds }
{}

/// A time comes back from its seconds and nanoseconds since 1970.
pub fn moments_come_back_from_unix()
    ensures { MomentsComeBackFromUnix }
{}

/// A time that is stored has eight bytes, which are read as it.
pub fn stored_moments_come_back()
    ensures { StoredMomentsComeBack }
{}
