//! What holds of the format and of the definitions themselves: each is the contract of a function without a body, or
//! of one that only looks at its set.

ghost use Rattle.msi_summary_properties.specs.PropertyLaws.{CanBeRead, OneSet, SetsReadBack};
ghost use Rattle.msi_summary_properties.specs.PropertyLaws.{RemovingChangesOne, SettingChangesOne};

use crate::propset::PropertySet;

/// Bytes encode at most one set.
pub fn one_set()
    ensures { OneSet }
{}

/// What is written of a set encodes that set, if each text reads back from its page: so reading returns the set.
pub fn sets_read_back()
    ensures { SetsReadBack }
{}

/// What is written of a set that isn't refused can be read: it encodes the set itself where each text reads back from
/// its page, and else one whose other texts have changed.
pub fn written_sets_can_be_read(set: &PropertySet)
    ensures { CanBeRead set.now }
{
    let _writable = set.is_writable();
    let _values = set.values();
}

/// A property that is set has the value that it was set to, and no other is changed.
pub fn setting_changes_one()
    ensures { SettingChangesOne }
{}

/// A property that is removed has no value, and no other is changed.
pub fn removing_changes_one()
    ensures { RemovingChangesOne }
{}
