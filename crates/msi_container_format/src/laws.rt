//! Laws of the formats themselves: each is the contract of a function without a body, but for one, which looks at its
//! name.

ghost use Rattle.msi_container_format.specs.Container.{OneContents};
ghost use Rattle.msi_container_format.specs.Names.{SpellOneText};
ghost use Rattle.msi_container_format.specs.Streams.{PutBackUndoesReplace};
ghost use Rattle.msi_container_format.specs.StreamNameLaws.{AcceptedNamesComeBack, EncodedNamesTellNames};
ghost use Rattle.msi_container_format.specs.StreamNameLaws.{SpecialNamesStandAlone, StreamsAreNoTables};
ghost use Rattle.std.specs.Prelude.{◌<◌, ◌^◌};
ghost use Rattle.std.specs.List.{AllByRecursion};

use crate::name::Name;

/// Bytes hold at most one contents: the grammar of compound files is unambiguous.
pub fn one_contents()
    ensures { OneContents }
{}

/// Putting back what `StreamMap::replace` returned leaves the streams as they were.
pub fn put_back_undoes_replace()
    ensures { PutBackUndoesReplace }
{}

/// The units of every name spell one text, which is UTF-8.
pub fn names_spell_one_text(name: &Name)
    ensures { SpellOneText name.now }
{
    look_at_units(name.units());
}

fn look_at_units(units: &[u16])
    ensures { AllByRecursion (λ unit. unit < 2 ^ 16) units.now }
{}

/// An accepted stream name and its mark come back from the encoded name, which has the length of a container's name.
pub fn accepted_names_come_back()
    ensures { AcceptedNamesComeBack }
{}

/// No two accepted stream names and marks have one encoded name.
pub fn encoded_names_tell_names()
    ensures { EncodedNamesTellNames }
{}

/// No name is encoded as one of the four names that aren't packed: a stream put into a package, or a table, can't
/// take the place of its summaries or its signatures.
pub fn special_names_stand_alone()
    ensures { SpecialNamesStandAlone }
{}

/// No accepted stream name is encoded as the name of a table's stream.
pub fn streams_are_no_tables()
    ensures { StreamsAreNoTables }
{}
