//! Laws of the files that are written: each is the contract of a function without a body.

ghost use Rattle.msi_container_write.specs.Balance.{LinksSpellTree};
ghost use Rattle.msi_container_write.specs.LayoutLaw.{LayoutsHoldContents};
ghost use Rattle.msi_container_write.specs.SpelledParts.{ImagesSpellParts};

/// The links that are written form a tree that has each entry once.
pub fn links_spell_tree()
    ensures { LinksSpellTree }
{}

/// An image has its header, lists its FAT, and contains each of its parts.
pub fn images_spell_parts()
    ensures { ImagesSpellParts }
{}

/// The bytes of a layout hold its contents, as the grammar reads them.
pub fn layouts_hold_contents()
    ensures { LayoutsHoldContents }
{}
