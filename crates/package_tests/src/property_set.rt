//! A property set of no package: what is set is written and read back.

use msi::{CodePage, Error, OperatingSystem, PropertySet, PropertyValue};
use std::alloc::Global;

fn set(alloc: Global) -> Result<PropertySet, Error> {
    let mut set = PropertySet::new(alloc, OperatingSystem::Win32, 10, [7; 16]);
    fill_set(&mut set)?;
    Ok(set)
}

fn fill_set(set: &mut PropertySet) -> Result<(), Error> {
    set.set_codepage(CodePage::Windows1252)?;
    set.set(14, PropertyValue::I4(-70000))?;
    set.set(15, PropertyValue::Null)?;
    set.remove(15);
    Ok(())
}

/// The section of that set: the page, and the count.
const SECTION: &[u8] = &[
    0x28, 0, 0, 0, 2, 0, 0, 0, 1, 0, 0, 0, 0x18, 0, 0, 0, 14, 0, 0, 0, 0x20, 0, 0, 0, 2, 0, 0, 0,
    0xE4, 4, 0, 0, 3, 0, 0, 0, 0x90, 0xEE, 0xFE, 0xFF,
];

pub(crate) fn a_set_is_written_and_read_back(alloc: Global) -> Result<bool, Error> {
    let mut bytes = Vec::new(alloc);
    set(alloc)?.write(&mut bytes)?;
    let is_set = is_set(&PropertySet::read(alloc, bytes.as_slice())?);
    Ok(is_set && bytes.ends_with(SECTION))
}

fn is_set(set: &PropertySet) -> bool {
    let is_value = matches!(set.get(14), Some(PropertyValue::I4(-70000)));
    let is_page = set.codepage() == CodePage::Windows1252 && set.is_writable();
    is_value && is_page && *set.format_identifier() == [7; 16] && set.get(15).is_none()
}
