//! What the crates above need beyond the surface.

ghost use Rattle.std.specs.Prelude.{◌≡◌, [], true, OnOk, OnErr};
ghost use Rattle.msi_base.specs.Results.{OnlyMemory};
ghost use Rattle.msi_summary_properties.specs.Properties.{can_set, set_of, with_value};

pub use crate::header::{Head, header_at, section_at};
use crate::propset::{PropertySet, PropertyValue};
pub use crate::values::value_at;
pub use crate::writing::stream_of;
use msi_base::errors::Error;
use std::alloc::Global;
use std::collections::BTreeMap;

/// Returns a set without any property, with what a header says of it. It takes no memory.
pub fn new_set_of(alloc: Global, head: &Head) -> PropertySet
    ensures { result ≡ set_of head.now.os head.now.os_version head.now.clsid head.now.format_identifier [] }
{
    PropertySet::from_parts(
        alloc,
        head.os,
        head.os_version,
        head.clsid,
        head.format_identifier,
        BTreeMap::new(alloc),
    )
}

/// Returns what new values of a set take their memory from.
pub fn allocator(set: &PropertySet) -> Global {
    set.allocator()
}

/// Sets a property to a value that it may have: property 1, the page, to an `I2` whose 16 bits, read without sign,
/// are the id of a known page, and any other to any value. If it fails, the set is as before.
///
/// # Errors
/// Fails with `OutOfMemory` if the property can't be stored.
pub fn put(set: &mut PropertySet, id: u32, value: PropertyValue) -> Result<(), Error>
    requires { can_set id value ≡ true }
    ensures ok { OnOk result (set.new ≡ with_value id value set.old) }
    ensures kind { OnlyMemory result }
    ensures err { OnErr result (set.new ≡ set.old) }
{
    set.put(id, value)
}
