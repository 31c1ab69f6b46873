//! Transforms as they are named on the command line: a file, or a storage of one.

use msi_transform::{ErrorConditions, Transform};
use msipkg_format::{Failure, System};
use msipkg_packages::check_kind;
use msipkg_packages::msi::compound::{self, Contents, Name};
use msipkg_packages::msi::{PropertySet, PropertyValue, streamname};
use std::alloc::Global;
use std::rc::Rc;

/// The id of the title.
pub const TITLE: u32 = 2;

/// The id of the template of the package that a transform is made from.
pub const OLD_TEMPLATE: u32 = 7;

/// The id of the template of the package that it makes.
pub const NEW_TEMPLATE: u32 = 8;

/// The id of the products: the code and the version of the old package, those of the new one, and an upgrade code.
pub const PRODUCTS: u32 = 9;

/// The id of the version of the installer that is needed.
pub const PAGE_COUNT: u32 = 14;

/// The id of the flags: what is validated in the upper half, and which errors are ignored in the lower.
pub const FLAGS: u32 = 16;

/// A transform, and the properties of its summary, if it has one that can be read.
pub struct TransformFile {
    pub transform: Transform,
    pub properties: Option<PropertySet>,
}

/// Written out, so that a function that owns one calls one drop, and its proof doesn't go through those of the parts.
impl Drop for TransformFile {
    fn drop(self) {
        let TransformFile {
            transform: _,
            properties: _,
        } = self;
    }
}

impl TransformFile {
    /// Returns which errors an installation ignores: none where there is no summary.
    pub fn conditions(&self) -> ErrorConditions {
        match self.number(FLAGS) {
            Some(flags) => ErrorConditions::of_bits(flags.cast_unsigned()),
            None => ErrorConditions::default(),
        }
    }

    /// Returns a property of the summary that is a number.
    pub fn number(&self, id: u32) -> Option<i32> {
        match self.properties.as_ref()?.get(id)? {
            PropertyValue::I4(number) => Some(*number),
            PropertyValue::I2(number) => Some(i32::from(*number)),
            PropertyValue::I1(number) => Some(i32::from(*number)),
            PropertyValue::Empty
            | PropertyValue::Null
            | PropertyValue::LpStr(_)
            | PropertyValue::FileTime(_) => None,
        }
    }

    /// Returns a property of the summary that is a text.
    pub fn text(&self, id: u32) -> Option<&str> {
        match self.properties.as_ref()?.get(id)? {
            PropertyValue::LpStr(text) => Some(text.as_str()),
            PropertyValue::Empty
            | PropertyValue::Null
            | PropertyValue::I1(_)
            | PropertyValue::I2(_)
            | PropertyValue::I4(_)
            | PropertyValue::FileTime(_) => None,
        }
    }
}

/// Where a transform is: a file, or the storage of it whose names are parted by `/`.
#[derive(Clone, Copy)]
struct Place<'a> {
    file: &'a str,
    storage: Option<&'a str>,
}

fn place_of(word: &str) -> Place<'_> {
    match word.rsplit_once(':') {
        Some((file, "")) => Place {
            file,
            storage: None,
        },
        Some((file, storage)) => Place {
            file,
            storage: Some(storage),
        },
        None => Place {
            file: word,
            storage: None,
        },
    }
}

/// Returns the transform that a word names: a file, or a storage of a file as `FILE:NAME`. A file whose name has a
/// colon is named with another one at the end.
///
/// # Errors
/// Fails if the file can't be read, if it has no such storage, and if that is no transform.
pub fn read_transform(rt: &System, word: &str) -> Result<TransformFile, Failure> {
    let place = place_of(word);
    check_kind(rt, place.file)?;
    let bytes = Rc::new(rt.alloc(), rt.read(place.file)?)?;
    transform_in(rt.alloc(), contents_at(rt.alloc(), bytes, place.storage)?)
}

fn contents_at(
    alloc: Global,
    bytes: Rc<Vec<u8>>,
    storage: Option<&str>,
) -> Result<Contents, Failure> {
    let Some(path) = storage else {
        return Ok(compound::read_shared(alloc, bytes)?);
    };
    let mut names = Vec::new(alloc);
    for text in path.split('/') {
        names.push(Name::new(text)?)?;
    }
    Ok(compound::read_storage(alloc, &bytes, names.as_slice())?)
}

fn transform_in(alloc: Global, contents: Contents) -> Result<TransformFile, Failure> {
    let properties = properties_in(alloc, &contents)?;
    let transform = Transform::of_contents(alloc, contents)?;
    Ok(TransformFile {
        transform,
        properties,
    })
}

/// Returns the properties of the summary, if there is one that can be read.
fn properties_in(alloc: Global, contents: &Contents) -> Result<Option<PropertySet>, Failure> {
    let name = Name::new(streamname::SUMMARY_INFO_STREAM_NAME)?;
    match contents.streams.get(&name) {
        Some(bytes) => Ok(PropertySet::read(alloc, bytes.as_slice()).ok()),
        None => Ok(None),
    }
}
