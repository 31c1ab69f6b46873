//! Packages with texts in a page that packages aren't read in: they are recoded to UTF-8 first.

use crate::named_pages::{NamedPages, database_page, has_utf8_texts};
use msi::Error;
use msi::compound::{self, Contents, StreamMap};
use msi_recode::{TextPage, recode_contents};
use msipkg_format::{Cause, Failure, Output, Pages, Shown, System};
use std::alloc::Global;
use std::rc::Rc;

/// The refusal of a change that would lose texts.
const UNNAMED: &str = "it names no code page, and its texts aren't UTF-8: add --page N";

/// What a package is opened for.
#[derive(Clone, Copy, Debug)]
pub enum Purpose {
    /// It is looked at.
    Look,
    /// It is changed, and may not be recoded.
    Change,
    /// It is changed, and is written with its texts in UTF-8 where it is recoded, which is noted.
    Recode,
    /// The same, but it isn't noted.
    RecodeSilently,
}

/// The file of a package, and how it is read.
#[derive(Clone, Copy, Debug)]
pub struct PackageFile<'a> {
    /// The path of the file.
    pub path: &'a str,
    /// The page of the texts, where the package names page 0, which says nothing of it.
    pub page: Option<i32>,
    /// What the package is opened for.
    pub purpose: Purpose,
}

/// The bytes of a package with its texts in UTF-8.
pub struct Recoded {
    bytes: Vec<u8>,
    pages: Pages,
    /// The page that the file names for the texts of its tables.
    named: Option<i32>,
    /// Whether storages below the root are left out.
    is_part: bool,
}

/// Written out, so that a function that owns one calls one drop, and its proof doesn't go through those of the parts.
impl Drop for Recoded {
    fn drop(self) {
        let Recoded {
            bytes: _,
            pages: _,
            named: _,
            is_part: _,
        } = self;
    }
}

impl Recoded {
    /// Returns the bytes.
    pub fn into_bytes(self) -> Vec<u8> {
        let Recoded {
            bytes,
            pages: _,
            named: _,
            is_part: _,
        } = self;
        bytes
    }

    /// Returns the page that the file names for the texts of its tables, if it names one.
    pub fn named_page(&self) -> Option<i32> {
        self.named
    }

    /// Fails if the package is changed and may not be recoded, and notes else that its texts are.
    ///
    /// # Errors
    /// Fails with the pages of the texts.
    pub fn permit(&self, file: &PackageFile<'_>, notes: &mut Output) -> Result<(), Failure> {
        match file.purpose {
            Purpose::Look | Purpose::Recode => {
                self.note(file.path, notes);
                Ok(())
            }
            Purpose::RecodeSilently => Ok(()),
            Purpose::Change => Err(Failure::new(Cause::Recoding(self.pages))),
        }
    }

    fn note(&self, path: &str, notes: &mut Output) {
        if self.pages.is_empty() {
            return;
        }
        let (path, pages) = (Shown::escaped(path), self.pages);
        let left_out = if self.is_part {
            ", and storages below the root are left out"
        } else {
            ""
        };
        writeln!(
            notes,
            "msipkg: {path}: texts in {pages} are read as UTF-8{left_out}"
        );
    }
}

/// What a package that is changed is opened from.
#[derive(Drop)]
pub(crate) enum ToChange {
    /// The bytes of its file.
    Plain(Plain),
    /// Bytes with its texts in UTF-8.
    Recoded(Recoded),
}

/// The bytes of the file of a package that is changed.
#[derive(Drop)]
pub(crate) struct Plain {
    pub(crate) bytes: Rc<Vec<u8>>,
    /// Whether they name page 0.
    pub(crate) has_page_zero: bool,
    /// The same bytes, if the texts are to be recoded where the package isn't opened as it is.
    pub(crate) spare: Option<Rc<Vec<u8>>>,
}

/// Returns what the package of a file's bytes is opened from to be changed. It is recoded first if a page is given and
/// the package has texts to be recoded. What is no container is left to opening, which refuses it.
///
/// # Errors
/// Fails if the package names page 0 and has texts that aren't UTF-8, unless they are recoded: they would be read with
/// U+FFFD, and be written so. Fails at a text that its page doesn't read, too.
pub(crate) fn bytes_to_change(
    alloc: Global,
    bytes: Rc<Vec<u8>>,
    file: &PackageFile<'_>,
) -> Result<ToChange, Failure> {
    let Ok(contents) = compound::read_shared(alloc, bytes.clone()?) else {
        return Ok(ToChange::Plain(Plain {
            bytes,
            has_page_zero: false,
            spare: None,
        }));
    };
    let named = NamedPages::of(alloc, &contents.streams)?;
    let pages = named.recoded_from(file.page);
    if file.page.is_some() && !pages.is_empty() {
        let recoded = recoded_from(alloc, contents, named, file)?;
        return Ok(ToChange::Recoded(recoded));
    }
    let has_page_zero = check_page(alloc, named, &contents.streams)?;
    let spare = if pages.is_empty() {
        None
    } else {
        Some(bytes.clone()?)
    };
    Ok(ToChange::Plain(Plain {
        bytes,
        has_page_zero,
        spare,
    }))
}

/// Returns whether the page that is named for these streams is 0, and fails if it is and they have texts that aren't
/// UTF-8.
fn check_page(alloc: Global, named: NamedPages, streams: &StreamMap) -> Result<bool, Failure> {
    if !matches!(named.database(), Some(0)) {
        return Ok(false);
    }
    if has_utf8_texts(alloc, streams)? {
        return Ok(true);
    }
    Err(Failure::rule(UNNAMED))
}

/// Returns the number of the page that a file names for its package's database, if it names one.
///
/// # Errors
/// Fails as the calls of the system do. A file that is no container names none.
pub fn file_page(rt: &System, path: &str) -> Result<Option<i32>, Failure> {
    match compound::read_shared(rt.alloc(), read_file(rt, path)?) {
        Ok(contents) => Ok(database_page(rt.alloc(), &contents.streams)?),
        Err(_) => Ok(None),
    }
}

/// Returns the number of the page that bytes name for their package's database, if they name one.
///
/// # Errors
/// Fails if they are no container, and if memory is refused.
pub fn page_in(alloc: Global, bytes: &[u8]) -> Result<Option<i32>, Error> {
    database_page(alloc, &compound::read(alloc, bytes)?.streams)
}

/// Returns a package's bytes with its texts in UTF-8 if a page is given and the package has texts to be recoded. Such a
/// package isn't tried as it is, since it would be read as UTF-8, in which no bytes are refused.
///
/// # Errors
/// Fails as the calls of the system do, and at a text that its page doesn't read.
pub fn recoded_by_page(rt: &System, file: &PackageFile<'_>) -> Result<Option<Recoded>, Failure> {
    match file.page {
        Some(_) => recoded_bytes(rt.alloc(), read_file(rt, file.path)?, file),
        None => Ok(None),
    }
}

/// Returns the bytes of a package that isn't opened as it is, for this failure, with its texts in UTF-8.
///
/// # Errors
/// Fails with that failure if there are no texts to be recoded, and at a text that its page doesn't read.
pub fn recoded_instead(
    alloc: Global,
    bytes: Rc<Vec<u8>>,
    file: &PackageFile<'_>,
    failure: Failure,
) -> Result<Recoded, Failure> {
    match recoded_bytes(alloc, bytes, file)? {
        Some(recoded) => Ok(recoded),
        None => Err(failure),
    }
}

/// Returns the bytes of a file.
///
/// # Errors
/// Fails as the calls of the system do, and if memory is refused.
pub fn read_file(rt: &System, path: &str) -> Result<Rc<Vec<u8>>, Failure> {
    Ok(Rc::new(rt.alloc(), rt.read(path)?)?)
}

/// Returns a package's bytes with its texts in UTF-8, if one of its pages isn't one that packages are read in, or it is
/// page 0 and a page is given.
fn recoded_bytes(
    alloc: Global,
    bytes: Rc<Vec<u8>>,
    file: &PackageFile<'_>,
) -> Result<Option<Recoded>, Failure> {
    match compound::read_shared(alloc, bytes) {
        Ok(contents) => recoded_of(alloc, contents, file),
        Err(_) => Ok(None),
    }
}

fn recoded_of(
    alloc: Global,
    contents: Contents,
    file: &PackageFile<'_>,
) -> Result<Option<Recoded>, Failure> {
    let named = NamedPages::of(alloc, &contents.streams)?;
    if named.recoded_from(file.page).is_empty() {
        return Ok(None);
    }
    Ok(Some(recoded_from(alloc, contents, named, file)?))
}

pub(crate) fn recoded_or_plain(
    alloc: Global,
    contents: Contents,
    file: &PackageFile<'_>,
) -> Result<Recoded, Failure> {
    let named = NamedPages::of(alloc, &contents.streams)?;
    if named.recoded_from(file.page).is_empty() {
        return written(alloc, contents, named, file);
    }
    recoded_from(alloc, contents, named, file)
}

fn recoded_from(
    alloc: Global,
    contents: Contents,
    named: NamedPages,
    file: &PackageFile<'_>,
) -> Result<Recoded, Failure> {
    match recode_contents(alloc, file.page.and_then(TextPage::of), contents) {
        Ok(contents) => written(alloc, contents, named, file),
        Err(error) => Err(Failure::new(Cause::Text(error))),
    }
}

/// Writes a package of these contents. Storages below the root can't be written, so they are left out where the package
/// is only looked at.
fn written(
    alloc: Global,
    mut contents: Contents,
    named: NamedPages,
    file: &PackageFile<'_>,
) -> Result<Recoded, Failure> {
    let is_part = contents.has_storages && matches!(file.purpose, Purpose::Look);
    if is_part {
        contents.has_storages = false;
    }
    let bytes = compound::write(alloc, &contents, 0)?;
    Ok(Recoded {
        bytes,
        pages: named.recoded_from(file.page),
        named: named.database(),
        is_part,
    })
}
