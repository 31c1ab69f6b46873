//! `transform make OLD NEW OUT`: the transform of two packages.

ghost use Rattle.std.specs.Prelude.{◌≡◌, ◌&&◌, IsErr, IsTrue, OnErr, OnOk, if◌then◌else◌, not};
ghost use Rattle.msi_transform.specs.WrittenTransforms.{as_neutral};
ghost use Rattle.msipkg_transforms.specs.NamedPages.{named_if, takes_page};

use crate::holdings::Holdings;
use crate::left_out::LeftOut;
use crate::miscounting::is_miscounted;
use crate::summary::summary_of;
use crate::transform_bytes::{TransformBytes, write_transform};
use msi_transform::{ErrorConditions, Transform};
use msipkg_format::{Failure, JsonObject, Opened, Output, Shown, Style, System, at_file};
use msipkg_packages::msi::transforms::MakingRefusal;
use msipkg_packages::msi::{CodePage, Package};
use msipkg_packages::{PackageFile, check_way, file_page, is_list, open_package};
use std::alloc::Global;

/// Why no transform is made of packages in which counts were mended, as the library says it of others.
const PAGE_LOST: &str = "a transform can't make the code page of a package neutral";

/// What a flag in the upper half of the summary's property 16 is multiplied by.
const UPPER: u32 = 0x10000;

/// The transform that is made.
#[derive(Clone, Copy)]
pub struct Making<'a> {
    /// The path of its file.
    pub path: &'a str,
    /// Whether a file that is there already is replaced.
    pub is_forced: bool,
    /// What an installation validates before it applies the transform, as a sum of flags.
    pub validated: u32,
    /// Which errors an installation ignores, beside those that it has to.
    pub passing: ErrorConditions,
    /// Whether what it holds is printed as JSON, in place of lines about the file.
    pub is_json: bool,
}

/// A package that was opened, the page that its file names, and whether that is neutral.
struct Side {
    package: Package<Opened>,
    page: Option<i32>,
    is_neutral: bool,
}

/// Written out, so that a function that owns one calls one drop, and its proof doesn't go through those of the parts.
impl Drop for Side {
    fn drop(self) {
        let Side {
            package: _,
            page: _,
            is_neutral: _,
        } = self;
    }
}

/// Makes a file with the transform from one package to another. What it holds and what it leaves out is printed.
///
/// # Errors
/// Fails if a file can't be opened, if there is no transform of the packages, at the table that is the reason where one
/// is, if nothing differs that a transform has, and if the file is there already and isn't to be replaced. Then no file
/// is written.
pub fn make_transform(
    rt: &System,
    style: Style,
    old: &PackageFile<'_>,
    new: &PackageFile<'_>,
    asked: &Making<'_>,
    output: &mut Output,
    notes: &mut Output,
) -> Result<(), Failure> {
    let alloc = rt.alloc();
    at_file(
        alloc,
        asked.path,
        check_way(rt, asked.path, asked.is_forced),
    )?;
    let mut old = side_of(rt, old, notes)?;
    let mut new = match side_of(rt, new, notes) {
        Ok(side) => side,
        Err(failure) => return Err(failure.at(alloc, "file", new.path)),
    };
    name_pages(&mut old, &mut new);
    let mut made = match old.package.transform_to(&mut new.package) {
        Ok(made) => made,
        Err(refusal) => return Err(failure_of(alloc, &new.package, refusal)),
    };
    keep_neutral(&old, &new, &mut made)?;
    let has_page = old.page != new.page;
    if made.tables().len() == 0 && !has_page {
        return Err(Failure::rule("nothing differs that a transform has"));
    }
    let holdings = Holdings::of(alloc, &old.package, &made, has_page)?;
    let left_out = LeftOut::of(alloc, &old.package, &new.package)?;
    let flags = flags_of(&mut old, &mut new, &made, asked);
    let summary = summary_of(alloc, &old.package, &new.package, flags)?;
    let bytes = TransformBytes::of(alloc, made, summary)?.read_again(alloc)?;
    at_file(
        alloc,
        asked.path,
        write_transform(rt, asked.path, asked.is_forced, &bytes),
    )?;
    print_made(alloc, style, asked, &holdings, &left_out, output, notes);
    Ok(())
}

/// Opens a package. If its counts are too low for a transform, as many tools write them, they are mended in memory.
fn side_of(rt: &System, file: &PackageFile<'_>, notes: &mut Output) -> Result<Side, Failure> {
    let page = file_page(rt, file.path)?;
    let mut package = open_package(rt, file, notes)?;
    if is_miscounted(&mut package) {
        // Where this is refused, the transform is too.
        let _mended = package.recount();
    }
    Ok(Side {
        package,
        page,
        is_neutral: page == Some(0) && file.page.is_none(),
    })
}

/// Names the pages of neutral packages, as mending the counts of one does with its page. So both still have the same.
fn name_pages(old: &mut Side, new: &mut Side)
    ensures new { let named = old.old.is_neutral && new.old.is_neutral in
        new.new.package ≡ named_if named new.old.package }
    ensures old { let named = old.old.is_neutral && new.old.is_neutral && takes_page new.old.package in
        old.new.package ≡ named_if named old.old.package }
    ensures page { (old.new.page ≡ old.old.page) × (new.new.page ≡ new.old.page) }
    ensures neutral { (old.new.is_neutral ≡ old.old.is_neutral) × (new.new.is_neutral ≡ new.old.is_neutral) }
{
    if old.is_neutral && new.is_neutral {
        // Where this is refused, the page stays as it is.
        let named = new.package.set_database_codepage(CodePage::Utf8);
        if named.is_ok() {
            let _named = old.package.set_database_codepage(CodePage::Utf8);
        }
    }
}

/// Makes the page neutral again where that of the new package is.
///
/// # Errors
/// Fails if that of the old one isn't: no transform makes it so.
fn keep_neutral(old: &Side, new: &Side, made: &mut Transform) -> Result<(), Failure>
    ensures left { OnOk result (made.new ≡ (if new.now.is_neutral then as_neutral made.old else made.old)) }
    ensures lost { IsTrue (new.now.is_neutral && not old.now.is_neutral) → IsErr result }
    ensures kept { OnErr result (IsTrue (new.now.is_neutral && not old.now.is_neutral)) }
{
    if !new.is_neutral {
        return Ok(());
    }
    if !old.is_neutral {
        return Err(Failure::rule(PAGE_LOST));
    }
    made.make_neutral();
    Ok(())
}

/// Returns the failure of packages of which no transform is made, at the table that is the reason, if one is.
fn failure_of(alloc: Global, new: &Package<Opened>, refusal: MakingRefusal) -> Failure {
    let table = refusal.table();
    let failure = Failure::from(refusal.into_error());
    let Some(place) = table else {
        return failure;
    };
    match new.tables().filter(|table| !is_list(table)).nth(place) {
        Some(table) => failure.at(alloc, "table", table.name()),
        None => failure,
    }
}

/// Returns the flags: what is validated, and which errors are ignored, with that which the packages need: that the file
/// of the old one names another page than the transform, where neither is neutral.
fn flags_of(old: &mut Side, new: &mut Side, made: &Transform, asked: &Making<'_>) -> u32 {
    let mut passing = asked.passing;
    passing.other_page |= old.package.conditions_needed(&mut new.package).other_page;
    passing.other_page |= names_other_page(old.page, made.page_id());
    asked.validated.wrapping_mul(UPPER) | passing.bits()
}

/// Returns whether a page that a file names is another one than that of a transform, and neither is neutral.
fn names_other_page(named: Option<i32>, page_id: u32) -> bool {
    match named {
        Some(named) => named != 0 && page_id != 0 && named.cast_unsigned() != page_id,
        None => false,
    }
}

fn print_made(
    alloc: Global,
    style: Style,
    asked: &Making<'_>,
    holdings: &Holdings,
    left_out: &LeftOut,
    output: &mut Output,
    notes: &mut Output,
) {
    if asked.is_json {
        let mut object = JsonObject::new(alloc);
        object.put_text("file", Some(asked.path));
        holdings.put(&mut object);
        left_out.put(&mut object);
        object.print_line(style, output);
        return;
    }
    write!(notes, "msipkg: {}: ", Shown::escaped(asked.path));
    holdings.write(notes);
    writeln!(notes, "");
    left_out.note(asked.path, notes);
}
