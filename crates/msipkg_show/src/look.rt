//! The commands that look at a package: each is lent the one that is opened here.

use crate::extract::{extract_streams, print_stream};
use crate::schema::{Form, print_schema};
use crate::streams::print_streams;
use crate::summary::print_summary;
use crate::tables::print_tables;
use msipkg_format::Style;
use msipkg_looking::{PackageView, look_at, open_to_look};
use msipkg_packages::output::{Failure, Output, System};
use msipkg_packages::{Folder, PackageFile};

/// What is looked at in a package.
#[derive(Clone, Copy)]
pub enum Look<'a, 'b> {
    /// Its tables.
    Tables {
        is_json: bool,
    },
    /// The columns of tables of these names, or of all tables where there is none.
    Schema {
        names: &'b [&'a str],
        form: Form,
    },
    /// Its streams.
    Streams {
        is_json: bool,
    },
    /// The streams of these names, or all where there is none, which go to files of a folder, or one to the output.
    Extract {
        names: &'b [&'a str],
        folder: Folder<'a>,
    },
    /// The properties of its summary.
    Summary {
        is_json: bool,
    },
}

/// Prints what is looked at in the package of a file, or writes it to files, and returns whether all of it can be read.
/// What can't be read, and what isn't as it is asked for, as texts that are recoded or a file with another name than
/// its stream, has a line in `notes`.
///
/// # Errors
/// Fails as `open_to_look` does, and for the summary as `look_at`; if a table or a stream that is named isn't
/// there; if a file is there already and isn't to be replaced; and as the calls of the system do.
pub fn show(
    rt: &System,
    style: Style,
    file: &PackageFile<'_>,
    look: Look<'_, '_>,
    output: &mut Output,
    notes: &mut Output,
) -> Result<bool, Failure> {
    let mut package = open_for(rt, file, look, notes)?;
    let is_read = print_or_write(rt, style, file.path, &mut package, look, output, notes)?;
    Ok(is_read && package.has_summary())
}

/// A summary that is to be printed has to be there.
fn open_for(
    rt: &System,
    file: &PackageFile<'_>,
    look: Look<'_, '_>,
    notes: &mut Output,
) -> Result<PackageView, Failure> {
    match look {
        Look::Summary { .. } => look_at(rt, file, notes),
        Look::Tables { .. } | Look::Schema { .. } | Look::Streams { .. } | Look::Extract { .. } =>
            open_to_look(rt, file, notes),
    }
}

/// Prints what a package has, or writes it to files, and returns whether all of it can be read.
fn print_or_write(
    rt: &System,
    style: Style,
    file: &str,
    package: &mut PackageView,
    look: Look<'_, '_>,
    output: &mut Output,
    notes: &mut Output,
) -> Result<bool, Failure> {
    let alloc = rt.alloc();
    match look {
        Look::Streams { is_json } => {
            print_streams(alloc, style, file, package, is_json, output, notes)
        }
        Look::Tables { is_json } => {
            Ok(print_tables(alloc, style, file, package, is_json, output, notes))
        }
        Look::Extract { names, folder } if folder.is_output() => {
            print_stream(alloc, style, package, names, output)?;
            Ok(true)
        }
        Look::Extract { names, folder } => {
            extract_streams(rt, package, names, folder, notes)?;
            Ok(true)
        }
        Look::Schema { names, form } => {
            print_schema(alloc, style, file, package, names, form, output)?;
            Ok(true)
        }
        Look::Summary { is_json } => {
            if let Some(summary) = package.summary_info() {
                print_summary(alloc, style, file, summary, is_json, output);
            }
            Ok(true)
        }
    }
}
