//! Commands that look at packages: an error in one is printed, and the others go on.

use crate::asked::Asked;
use crate::command::Task;
use crate::commands::{report, with_input};
use msipkg_changes::mend_counts;
use msipkg_checks::{Checked, check_file};
use msipkg_export::{export, export_line};
use msipkg_format::{Failure, Output, System, failure_json};
use msipkg_packages::Purpose;
use msipkg_search::{Found, find_references, find_values};
use msipkg_show::{LastNames, Look, extract_storage, print_query, show, show_info, show_storages};
use std::alloc::Global;

/// Looks at each file, and returns the greatest of their exit statuses. As JSON each file has one line, with its error
/// as `error`.
pub(crate) fn look_at_each(
    rt: &System,
    asked: &Asked<'_, '_>,
    files: &[&str],
    task: &Task<'_, '_>,
    output: &mut Output,
    errors: &mut Output,
) -> Result<u8, Failure> {
    let status = look_at_files(rt, asked, files, task, output, errors)?;
    match task {
        // With --each the words behind the first are files, too.
        Task::ExportLine { .. } => {
            let others = asked.texts("TABLE");
            Ok(status.max(look_at_files(rt, asked, others, task, output, errors)?))
        }
        Task::Info { .. }
        | Task::Show(_)
        | Task::Storages { .. }
        | Task::ExtractStorage { .. }
        | Task::Query(_)
        | Task::Find(_)
        | Task::Refs(_)
        | Task::Check { .. }
        | Task::Export { .. } => Ok(status),
    }
}

fn look_at_files(
    rt: &System,
    asked: &Asked<'_, '_>,
    files: &[&str],
    task: &Task<'_, '_>,
    output: &mut Output,
    errors: &mut Output,
) -> Result<u8, Failure> {
    let rt = with_input(rt, files)?;
    let mut names = LastNames::new(rt.alloc());
    let mut status = 0u8;
    for file in files {
        status = status.max(look_or_report(&rt, asked, task, file, &mut names, output, errors));
        if output.has_failed() {
            break;
        }
    }
    Ok(status)
}

/// An error of the output isn't reported here, but where the output ends.
fn look_or_report(
    rt: &System,
    asked: &Asked<'_, '_>,
    task: &Task<'_, '_>,
    file: &str,
    names: &mut LastNames,
    output: &mut Output,
    errors: &mut Output,
) -> u8 {
    write_head(asked, task, file, output);
    match look(rt, asked, task, file, names, output, errors) {
        Ok(status) => status,
        Err(failure) => {
            if !output.has_failed() {
                report_one(rt.alloc(), asked, task, file, &failure, output, errors);
            }
            task.failure_status()
        }
    }
}

/// Writes the path of a file above what `info` prints of it, if there are several files.
fn write_head(asked: &Asked<'_, '_>, task: &Task<'_, '_>, file: &str, output: &mut Output) {
    let is_alone = asked.texts("FILE").len() < 2;
    if !is_alone && matches!(task, Task::Info { is_json: false }) {
        writeln!(output, "file: {}", asked.style.show(file));
    }
}

/// Looks at a package, and returns the exit status for what was found.
fn look(
    rt: &System,
    asked: &Asked<'_, '_>,
    task: &Task<'_, '_>,
    path: &str,
    names: &mut LastNames,
    output: &mut Output,
    errors: &mut Output,
) -> Result<u8, Failure> {
    let file = asked.package(path, Purpose::Look);
    let is_well = match task {
        Task::Info { is_json } => show_info(rt, asked.style, &file, *is_json, output, errors)?,
        Task::Show(look) => show(rt, asked.style, &file, *look, output, errors)?,
        Task::Storages { is_json } => {
            show_storages(rt, asked.style, path, *is_json, output)?;
            true
        }
        Task::ExtractStorage {
            path: storage,
            target,
        } => {
            extract_storage(rt, asked.style, path, storage, *target, output)?;
            true
        }
        Task::Query(query) => print_query(rt, &file, query, names, output, errors)?,
        Task::Find(search) => {
            let found = find_values(rt, asked.style, &file, *search, output, errors)?;
            return Ok(found_status(found));
        }
        Task::Refs(referred) => {
            let found = find_references(rt, asked.style, &file, *referred, output, errors)?;
            return Ok(found_status(found));
        }
        Task::Check { options, mending } => {
            if let Some(manner) = mending {
                // Checking the package afterwards notes where its texts are still recoded.
                let purpose = asked.purpose_of_change(Purpose::RecodeSilently);
                mend_counts(rt, &asked.package(path, purpose), *manner, errors)?;
            }
            return Ok(checked_status(check_file(rt, *options, &file, output, errors)?));
        }
        Task::Export { tables, target } => export(rt, &file, tables, target, output, errors)?,
        Task::ExportLine { is_lossy } => {
            export_line(rt, asked.style, &file, *is_lossy, output, errors)?
        }
    };
    Ok(u8::from(!is_well))
}

fn checked_status(checked: Checked) -> u8 {
    match checked {
        Checked::Sound => 0,
        Checked::Faulty => 1,
        Checked::Incomplete => 2,
    }
}

fn found_status(found: Found) -> u8 {
    match found {
        Found::Something => 0,
        Found::Nothing => 1,
        Found::Incomplete => 2,
    }
}

fn report_one(
    alloc: Global,
    asked: &Asked<'_, '_>,
    task: &Task<'_, '_>,
    file: &str,
    failure: &Failure,
    output: &mut Output,
    errors: &mut Output,
) {
    let is_json = match task {
        Task::Info { is_json } => *is_json,
        Task::Check { options, .. } => options.is_json,
        Task::ExportLine { .. } => true,
        Task::Show(
            Look::Tables { .. }
            | Look::Schema { .. }
            | Look::Streams { .. }
            | Look::Extract { .. }
            | Look::Summary { .. },
        )
        | Task::Storages { .. }
        | Task::ExtractStorage { .. }
        | Task::Query(_)
        | Task::Find(_)
        | Task::Refs(_)
        | Task::Export { .. } => false,
    };
    if is_json {
        failure_json(alloc, file, failure).print_line(asked.style, output);
    } else {
        report(file, failure, errors);
    }
}
