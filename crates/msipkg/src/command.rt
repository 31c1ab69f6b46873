//! What a command asks for, made once from its words.

use crate::asked::Asked;
use msipkg_changes::{
    Change, Destination, Import, Manner, Merging, Transforms, prepare_statements,
};
use msipkg_checks::CheckOptions;
use msipkg_cli::{QUERY_USAGE, Verb};
use msipkg_export::{FileFormat, Target};
use msipkg_format::{Failure, RowFormat};
use msipkg_packages::Folder;
use msipkg_queries::Written;
use msipkg_search::{Referred, Search, Wanted, Way};
use msipkg_show::{Form, Format, Look, Query, read_query};
use msipkg_transforms::{ErrorConditions, Making, conditions_of, validation_of};
use std::alloc::Global;

/// The refusal of streams beside a storage.
const STREAMS_OF_STORAGE: &str = "--storage takes a storage whole: name no streams beside it";

/// A command.
#[derive(Drop)]
pub(crate) enum Command<'a, 'b> {
    /// It looks at the packages of files, one after the other.
    Look {
        files: &'b [&'a str],
        task: Task<'a, 'b>,
    },
    Diff {
        other: &'a str,
        is_json: bool,
    },
    New {
        kind: &'a str,
        page: Option<&'a str>,
        is_forced: bool,
    },
    Change(Change<'a, 'b>),
    /// It makes a new file of a package, with a change made.
    ChangeInto {
        change: Change<'a, 'b>,
        target: Destination<'a>,
    },
    /// It prints a transform, beside the package that it is for.
    ShowTransform {
        base: Option<&'a str>,
        is_json: bool,
    },
    /// It makes the transform of two packages.
    MakeTransform {
        new: &'a str,
        made: Making<'a>,
    },
    /// It carries out the statements of a file.
    Script(&'a str),
    Batch,
    /// Its arguments aren't complete: how it is called.
    Incomplete(&'static str),
}

/// What is done with each package that a command looks at.
#[derive(Drop)]
pub(crate) enum Task<'a, 'b> {
    Info {
        is_json: bool,
    },
    Show(Look<'a, 'b>),
    Storages {
        is_json: bool,
    },
    /// The storage of this path goes to a file, or to the output.
    ExtractStorage {
        path: &'a str,
        target: Folder<'a>,
    },
    Query(Query<'b>),
    Find(Search<'a>),
    /// What refers to a row is printed.
    Refs(Referred<'a>),
    Check {
        options: CheckOptions,
        /// How the package is mended first, if it is.
        mending: Option<Manner>,
    },
    Export {
        tables: &'b [&'a str],
        target: Target<'a>,
    },
    /// It is exported as a line of JSON.
    ExportLine {
        is_lossy: bool,
    },
}

impl<'a, 'b> Command<'a, 'b> {
    /// Returns the command of these words. Its query or its statements are read here, before a file is opened.
    ///
    /// # Errors
    /// Fails at the first text that is no query or no statement, and if memory is refused.
    pub(crate) fn of(alloc: Global, asked: &Asked<'a, 'b>) -> Result<Command<'a, 'b>, Failure> {
        let is_json = asked.has("json");
        Ok(match asked.verb {
            Verb::Info => look(asked, Task::Info { is_json }),
            Verb::Tables => look(asked, Task::Show(Look::Tables { is_json })),
            Verb::Schema => look(asked, Task::Show(schema_of(asked))),
            Verb::Query => query_of(alloc, asked)?,
            Verb::Find => look(asked, Task::Find(search_of(asked))),
            Verb::Refs => look(asked, Task::Refs(referred_of(asked))),
            Verb::Streams => look(asked, Task::Show(Look::Streams { is_json })),
            Verb::Storages => look(asked, Task::Storages { is_json }),
            Verb::Extract => look(asked, extract_of(asked)?),
            Verb::Summary => summary_of(asked),
            Verb::Check => look(asked, check_of(asked)),
            Verb::New => new_of(asked),
            Verb::Add => Command::Change(Change::Add(asked.texts("NAME=PATH"))),
            Verb::Remove => Command::Change(remove_of(asked)),
            Verb::Exec => exec_of(alloc, asked)?,
            Verb::Export => look(asked, export_of(asked)),
            Verb::Import => Command::Change(import_of(asked)),
            Verb::Diff => Command::Diff {
                other: asked.text("OTHER"),
                is_json,
            },
            Verb::ShowTransform => Command::ShowTransform {
                base: asked.option("BASE"),
                is_json,
            },
            Verb::ApplyTransform => apply_of(asked)?,
            Verb::MakeTransform => Command::MakeTransform {
                new: asked.text("NEW"),
                made: making_of(asked)?,
            },
            Verb::Batch => Command::Batch,
        })
    }

    /// Returns the exit status of a command that failed: 2 for those that tell by 1 what they found.
    pub(crate) fn failure_status(&self) -> u8 {
        match self {
            Command::Diff { .. } | Command::Incomplete(_) => 2,
            Command::Look { task, .. } => task.failure_status(),
            Command::New { .. }
            | Command::Change(_)
            | Command::ChangeInto { .. }
            | Command::ShowTransform { .. }
            | Command::MakeTransform { .. }
            | Command::Script(_)
            | Command::Batch => 1,
        }
    }
}

impl<'a, 'b> Task<'a, 'b> {
    pub(crate) fn failure_status(&self) -> u8 {
        match self {
            Task::Check { .. } | Task::Find(_) | Task::Refs(_) => 2,
            Task::Info { .. }
            | Task::Show(_)
            | Task::Storages { .. }
            | Task::ExtractStorage { .. }
            | Task::Query(_)
            | Task::Export { .. }
            | Task::ExportLine { .. } => 1,
        }
    }
}

/// Returns how a package is changed.
pub(crate) fn manner_of(asked: &Asked<'_, '_>) -> Manner {
    Manner {
        is_strict: asked.has("strict"),
        is_verified: !asked.has("no-verify"),
        is_json: asked.has("json"),
        style: asked.style,
    }
}

fn look<'a, 'b>(asked: &Asked<'a, 'b>, task: Task<'a, 'b>) -> Command<'a, 'b> {
    Command::Look {
        files: asked.texts("FILE"),
        task,
    }
}

fn schema_of<'a, 'b>(asked: &Asked<'a, 'b>) -> Look<'a, 'b> {
    Look::Schema {
        names: asked.texts("TABLE"),
        form: if asked.has("json") {
            Form::Json
        } else if asked.has("sql") {
            Form::Sql
        } else {
            Form::Rows
        },
    }
}

/// The last word is the query, and those in front of it are files.
fn query_of<'a, 'b>(alloc: Global, asked: &Asked<'a, 'b>) -> Result<Command<'a, 'b>, Failure> {
    let Some((text, files)) = asked.texts("FILE").split_last() else {
        return Ok(Command::Incomplete(QUERY_USAGE));
    };
    if files.is_empty() {
        return Ok(Command::Incomplete(QUERY_USAGE));
    }
    let written = Written {
        text,
        values: asked.values,
    };
    let query = Query {
        written,
        selection: read_query(alloc, written)?,
        format: format_of(asked),
        style: asked.style,
        has_files: files.len() > 1,
        for_spreadsheets: asked.has("for-spreadsheets"),
    };
    Ok(Command::Look {
        files,
        task: Task::Query(query),
    })
}

/// Returns the format that was asked for, or by default aligned columns on a terminal and tab-separated lines
/// elsewhere.
fn format_of(asked: &Asked<'_, '_>) -> Format {
    match Format::of_name(asked.text("format")) {
        Some(format) => format,
        None if asked.style.is_terminal => Format::Table,
        None => Format::Rows(RowFormat::Tabs),
    }
}

fn search_of<'a>(asked: &Asked<'a, '_>) -> Search<'a> {
    Search {
        wanted: Wanted {
            text: asked.text("TEXT"),
            way: if asked.has("regex") {
                Way::Regex
            } else if asked.has("exact") {
                Way::Whole
            } else {
                Way::Part
            },
            ignores_case: asked.has("ignore-case"),
        },
        has_all: asked.has("all"),
        is_json: asked.has("json"),
    }
}

fn referred_of<'a>(asked: &Asked<'a, '_>) -> Referred<'a> {
    Referred {
        table: asked.text("TABLE"),
        key: asked.text("KEY"),
        is_json: asked.has("json"),
    }
}

/// Returns what is extracted: streams, or the one storage that is named.
fn extract_of<'a, 'b>(asked: &Asked<'a, 'b>) -> Result<Task<'a, 'b>, Failure> {
    let names = asked.texts("NAME");
    let target = Folder {
        path: asked.text("output"),
        is_forced: asked.has("force"),
    };
    match asked.option("storage") {
        Some(_) if !names.is_empty() => Err(Failure::rule(STREAMS_OF_STORAGE)),
        Some(path) => Ok(Task::ExtractStorage { path, target }),
        None => Ok(Task::Show(Look::Extract {
            names,
            folder: target,
        })),
    }
}

/// Properties are printed, unless some are set or cleared.
fn summary_of<'a, 'b>(asked: &Asked<'a, 'b>) -> Command<'a, 'b> {
    let (set, cleared) = (asked.texts("set"), asked.texts("clear"));
    if set.is_empty() && cleared.is_empty() {
        let is_json = asked.has("json");
        return look(asked, Task::Show(Look::Summary { is_json }));
    }
    Command::Change(Change::Properties { set, cleared })
}

fn check_of<'a, 'b>(asked: &Asked<'a, 'b>) -> Task<'a, 'b> {
    Task::Check {
        options: CheckOptions {
            style: asked.style,
            is_json: asked.has("json"),
            is_strict: asked.has("strict"),
        },
        mending: if asked.has("fix") {
            Some(manner_of(asked))
        } else {
            None
        },
    }
}

fn new_of<'a, 'b>(asked: &Asked<'a, 'b>) -> Command<'a, 'b> {
    Command::New {
        kind: asked.text("kind"),
        page: asked.option("page"),
        is_forced: asked.has("force"),
    }
}

fn remove_of<'a, 'b>(asked: &Asked<'a, 'b>) -> Change<'a, 'b> {
    Change::Remove {
        names: asked.texts("NAME"),
        is_signature: asked.has("signature"),
    }
}

fn exec_of<'a, 'b>(alloc: Global, asked: &Asked<'a, 'b>) -> Result<Command<'a, 'b>, Failure> {
    if let Some(path) = asked.option("from") {
        return Ok(Command::Script(path));
    }
    let statements = prepare_statements(alloc, asked.texts("TEXT"), asked.values)?;
    Ok(Command::Change(Change::Execute(statements)))
}

/// The package itself is changed, unless a file is named for the result.
fn apply_of<'a, 'b>(asked: &Asked<'a, 'b>) -> Result<Command<'a, 'b>, Failure> {
    let change = Change::Transforms(Transforms {
        words: asked.texts("T"),
        passing: passing_of(asked)?,
    });
    Ok(match asked.option("output") {
        Some(path) => Command::ChangeInto {
            change,
            target: Destination {
                path,
                is_forced: asked.has("force"),
            },
        },
        None => Command::Change(change),
    })
}

/// Returns which faults are to pass, if that is said.
fn passing_of(asked: &Asked<'_, '_>) -> Result<Option<ErrorConditions>, Failure> {
    if asked.has("strict") {
        return Ok(Some(ErrorConditions::default()));
    }
    match asked.given.get_strs("ignore") {
        Some(words) => Ok(Some(conditions_of(words)?)),
        None => Ok(None),
    }
}

fn making_of<'a>(asked: &Asked<'a, '_>) -> Result<Making<'a>, Failure> {
    Ok(Making {
        path: asked.text("OUT"),
        is_forced: asked.has("force"),
        validated: validation_of(asked.texts("validate"))?,
        passing: conditions_of(asked.texts("ignore"))?,
        is_json: asked.has("json"),
    })
}

fn export_of<'a, 'b>(asked: &Asked<'a, 'b>) -> Task<'a, 'b> {
    if asked.has("each") {
        let is_lossy = asked.has("lossy");
        return Task::ExportLine { is_lossy };
    }
    Task::Export {
        tables: asked.texts("TABLE"),
        target: target_of(asked),
    }
}

/// Returns what an export goes to, where `-` is the output.
fn target_of<'a>(asked: &Asked<'a, '_>) -> Target<'a> {
    Target {
        format: FileFormat::of_name(asked.text("format")).unwrap_or(FileFormat::Json),
        path: asked.option("output").filter(|path| *path != "-"),
        is_forced: asked.has("force"),
        style: asked.style,
        is_lossy: asked.has("lossy"),
        for_spreadsheets: asked.has("for-spreadsheets"),
    }
}

fn import_of<'a, 'b>(asked: &Asked<'a, 'b>) -> Change<'a, 'b> {
    Change::Import(Import {
        paths: asked.texts("PATH"),
        merging: if asked.has("replace") {
            Merging::Replace
        } else if asked.has("update") {
            Merging::Update
        } else {
            Merging::Refuse
        },
        is_lossy: asked.has("lossy"),
    })
}
