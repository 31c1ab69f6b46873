//! `exec FILE TEXT..`: changes of a package's rows and tables as text.

use crate::applied::{apply_columns, apply_definition, apply_rows};
use crate::outcome::{Carried, Outcome};
use crate::stream_rows::apply_streams;
use msipkg_import::{VALIDATION, add_validation};
use msipkg_packages::msi::{Package, Statement};
use msipkg_packages::output::{Failure, Opened, System};
use msipkg_queries::{
    MarkValue, Written, changes_table, check_marks, mark_count, read_statement, sets_only,
};
use msipkg_statements::definition::{Definition, definition_of, is_definition};
use msipkg_statements::{STORAGES, STREAMS};
use std::alloc::{AllocError, Global};

/// How many characters of a statement a message has at most.
const MOST_SHOWN: usize = 200;

/// A statement that was read.
pub struct PreparedStatement<'a> {
    written: Written<'a>,
    work: Work<'a>,
}

/// Written out, so that a function that owns one calls one drop, and its proof doesn't go through those of the parts.
impl Drop for PreparedStatement<'_> {
    fn drop(self) {
        let PreparedStatement {
            written: _,
            work: _,
        } = self;
    }
}

/// What a statement asks for.
#[derive(Drop)]
enum Work<'a> {
    Rows(Statement),
    /// Rows of `_Validation`, which say more of columns.
    Columns(Statement),
    /// Rows of `_Streams`, which are the streams.
    Streams(Statement),
    Tables(Definition<'a>),
}

/// Reads statements: inserts, updates, deletes and changes of tables. The values take the places of their marks, in
/// order over all statements.
///
/// # Errors
/// Fails if there are more or fewer values than marks, at the first text that is no statement, and if memory is
/// refused.
pub fn prepare_statements<'a>(
    alloc: Global,
    texts: &[&'a str],
    values: &'a [MarkValue],
) -> Result<Vec<PreparedStatement<'a>>, Failure> {
    check_marks(alloc, mark_count_of(alloc, texts)?, values.len())?;
    let mut statements = Vec::with_capacity(alloc, texts.len())?;
    let mut left = values;
    for text in texts {
        let count = mark_count(alloc, text)?;
        let (values, others) = split_values(left, count);
        left = others;
        statements.push(prepared(alloc, Written { text, values })?)?;
    }
    Ok(statements)
}

/// Returns so many values, and the others.
fn split_values(values: &[MarkValue], count: usize) -> (&[MarkValue], &[MarkValue]) {
    match values.split_at_checked(count) {
        Some(parts) => parts,
        None => (values, &[]),
    }
}

/// Returns how many marks texts have.
fn mark_count_of(alloc: Global, texts: &[&str]) -> Result<usize, AllocError> {
    let mut count = 0usize;
    for text in texts {
        count = count.saturating_add(mark_count(alloc, text)?);
    }
    Ok(count)
}

fn prepared<'a>(alloc: Global, written: Written<'a>) -> Result<PreparedStatement<'a>, Failure> {
    match work_of(alloc, written) {
        Ok(work) => Ok(PreparedStatement { written, work }),
        Err(failure) => Err(at_statement(alloc, failure, written.text)),
    }
}

fn work_of<'a>(alloc: Global, written: Written<'a>) -> Result<Work<'a>, Failure> {
    if is_definition(alloc, written.text) {
        return Ok(Work::Tables(definition_of(alloc, written.text)?));
    }
    let statement = read_statement(alloc, written)?;
    if matches!(statement, Statement::Select(_)) {
        return Ok(Work::Rows(statement));
    }
    if changes_table(alloc, written, STORAGES)? {
        return Err(Failure::rule("storages aren't changed; _Storages can only be read"));
    }
    if changes_table(alloc, written, STREAMS)? {
        return Ok(Work::Streams(statement));
    }
    if describes(alloc, written)? {
        return Ok(Work::Columns(statement));
    }
    Ok(Work::Rows(statement))
}

/// Returns whether a statement changes what `_Validation` says of columns. The library itself takes their descriptions
/// alone.
fn describes(alloc: Global, written: Written<'_>) -> Result<bool, AllocError> {
    Ok(changes_table(alloc, written, VALIDATION)? && !sets_only(alloc, written, "Description")?)
}

/// Carries out statements in turn, and adds what each did. Fails at the first whose change is refused. Those in front
/// of it are carried out.
pub(crate) fn carry_out_statements(
    rt: &System,
    package: &mut Package<Opened>,
    statements: Vec<PreparedStatement<'_>>,
    outcome: &mut Outcome,
) -> Result<(), Failure> {
    for statement in statements {
        if matches!(statement.work, Work::Columns(_)) {
            outcome.note_anew();
        }
        outcome.add_carried(statement.carry_out(rt, package)?)?;
    }
    Ok(())
}

impl PreparedStatement<'_> {
    fn carry_out(self, rt: &System, package: &mut Package<Opened>) -> Result<Carried, Failure> {
        let PreparedStatement { written, work } = self;
        let alloc = rt.alloc();
        let carried = match work {
            Work::Rows(statement) => apply_rows(rt, package, statement, written),
            Work::Columns(statement) => apply_columns(rt, package, statement, written),
            Work::Streams(statement) => apply_streams(rt, package, statement, written),
            Work::Tables(definition) => apply_tables(alloc, package, definition),
        };
        match carried {
            Ok(carried) => Ok(carried),
            Err(failure) => Err(at_statement(alloc, failure, written.text)),
        }
    }
}

fn apply_tables(
    alloc: Global,
    package: &mut Package<Opened>,
    definition: Definition<'_>,
) -> Result<Carried, Failure> {
    if matches!(
        definition,
        Definition::Create { .. } | Definition::Add { .. }
    ) {
        add_validation(alloc, package)?;
    }
    apply_definition(alloc, package, definition)
}

fn at_statement(alloc: Global, failure: Failure, text: &str) -> Failure {
    match text.char_indices().nth(MOST_SHOWN) {
        Some((end, _)) => match format!(in alloc; "{}..", text.get(..end).unwrap_or("")) {
            Ok(start) => failure.at(alloc, "statement", start.as_str()),
            Err(_) => failure,
        },
        None => failure.at(alloc, "statement", text),
    }
}
