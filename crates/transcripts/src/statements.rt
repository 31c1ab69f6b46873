//! Calls with a statement, which the library reads.

use crate::session::Session;
use msi::{Error, Expr, Package, Parse, Rows, Statement};
use std::alloc::Global;
use transcripts_words::answers::Answer;
use transcripts_words::counting::Counting;
use transcripts_words::failure::Failure;
use transcripts_words::parsing::print_refusal;
use transcripts_words::rows::{print_names, print_rows, print_values, print_worths};

/// The words that such a call begins with.
pub(crate) static VERBS: [&str; 8] = [
    "SELECT", "INSERT", "UPDATE", "DELETE", "names", "count", "values", "evaluate",
];

/// Runs a statement, `SELECT * FROM Numbers`, or one behind what to print of its rows, as in `values Number SELECT *
/// FROM Numbers`. Prints its answer, or where its text is refused.
pub(crate) fn make(
    alloc: Global,
    session: &mut Session,
    text: &str,
    answer: &mut Answer,
) -> Result<(), Failure> {
    let (verb, rest) = text.split_once(' ').unwrap_or((text, ""));
    let (what, statement) = match verb {
        "names" | "count" => ("", rest),
        "values" => rest.split_once(' ').unwrap_or((rest, "")),
        "evaluate" => rest.split_once(" on ").unwrap_or((rest, "")),
        _ => ("", text),
    };
    match Statement::parse(alloc, statement) {
        Ok(Statement::Select(query)) => {
            let rows = session.package()?.select_rows(query)?;
            print_selected(alloc, answer, rows, verb, what)
        }
        Ok(change) => {
            make_change(session.package_mut()?, change)?;
            answer.push_str("ok");
            Ok(())
        }
        Err(refusal) => print_refusal(refusal, answer),
    }
}

fn make_change(package: &mut Package<Counting>, change: Statement) -> Result<(), Error> {
    match change {
        Statement::Insert(query) => package.insert_rows(query),
        Statement::Update(query) => package.update_rows(query),
        Statement::Delete(query) => package.delete_rows(query),
        Statement::Select(_) => Ok(()),
    }
}

/// Prints rows; or the names of their columns, how many they are, the values of a column, or what an expression is
/// worth on each.
fn print_selected(
    alloc: Global,
    answer: &mut Answer,
    rows: Rows,
    verb: &str,
    what: &str,
) -> Result<(), Failure> {
    match verb {
        "names" => print_names(answer, rows.columns()),
        "count" => write!(answer, "{}", rows.len()),
        "values" => return print_values(alloc, answer, what, rows),
        "evaluate" => match Expr::parse(alloc, what) {
            Ok(expression) => print_worths(alloc, answer, &expression, rows)?,
            Err(refusal) => return print_refusal(refusal, answer),
        },
        _ => return print_rows(answer, rows),
    }
    Ok(())
}
