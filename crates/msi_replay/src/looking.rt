//! Calls that leave a package as it is.

ghost use Rattle.std.specs.Prelude.{◌≡◌, IfOk, map};
ghost use Rattle.std.specs.Option.{option_copied};
ghost use Rattle.msi.specs.Text.Results.{OnlyMemory};
ghost use Rattle.msi.specs.Table.Row.{RowDef};
ghost use Rattle.msi.specs.Query.Rows.{rows_values};
ghost use Rattle.msi.specs.Calls as calls;
ghost use Rattle.msi_replay.specs.Sent.{look_up_sent};
ghost use Rattle.msi_replay.specs.Taken.{Takes};
ghost use Rattle.msi_replay.specs.Told.{answer_told, told};

use crate::answer::Answer;
use crate::call::LookUp;
use crate::streaming::all_names;
use crate::summary::ask_all;
use msi::{
    Column, Error, ErrorKind, Items, Memory, Package, Row, Rows, Select, SummaryProperty, Table,
};
use std::alloc::Global;

fn copied_table(alloc: Global, table: Option<&Table>) -> Result<Option<Table>, Error>
    ensures ok { IfOk result (λ copy. copy ≡ option_copied table.entry) }
    ensures kind { OnlyMemory result }
{
    match table {
        Some(table) => Ok(Some(table.clone(alloc)?)),
        None => Ok(None),
    }
}

fn copied_tables(alloc: Global, tables: &[Table]) -> Result<Items<Table>, Error>
    ensures ok { IfOk result (λ copies. copies ≡ tables.now) }
    ensures kind { OnlyMemory result }
{
    let mut copies = Vec::new(alloc);
    for table in tables {
        copies.push(table.clone(alloc)?)?;
    }
    Ok(Items::from_vec(copies))
}

fn copied_columns(alloc: Global, columns: &[Column]) -> Result<Items<Column>, Error>
    ensures ok { IfOk result (λ copies. copies ≡ columns.now) }
    ensures kind { OnlyMemory result }
{
    let mut copies = Vec::new(alloc);
    for column in columns {
        copies.push(column.clone(alloc)?)?;
    }
    Ok(Items::from_vec(copies))
}

fn all_rows(alloc: Global, rows: Rows<'_>) -> Result<Items<Row>, Error>
    ensures ok { IfOk result (λ all.
        map (λ (row : RowDef). row.values) all ≡ rows_values rows.entry.places rows.entry.rows) }
    ensures kind { OnlyMemory result }
{
    let mut all = Vec::new(alloc);
    for row in rows {
        all.push(row?)?;
    }
    Ok(Items::from_vec(all))
}

pub(crate) fn look_up(
    alloc: Global,
    target: &Package<Memory>,
    question: LookUp,
) -> Result<Result<Answer, ErrorKind>, Error>
    ensures ok { IfOk result (λ answer.
        Takes target.now (look_up_sent question) (told answer_told answer) target.now) }
    ensures kind { OnlyMemory result }
{
    match question {
        LookUp::PackageType => Ok(Ok(Answer::Kind(target.package_type()))),
        LookUp::DatabaseCodepage => Ok(Ok(Answer::Codepage(target.database_codepage()))),
        LookUp::HasTable(name) => Ok(Ok(Answer::Flag(target.has_table(name.as_str())))),
        LookUp::GetTable(name) => {
            let table = copied_table(alloc, target.get_table(name.as_str()))?;
            Ok(Ok(Answer::Table(table)))
        }
        LookUp::Tables => {
            let tables = copied_tables(alloc, target.tables().as_slice())?;
            Ok(Ok(Answer::Tables(tables)))
        }
        LookUp::HasStream(name) => Ok(Ok(Answer::Flag(target.has_stream(name.as_str())))),
        LookUp::Streams => {
            let names = all_names(alloc, target.streams())?;
            Ok(Ok(Answer::Names(names)))
        }
        LookUp::HasDigitalSignature => Ok(Ok(Answer::Flag(target.has_digital_signature()))),
    }
}

pub(crate) fn select(
    alloc: Global,
    target: &Package<Memory>,
    query: Select,
) -> Result<Result<Answer, ErrorKind>, Error>
    ensures ok { IfOk result (λ answer.
        Takes target.now (calls.select_rows query) (told answer_told answer) target.now) }
    ensures kind { OnlyMemory result }
{
    match target.select_rows(query) {
        Ok(rows) => {
            let columns = copied_columns(alloc, rows.columns())?;
            let rows = all_rows(alloc, rows)?;
            Ok(Ok(Answer::Rows(columns, rows)))
        }
        Err(error) => Ok(Err(error.kind())),
    }
}

pub(crate) fn ask_summary(
    alloc: Global,
    target: &Package<Memory>,
    questions: Items<SummaryProperty>,
) -> Result<Result<Answer, ErrorKind>, Error>
    ensures ok { IfOk result (λ answer. Takes target.now (calls.summary_info questions)
        (told answer_told answer) target.now) }
    ensures kind { OnlyMemory result }
{
    let answers = ask_all(alloc, target.summary_info(), questions)?;
    Ok(Ok(Answer::Summary(answers)))
}
