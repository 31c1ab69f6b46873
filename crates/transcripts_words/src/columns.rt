//! Reads columns, and prints them.

use crate::answers::Answer;
use crate::texts::category;
use crate::words::Words;
use msi_base::errors::Error;
use msi_table::{Column, ColumnBuilder};

/// Reads the columns of a table: `(Number key int16, Word nullable string 50)`. Fails if memory runs out.
pub fn columns(words: &mut Words) -> Result<Vec<Column>, Error> {
    let mut columns = Vec::new(words.alloc);
    let mut goes_on = words.begins_list();
    for _ in 0..words.len() {
        if !goes_on {
            break;
        }
        columns.push(column(words)?)?;
        goes_on = words.goes_on();
    }
    Ok(columns)
}

/// The types of columns, which come last.
static KINDS: [&str; 7] = [
    "int16",
    "int32",
    "binary",
    "string",
    "id_string",
    "text_string",
    "formatted_string",
];

/// Reads a column: its name, its options, and last its type. They are named after the calls of a builder. Fails if
/// memory runs out.
pub fn column(words: &mut Words) -> Result<Column, Error> {
    let mut builder = Column::build(words.alloc, words.name())?;
    for _ in 0..words.len() {
        let word = words.word();
        if KINDS.contains(&word) {
            return Ok(of_kind(builder, words, word));
        }
        builder = with_option(builder, words, word)?;
    }
    words.refuse("a column has no type");
    Ok(builder.int16())
}

fn of_kind(builder: ColumnBuilder, words: &mut Words, kind: &str) -> Column {
    match kind {
        "int16" => builder.int16(),
        "int32" => builder.int32(),
        "binary" => builder.binary(),
        "string" => builder.string(words.count()),
        "id_string" => builder.id_string(words.count()),
        "text_string" => builder.text_string(words.count()),
        _ => builder.formatted_string(words.count()),
    }
}

fn with_option(
    builder: ColumnBuilder,
    words: &mut Words,
    option: &str,
) -> Result<ColumnBuilder, Error> {
    match option {
        "key" => Ok(builder.primary_key()),
        "nullable" => Ok(builder.nullable()),
        "localizable" => Ok(builder.localizable()),
        "range" => Ok(builder.range(words.number(), words.number())),
        "foreign_key" => builder.foreign_key(words.name(), words.number()),
        "category" => Ok(builder.category(category(words))),
        "enum_values" => builder.enum_values(names(words)?.as_slice()),
        _ => {
            words.refuse("a column has no such option");
            Ok(builder)
        }
    }
}

/// Reads names: `("a", "b")`.
fn names<'a>(words: &mut Words<'a>) -> Result<Vec<&'a str>, Error> {
    let mut names = Vec::new(words.alloc);
    let mut goes_on = words.begins_list();
    for _ in 0..words.len() {
        if !goes_on {
            break;
        }
        names.push(words.name())?;
        goes_on = words.goes_on();
    }
    Ok(names)
}

/// Prints columns, each as a line: its name, its type and what else it was built with.
pub fn print_columns(answer: &mut Answer, columns: &[Column]) {
    for column in columns {
        write!(answer, "{} {}", column.name(), column.coltype());
        print_options(answer, column);
        for text in column.enum_values().unwrap_or(&[]) {
            write!(answer, " {:?}", text.as_str());
        }
        answer.push_str("\n");
    }
}

fn print_options(answer: &mut Answer, column: &Column) {
    print_flag(answer, column.is_primary_key(), " key");
    print_flag(answer, column.is_nullable(), " nullable");
    print_flag(answer, column.is_localizable(), " localizable");
    if let Some((least, most)) = column.value_range() {
        write!(answer, " range {least} {most}");
    }
    if let Some((table, number)) = column.foreign_key() {
        write!(answer, " foreign_key {table} {number}");
    }
    if let Some(category) = column.category() {
        write!(answer, " category {}", category.name());
    }
}

fn print_flag(answer: &mut Answer, is_set: bool, word: &str) {
    if is_set {
        answer.push_str(word);
    }
}
