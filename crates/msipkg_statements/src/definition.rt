//! `CREATE TABLE`, `ALTER TABLE` and `DROP TABLE` as text, in the installer's form.

use crate::tokens::Tokens;
use msipkg_format::{Shown, near_text, said};
use msipkg_packages::check_reserved;
use msipkg_packages::msi::{Column, Error};
use msipkg_packages::output::Failure;
use std::alloc::{AllocError, Global};

/// How many columns a table has at most.
const MOST_COLUMNS: usize = 32;

/// The error of a table with more columns.
const TOO_MANY: &str = "a table has at most 32 columns";

/// The error of a column's name that was there before.
const SAME_NAME: &str = "two columns have the same name";

/// The error of a new column that rows would need values for.
const NOT_NULL: &str = "a column that is added takes null, which the rows have in it";

/// The error of a word that is no type.
const NO_TYPE: &str = "expected CHAR, LONGCHAR, SHORT, LONG or OBJECT";

/// The error of a word that is no length.
const NO_LENGTH: &str = "expected a length";

/// The types without a length, by their names.
const TYPES: [(&str, Kind); 6] = [
    ("LONGCHAR", Kind::Text(0)),
    ("SHORT", Kind::Short),
    ("INT", Kind::Short),
    ("INTEGER", Kind::Short),
    ("LONG", Kind::Long),
    ("OBJECT", Kind::Stream),
];

/// A change of a package's tables.
#[derive(Drop)]
pub enum Definition<'a> {
    Create {
        table: &'a str,
        columns: Vec<Column>,
    },
    /// A column is added behind those of a table.
    Add {
        table: &'a str,
        column: Column,
    },
    Remove {
        table: &'a str,
    },
}

/// A column as a definition describes it.
#[derive(Clone, Copy)]
struct Described<'a> {
    name: &'a str,
    kind: Kind,
    is_nullable: bool,
    is_localizable: bool,
}

/// The type of a column.
#[derive(Clone, Copy)]
enum Kind {
    Short,
    Long,
    Text(usize),
    Stream,
}

/// Returns whether the first word of a text is `CREATE`, `ALTER` or `DROP`.
pub fn is_definition(alloc: Global, text: &str) -> bool {
    let mut tokens = Tokens::new(alloc, text);
    tokens.takes_word("CREATE") || tokens.takes_word("ALTER") || tokens.takes_word("DROP")
}

/// Reads a definition, such as ``CREATE TABLE `T` (`A` CHAR(72) NOT NULL, `B` LONG PRIMARY KEY `A`)``, ``ALTER TABLE
/// `T` ADD `C` SHORT`` or ``DROP TABLE `T` ``.
///
/// # Errors
/// Fails at the first word that is no part of one, if a table or a column can't have its name or is there twice, and if
/// memory is refused.
pub fn definition_of<'a>(alloc: Global, text: &'a str) -> Result<Definition<'a>, Failure> {
    let mut tokens = Tokens::new(alloc, text);
    if tokens.takes_word("CREATE") {
        return creation(alloc, &mut tokens);
    }
    if tokens.takes_word("ALTER") {
        return addition(alloc, &mut tokens);
    }
    tokens.expect_word("DROP", "expected CREATE TABLE, ALTER TABLE or DROP TABLE")?;
    let table = named_table(&mut tokens)?;
    tokens.expect_end()?;
    Ok(Definition::Remove { table })
}

fn named_table<'a>(tokens: &mut Tokens<'a>) -> Result<&'a str, Failure> {
    tokens.expect_word("TABLE", "expected TABLE")?;
    tokens.name()
}

fn creation<'a>(alloc: Global, tokens: &mut Tokens<'a>) -> Result<Definition<'a>, Failure> {
    let table = named_table(tokens)?;
    check_reserved(table)?;
    let columns = columns(alloc, tokens)?;
    tokens.expect_end()?;
    Ok(Definition::Create { table, columns })
}

fn addition<'a>(alloc: Global, tokens: &mut Tokens<'a>) -> Result<Definition<'a>, Failure> {
    let table = named_table(tokens)?;
    tokens.expect_word("ADD", "expected ADD, a column and its type")?;
    let described = described_column(tokens)?;
    tokens.expect_end()?;
    if !described.is_nullable {
        return Err(Failure::rule(NOT_NULL));
    }
    let column = built_column(alloc, &described, false)?;
    Ok(Definition::Add { table, column })
}

fn columns(alloc: Global, tokens: &mut Tokens<'_>) -> Result<Vec<Column>, Failure> {
    let described = described_columns(alloc, tokens)?;
    let keys = keys(alloc, tokens)?;
    built_columns(alloc, described.as_slice(), keys.as_slice())
}

fn described_columns<'a>(
    alloc: Global,
    tokens: &mut Tokens<'a>,
) -> Result<Vec<Described<'a>>, Failure> {
    tokens.expect('(', "expected an opening bracket")?;
    let mut columns = Vec::new(alloc);
    for _ in 0..MOST_COLUMNS {
        let column = described_column(tokens)?;
        if is_described(columns.as_slice(), column.name) {
            return Err(Failure::rule(SAME_NAME));
        }
        columns.push(column)?;
        if !tokens.takes(',') {
            return Ok(columns);
        }
    }
    Err(Failure::rule(TOO_MANY))
}

fn is_described(columns: &[Described<'_>], name: &str) -> bool {
    columns.iter().any(|column| column.name == name)
}

fn described_column<'a>(tokens: &mut Tokens<'a>) -> Result<Described<'a>, Failure> {
    let name = tokens.name()?;
    let kind = column_type(tokens)?;
    let is_nullable = !tokens.takes_word("NOT");
    if !is_nullable {
        tokens.expect_word("NULL", "expected NULL")?;
    }
    let is_localizable = tokens.takes_word("LOCALIZABLE");
    Ok(Described {
        name,
        kind,
        is_nullable,
        is_localizable,
    })
}

fn column_type(tokens: &mut Tokens<'_>) -> Result<Kind, Failure> {
    let start = *tokens;
    let word = tokens.word(NO_TYPE)?;
    if word.eq_ignore_ascii_case("CHAR") || word.eq_ignore_ascii_case("CHARACTER") {
        return Ok(Kind::Text(length(tokens)?));
    }
    for (name, kind) in &TYPES {
        if word.eq_ignore_ascii_case(name) {
            return Ok(*kind);
        }
    }
    Err(start.refuse(NO_TYPE))
}

/// Reads a length in brackets, or returns 0 if there is none.
fn length(tokens: &mut Tokens<'_>) -> Result<usize, Failure> {
    if !tokens.takes('(') {
        return Ok(0);
    }
    let start = *tokens;
    let Ok(length) = tokens.word(NO_LENGTH)?.parse::<usize>() else {
        return Err(start.refuse(NO_LENGTH));
    };
    tokens.expect(')', "expected a closing bracket")?;
    Ok(length)
}

/// Reads the key, and the bracket behind it.
fn keys<'a>(alloc: Global, tokens: &mut Tokens<'a>) -> Result<Vec<&'a str>, Failure> {
    tokens.expect_word("PRIMARY", "expected a comma or PRIMARY KEY")?;
    tokens.expect_word("KEY", "expected KEY")?;
    let names = names(alloc, tokens)?;
    tokens.expect(')', "expected a closing bracket")?;
    Ok(names)
}

fn names<'a>(alloc: Global, tokens: &mut Tokens<'a>) -> Result<Vec<&'a str>, Failure> {
    let mut names = Vec::new(alloc);
    for _ in 0..MOST_COLUMNS {
        names.push(tokens.name()?)?;
        if !tokens.takes(',') {
            return Ok(names);
        }
    }
    Err(Failure::rule(TOO_MANY))
}

/// Builds the columns: first those of the key, in its order, as the installer has them.
fn built_columns(
    alloc: Global,
    described: &[Described<'_>],
    keys: &[&str],
) -> Result<Vec<Column>, Failure> {
    let mut columns = key_columns(alloc, described, keys)?;
    for column in described {
        if !keys.iter().any(|key| *key == column.name) {
            columns.push(built_column(alloc, column, false)?)?;
        }
    }
    Ok(columns)
}

fn key_columns(
    alloc: Global,
    described: &[Described<'_>],
    keys: &[&str],
) -> Result<Vec<Column>, Failure> {
    let mut columns = Vec::new(alloc);
    for key in keys {
        match described.iter().find(|column| column.name == *key) {
            Some(column) => columns.push(built_column(alloc, column, true)?)?,
            None => return Err(said(missing_key(alloc, described, key))),
        }
    }
    Ok(columns)
}

fn missing_key(
    alloc: Global,
    described: &[Described<'_>],
    key: &str,
) -> Result<String, AllocError> {
    let mut names = Vec::new(alloc);
    for column in described {
        names.push(column.name)?;
    }
    let near = near_text(alloc, key, names.as_slice())?;
    let key = Shown::escaped(key);
    format!(in alloc; "column {key} of the key isn't there{near}")
}

fn built_column(alloc: Global, described: &Described<'_>, is_key: bool) -> Result<Column, Error> {
    let mut builder = Column::build(alloc, described.name)?;
    if is_key {
        builder = builder.primary_key();
    }
    if described.is_nullable {
        builder = builder.nullable();
    }
    if described.is_localizable {
        builder = builder.localizable();
    }
    Ok(match described.kind {
        Kind::Short => builder.int16(),
        Kind::Long => builder.int32(),
        Kind::Text(length) => builder.string(length),
        Kind::Stream => builder.binary(),
    })
}
