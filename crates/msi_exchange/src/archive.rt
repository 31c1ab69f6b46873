//! Text archives as values: a table with its code page, its columns, its keys and its rows.

ghost use Rattle.std.specs.Prelude.{◌≡◌, IfOk};
ghost use Rattle.msi_base.specs.Results.{OnlyMemory};

use crate::type_fields::TypeField;
use msi_base::text::{Items, Text};
use msi_table_values::column::ColumnType;
use msi_table_values::value::Value;
use std::marker::Model;

/// A column, as the first two lines of a text archive name it.
#[derive(Drop)]
pub struct ArchiveColumn {
    name: Text,
    field_type: TypeField,
}

impl Model for ArchiveColumn {
    ghost use Rattle.msi_exchange.specs.Archives.{ArchiveColumnDef};

    ghost Value = { ArchiveColumnDef };

    ghost view = { λ c. record { name = c.name; field_type = c.field_type } };
}

impl ArchiveColumn {
    /// Returns a column of a name and a type, with whether its texts can be localized and whether it takes null.
    pub fn new(
        name: Text,
        coltype: ColumnType,
        is_localizable: bool,
        is_nullable: bool,
    ) -> ArchiveColumn
        ensures { result ≡ record {
          name = name;
          field_type = record { coltype = coltype; is_localizable = is_localizable; is_nullable = is_nullable };
        } }
    {
        ArchiveColumn {
            name,
            field_type: TypeField {
                coltype,
                is_localizable,
                is_nullable,
            },
        }
    }

    /// Returns the column's name.
    pub fn name(&self) -> &str
        ensures { result.now ≡ self.now.name }
    {
        self.name.as_str()
    }

    /// Returns the type of the column.
    pub fn coltype(&self) -> ColumnType
        ensures { result ≡ self.now.field_type.coltype }
    {
        self.field_type.coltype
    }

    /// Returns whether the column's texts can be localized.
    pub fn is_localizable(&self) -> bool
        ensures { result ≡ self.now.field_type.is_localizable }
    {
        self.field_type.is_localizable
    }

    /// Returns whether the column takes null.
    pub fn is_nullable(&self) -> bool
        ensures { result ≡ self.now.field_type.is_nullable }
    {
        self.field_type.is_nullable
    }
}

/// What a text archive says of a table. Whether a table can have these columns and takes these rows isn't asked.
#[derive(Drop)]
pub struct Archive {
    page: Option<u16>,
    table: Text,
    keys: Items<Text>,
    columns: Items<ArchiveColumn>,
    rows: Items<Items<Value>>,
}

impl Model for Archive {
    ghost use Rattle.msi_exchange.specs.Archives.{ArchiveDef};

    ghost Value = { ArchiveDef };

    ghost view = { λ a. record {
      head = record { page = a.page; table = a.table; keys = a.keys };
      columns = a.columns;
      rows = a.rows;
    } };
}

impl Archive {
    /// Returns the archive of a table. The page is the number of a code page, or `None` where the texts are ASCII. The
    /// keys are the names of the key columns, in order. A value of a column of type `Binary` is the name of the file
    /// with the stream's bytes, as a text.
    pub fn new(
        page: Option<u16>,
        table: Text,
        keys: Items<Text>,
        columns: Items<ArchiveColumn>,
        rows: Items<Items<Value>>,
    ) -> Archive
        ensures { result ≡ record {
          head = record { page = page; table = table; keys = keys };
          columns = columns;
          rows = rows;
        } }
    {
        Archive {
            page,
            table,
            keys,
            columns,
            rows,
        }
    }

    /// Returns the number of the code page, if it is named.
    pub fn page(&self) -> Option<u16>
        ensures { result ≡ self.now.head.page }
    {
        self.page
    }

    /// Returns the table's name.
    pub fn table(&self) -> &str
        ensures { result.now ≡ self.now.head.table }
    {
        self.table.as_str()
    }

    /// Returns the names of the key columns, in order.
    pub fn keys(&self) -> &[Text]
        ensures { result.now ≡ self.now.head.keys }
    {
        self.keys.as_slice()
    }

    /// Returns the columns, in order.
    pub fn columns(&self) -> &[ArchiveColumn]
        ensures { result.now ≡ self.now.columns }
    {
        self.columns.as_slice()
    }

    /// Returns the rows, in order. A value of a column of type `Binary` is the name of a file, as a text.
    pub fn rows(&self) -> &[Items<Value>]
        ensures { result.now ≡ self.now.rows }
    {
        self.rows.as_slice()
    }

    /// Returns the rows, which are moved out.
    pub fn into_rows(self) -> Items<Items<Value>>
        ensures { result ≡ self.rows }
    {
        let Archive {
            page: _,
            table: _,
            keys: _,
            columns: _,
            rows,
        } = self;
        rows
    }
}
