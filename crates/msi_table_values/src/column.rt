//! Columns.

ghost use Rattle.std.specs.Prelude.{◌≡◌, ◌≤◌, IfOk, Some, true, map, option_map, ◌||◌};
ghost use Rattle.msi_categories.specs.declared.category.Category.TheVariants as category_of;
ghost use Rattle.msi_base.specs.Results.{OnlyMemory};
ghost use Rattle.msi_table_values.specs.Columns.{begun_column, some_texts, type_name};
ghost use Rattle.msi_table_values.specs.Columns.{is_of_category_binary as is_binary};
ghost use Rattle.msi_table_values.specs.declared.column.ColumnType.TheVariants as type_of;

use crate::shared_texts::SharedTexts;
use crate::texts::copied_list;
use msi_base::errors::Error;
use msi_base::shared_text::SharedText;
use msi_base::text::{IntoText, Text};
use msi_categories::category::Category;
use std::alloc::Global;
use std::fmt;
use std::marker::Model;

/// The type of a column.
#[derive(Clone, Copy, PartialEq, Eq, Debug, Drop)]
pub enum ColumnType {
    /// Numbers of 16 bits, but the least, whose cell would read as null.
    Int16,
    /// Numbers of 32 bits, but the least, whose cell would read as null.
    Int32,
    /// Texts of at most so many characters; 0 sets no limit.
    Str(usize),
    /// Streams, whose bytes stand outside the table.
    Binary,
}

/// Writes the type as SQL names it: `SMALLINT`, `INTEGER`, `VARCHAR(n)` with the length in decimal, or `BINARY`.
impl fmt::Display for ColumnType {
    ghost output = { λ coltype. Some (type_name coltype) };

    fn fmt<W: fmt::Write>(&self, f: &mut fmt::Formatter<W>) -> fmt::Result {
        match self {
            ColumnType::Int16 => f.write_str("SMALLINT"),
            ColumnType::Int32 => f.write_str("INTEGER"),
            ColumnType::Str(length) => write!(f, "VARCHAR({length})"),
            ColumnType::Binary => f.write_str("BINARY"),
        }
    }
}

/// A column. A contract sees its definition. Its copies share its texts.
pub struct Column {
    name: SharedText,
    coltype: ColumnType,
    is_localizable: bool,
    is_nullable: bool,
    is_primary_key: bool,
    value_range: Option<(i32, i32)>,
    foreign_key: Option<(SharedText, i32)>,
    category: Option<Category>,
    enum_values: SharedTexts,
}

/// Written out, so that a function that owns one calls one drop, and its proof doesn't go through those of the parts.
impl Drop for Column {
    fn drop(self) {
        let Column {
            name: _,
            coltype: _,
            is_localizable: _,
            is_nullable: _,
            is_primary_key: _,
            value_range: _,
            foreign_key: _,
            category: _,
            enum_values: _,
        } = self;
    }
}

impl Model for Column {
    ghost use Rattle.msi_table_values.specs.Columns.{ColumnDef};

    ghost Value = { ColumnDef };

    ghost view = { λ c. record {
      name = c.name;
      coltype = c.coltype;
      is_localizable = c.is_localizable;
      is_nullable = c.is_nullable;
      is_primary_key = c.is_primary_key;
      value_range = c.value_range;
      foreign_key = c.foreign_key;
      category = c.category;
      enum_values = c.enum_values;
    } };
}

impl Column {
    /// Starts a column with a name.
    ///
    /// # Errors
    /// Fails with `OutOfMemory`.
    pub fn build<S: IntoText>(alloc: Global, name: S) -> Result<ColumnBuilder, Error>
        ensures ok { IfOk result (λ builder. builder ≡ begun_column (S.text name)) }
        ensures kind { OnlyMemory result }
    {
        let column = Column {
            name: name.into_shared(alloc)?,
            coltype: ColumnType::Int16,
            is_localizable: false,
            is_nullable: false,
            is_primary_key: false,
            value_range: None,
            foreign_key: None,
            category: None,
            enum_values: SharedTexts::new(),
        };
        Ok(ColumnBuilder { alloc, column })
    }

    /// Returns the column's name.
    pub fn name(&self) -> &str
        ensures { result.now ≡ self.now.name }
    {
        self.name.as_str()
    }

    /// Returns the type of the column.
    pub fn coltype(&self) -> ColumnType
        ensures { result ≡ self.now.coltype }
    {
        self.coltype
    }

    /// Returns whether the column's texts can be localized.
    pub fn is_localizable(&self) -> bool
        ensures { result ≡ self.now.is_localizable }
    {
        self.is_localizable
    }

    /// Returns whether the column takes null.
    pub fn is_nullable(&self) -> bool
        ensures { result ≡ self.now.is_nullable }
    {
        self.is_nullable
    }

    /// Returns whether the column is part of the primary key.
    pub fn is_primary_key(&self) -> bool
        ensures { result ≡ self.now.is_primary_key }
    {
        self.is_primary_key
    }

    /// Returns the least and the greatest number that the column takes, if they are set.
    pub fn value_range(&self) -> Option<(i32, i32)>
        ensures { result ≡ self.now.value_range }
    {
        self.value_range
    }

    /// Returns the table and the number of the key column, from 1 on, that the column refers to, if they are set.
    pub fn foreign_key(&self) -> Option<(&str, i32)>
        ensures { option_map (λ key. (key.0.now, key.1)) result ≡ self.now.foreign_key }
    {
        match &self.foreign_key {
            Some((table, column)) => Some((table.as_str(), *column)),
            None => None,
        }
    }

    /// Returns what the column's texts are for, if that is set.
    pub fn category(&self) -> Option<Category>
        ensures { result ≡ self.now.category }
    {
        self.category
    }

    /// Returns the texts that the column takes, if they are listed.
    pub fn enum_values(&self) -> Option<&[Text]>
        ensures { option_map (λ texts. texts.now) result ≡ some_texts self.now.enum_values }
    {
        let texts = self.enum_values.as_slice();
        if texts.is_empty() { None } else { Some(texts) }
    }

    /// Returns a copy of the column.
    ///
    /// # Errors
    /// Fails with `OutOfMemory`.
    pub fn clone(&self, _alloc: Global) -> Result<Column, Error>
        ensures ok { IfOk result (λ column. column ≡ self.now) }
        ensures kind { OnlyMemory result }
    {
        self.renamed(self.name.clone()?)
    }

    pub(crate) fn renamed(&self, name: SharedText) -> Result<Column, Error>
        ensures ok { IfOk result (λ column. column ≡ record self.now { name = name }) }
        ensures kind { OnlyMemory result }
    {
        let foreign_key = match &self.foreign_key {
            Some((table, column)) => Some((table.clone()?, *column)),
            None => None,
        };
        Ok(Column {
            name,
            coltype: self.coltype,
            is_localizable: self.is_localizable,
            is_nullable: self.is_nullable,
            is_primary_key: self.is_primary_key,
            value_range: self.value_range,
            foreign_key,
            category: self.category,
            enum_values: self.enum_values.clone()?,
        })
    }

    pub(crate) fn nullable(self) -> Column
        ensures { result ≡ record self { is_nullable = true } }
    {
        let mut column = self;
        column.is_nullable = true;
        column
    }

    /// Whether the column's cells stand for streams, which have no order.
    pub(crate) fn is_of_category_binary(&self) -> bool
        ensures { result ≡ is_binary self.now.category }
    {
        match self.category {
            Some(Category::Binary) => true,
            _ => false,
        }
    }
}

/// A column whose type isn't set yet. A contract sees the column's definition.
#[derive(Drop)]
pub struct ColumnBuilder {
    alloc: Global,
    column: Column,
}

impl Model for ColumnBuilder {
    ghost use Rattle.msi_table_values.specs.Columns.{ColumnDef};

    ghost Value = { ColumnDef };

    ghost view = { λ b. b.column };
}

impl ColumnBuilder {
    /// Lets the column's texts be localized.
    pub fn localizable(self) -> ColumnBuilder
        ensures { result ≡ record self { is_localizable = true } }
    {
        let ColumnBuilder { alloc, mut column } = self;
        column.is_localizable = true;
        ColumnBuilder { alloc, column }
    }

    /// Lets the column take null.
    pub fn nullable(self) -> ColumnBuilder
        ensures { result ≡ record self { is_nullable = true } }
    {
        let ColumnBuilder { alloc, mut column } = self;
        column.is_nullable = true;
        ColumnBuilder { alloc, column }
    }

    /// Makes the column part of the primary key.
    pub fn primary_key(self) -> ColumnBuilder
        ensures { result ≡ record self { is_primary_key = true } }
    {
        let ColumnBuilder { alloc, mut column } = self;
        column.is_primary_key = true;
        ColumnBuilder { alloc, column }
    }

    /// Lets the column take numbers from `min` to `max` alone, both included.
    pub fn range(self, min: i32, max: i32) -> ColumnBuilder
        ensures { result ≡ record self { value_range = Some (min, max) } }
    {
        let ColumnBuilder { alloc, mut column } = self;
        column.value_range = Some((min, max));
        ColumnBuilder { alloc, column }
    }

    /// Makes the column refer to a key column of a table by that column's number, from 1 on.
    ///
    /// # Errors
    /// Fails with `OutOfMemory`.
    pub fn foreign_key<S: IntoText>(self, table: S, column: i32) -> Result<ColumnBuilder, Error>
        ensures ok { IfOk result (λ builder. builder ≡ record self { foreign_key = Some (S.text table, column) }) }
        ensures kind { OnlyMemory result }
    {
        let ColumnBuilder {
            alloc,
            column: mut referring,
        } = self;
        referring.foreign_key = Some((table.into_shared(alloc)?, column));
        Ok(ColumnBuilder {
            alloc,
            column: referring,
        })
    }

    /// Gives the column's texts a category.
    pub fn category(self, category: Category) -> ColumnBuilder
        ensures { result ≡ record self { category = Some category } }
    {
        let ColumnBuilder { alloc, mut column } = self;
        column.category = Some(category);
        ColumnBuilder { alloc, column }
    }

    /// Lets the column take these texts alone; where none is listed, all texts.
    ///
    /// # Errors
    /// Fails with `OutOfMemory`.
    pub fn enum_values(self, texts: &[&str]) -> Result<ColumnBuilder, Error>
        ensures ok { IfOk result (λ builder. builder ≡ record self { enum_values = map (λ text. text.now) texts.now }) }
        ensures kind { OnlyMemory result }
    {
        let ColumnBuilder { alloc, mut column } = self;
        column.enum_values = SharedTexts::from_items(copied_list(alloc, texts)?)?;
        Ok(ColumnBuilder { alloc, column })
    }

    /// Restricts the column to these texts, which it shares.
    pub(crate) fn shared_values(self, texts: SharedTexts) -> ColumnBuilder
        ensures { result ≡ record self { enum_values = texts } }
    {
        let ColumnBuilder { alloc, mut column } = self;
        column.enum_values = texts;
        ColumnBuilder { alloc, column }
    }

    /// Ends the builder with a column of 16-bit numbers.
    pub fn int16(self) -> Column
        ensures { result ≡ record self { coltype = type_of.Int16 } }
    {
        self.with_type(ColumnType::Int16)
    }

    /// Ends the builder with a column of 32-bit numbers.
    pub fn int32(self) -> Column
        ensures { result ≡ record self { coltype = type_of.Int32 } }
    {
        self.with_type(ColumnType::Int32)
    }

    /// Ends the builder with a column of texts of at most so many characters; 0 sets no limit.
    pub fn string(self, length: usize) -> Column
        ensures { result ≡ record self { coltype = type_of.Str length } }
    {
        self.with_type(ColumnType::Str(length))
    }

    /// Ends the builder with a column of texts of the category `Identifier`, of at most so many characters; 0 sets no
    /// limit.
    pub fn id_string(self, length: usize) -> Column
        ensures { result ≡ record self { coltype = type_of.Str length; category = Some category_of.Identifier } }
    {
        self.category(Category::Identifier).string(length)
    }

    /// Ends the builder with a column of texts of the category `Text`, of at most so many characters; 0 sets no
    /// limit.
    pub fn text_string(self, length: usize) -> Column
        ensures { result ≡ record self { coltype = type_of.Str length; category = Some category_of.Text } }
    {
        self.category(Category::Text).string(length)
    }

    /// Ends the builder with a column of texts of the category `Formatted`, of at most so many characters; 0 sets no
    /// limit.
    pub fn formatted_string(self, length: usize) -> Column
        ensures { result ≡ record self { coltype = type_of.Str length; category = Some category_of.Formatted } }
    {
        self.category(Category::Formatted).string(length)
    }

    /// Ends the builder with a column whose cells stand for streams, of the category `Binary`.
    pub fn binary(self) -> Column
        ensures { result ≡ record self { coltype = type_of.Binary; category = Some category_of.Binary } }
    {
        self.category(Category::Binary)
            .with_type(ColumnType::Binary)
    }

    /// Returns the column of a type with its flags. It is nullable by the flag or as it was.
    pub(crate) fn with_flags(
        self,
        coltype: ColumnType,
        localizable: bool,
        nullable: bool,
        primary_key: bool,
    ) -> Column
        ensures { result ≡ record self {
          coltype = coltype;
          is_localizable = localizable;
          is_nullable = nullable || self.is_nullable;
          is_primary_key = primary_key;
        } }
    {
        let ColumnBuilder {
            alloc: _,
            mut column,
        } = self;
        column.coltype = coltype;
        column.is_localizable = localizable;
        column.is_nullable = nullable || column.is_nullable;
        column.is_primary_key = primary_key;
        column
    }

    fn with_type(self, coltype: ColumnType) -> Column
        ensures { result ≡ record self { coltype = coltype } }
    {
        let ColumnBuilder {
            alloc: _,
            mut column,
        } = self;
        column.coltype = coltype;
        column
    }
}
