//! The three tables that describe tables (MSI SDK, "System tables"): their names and their columns.

ghost use Rattle.std.specs.Prelude.{◌≡◌, IfOk, List, [], ◌∷◌, codes, map, negsuc, pos};
ghost use Rattle.msi_categories.specs.Categories.{all_categories, category_name};
ghost use Rattle.msi_base.specs.Results.{OnlyMemory};
ghost use Rattle.msi_categories.specs.declared.category.Category.TheVariants as categories;
ghost use Rattle.msi_table_values.specs.declared.column.ColumnType.TheVariants as types;
ghost use Rattle.msi_database_schema.specs.System.{columns_columns as columns_of_columns, describing_columns};
ghost use Rattle.msi_database_schema.specs.System.{is_schema_table as is_of_schema, in_range};
ghost use Rattle.msi_database_schema.specs.System.{is_system_table as is_of_system, key, naming_columns, nullable};
ghost use Rattle.msi_database_schema.specs.System.{of_category, one_of, plain_column, referring_columns};
ghost use Rattle.msi_database_schema.specs.System.{tables_columns as columns_of_tables};
ghost use Rattle.msi_database_schema.specs.System.{validation_columns as columns_of_validation};

use msi_base::errors::Error;
use msi_base::text::Items;
use msi_categories::category::Category;
use msi_table_values::column::Column;
use std::alloc::Global;

/// The table that lists tables.
pub const TABLES: &str = "_Tables";

/// The table that lists columns.
pub const COLUMNS: &str = "_Columns";

/// The table that describes columns further.
pub const VALIDATION: &str = "_Validation";

/// The places of the columns of `_Columns`, behind that of the table's name.
pub(crate) const COLUMN_NUMBER: usize = 1;

pub(crate) const COLUMN_NAME: usize = 2;

pub(crate) const COLUMN_TYPE: usize = 3;

/// The places of the columns of `_Validation`, behind those of the table's and the column's name.
pub(crate) const NULLABLE: usize = 2;

pub(crate) const MIN_VALUE: usize = 3;

pub(crate) const MAX_VALUE: usize = 4;

pub(crate) const KEY_TABLE: usize = 5;

pub(crate) const KEY_COLUMN: usize = 6;

pub(crate) const CATEGORY: usize = 7;

pub(crate) const SET: usize = 8;

/// The greatest number of a column of 32-bit numbers.
const GREATEST: i32 = 2147483647;

/// Returns whether a name is `_Tables` or `_Columns`, which are always there.
pub fn is_schema_table(name: &str) -> bool
    ensures { result ≡ is_of_schema name.now }
{
    name == TABLES || name == COLUMNS
}

/// Returns whether a name is that of one of the three tables.
pub fn is_system_table(name: &str) -> bool
    ensures { result ≡ is_of_system name.now }
{
    is_schema_table(name) || name == VALIDATION
}

/// Returns the columns of `_Tables`.
///
/// # Errors
/// Fails with `OutOfMemory`.
pub fn tables_columns(alloc: Global) -> Result<Items<Column>, Error>
    ensures ok { IfOk result (λ columns. columns ≡ columns_of_tables) }
    ensures kind { OnlyMemory result }
{
    let name = Column::build(alloc, "Name")?.primary_key().string(64);
    Ok(Items::from_vec(Vec::from_array(alloc, [name])?))
}

/// Returns the columns of `_Columns`.
///
/// # Errors
/// Fails with `OutOfMemory`.
pub fn columns_columns(alloc: Global) -> Result<Items<Column>, Error>
    ensures ok { IfOk result (λ columns. columns ≡ columns_of_columns) }
    ensures kind { OnlyMemory result }
{
    let columns = [
        Column::build(alloc, "Table")?.primary_key().string(64),
        Column::build(alloc, "Number")?.primary_key().int16(),
        Column::build(alloc, "Name")?.string(64),
        Column::build(alloc, "Type")?.int16(),
    ];
    Ok(Items::from_vec(Vec::from_array(alloc, columns)?))
}

/// Returns the columns of `_Validation`.
///
/// # Errors
/// Fails with `OutOfMemory`.
pub fn validation_columns(alloc: Global) -> Result<Items<Column>, Error>
    ensures ok { IfOk result (λ columns. columns ≡ columns_of_validation) }
    ensures kind { OnlyMemory result }
{
    let mut columns = naming_columns(alloc)?;
    let mut referring = referring_columns(alloc)?;
    let mut describing = describing_columns(alloc)?;
    columns.append(&mut referring)?;
    columns.append(&mut describing)?;
    Ok(Items::from_vec(columns))
}

fn naming_columns(alloc: Global) -> Result<Vec<Column>, Error>
    ensures ok { IfOk result (λ columns. columns.items ≡ naming_columns) }
    ensures kind { OnlyMemory result }
{
    let columns = [
        described_name(alloc, "Table")?,
        described_name(alloc, "Column")?,
        nullable_column(alloc)?,
    ];
    Ok(Vec::from_array(alloc, columns)?)
}

fn referring_columns(alloc: Global) -> Result<Vec<Column>, Error>
    ensures ok { IfOk result (λ columns. columns.items ≡ referring_columns) }
    ensures kind { OnlyMemory result }
{
    let columns = [
        bound_column(alloc, "MinValue")?,
        bound_column(alloc, "MaxValue")?,
        key_table_column(alloc)?,
        key_column_column(alloc)?,
    ];
    Ok(Vec::from_array(alloc, columns)?)
}

fn describing_columns(alloc: Global) -> Result<Vec<Column>, Error>
    ensures ok { IfOk result (λ columns. columns.items ≡ describing_columns) }
    ensures kind { OnlyMemory result }
{
    let columns = [
        category_column(alloc)?,
        text_column(alloc, "Set")?,
        text_column(alloc, "Description")?,
    ];
    Ok(Vec::from_array(alloc, columns)?)
}

fn described_name(alloc: Global, name: &str) -> Result<Column, Error>
    ensures ok { IfOk result (λ column. column
        ≡ key (of_category categories.Identifier (plain_column name.now (types.Str 32)))) }
    ensures kind { OnlyMemory result }
{
    Ok(Column::build(alloc, name)?.primary_key().id_string(32))
}

fn nullable_column(alloc: Global) -> Result<Column, Error>
    ensures ok { IfOk result (λ column. column
        ≡ one_of (codes "Y" ∷ codes "N" ∷ []) (plain_column (codes "Nullable") (types.Str 4))) }
    ensures kind { OnlyMemory result }
{
    let builder = Column::build(alloc, "Nullable")?;
    Ok(builder.enum_values(&["Y", "N"])?.string(4))
}

fn bound_column(alloc: Global, name: &str) -> Result<Column, Error>
    ensures ok { IfOk result (λ column. column
        ≡ nullable (in_range (negsuc 2147483646) (pos 2147483647) (plain_column name.now types.Int32))) }
    ensures kind { OnlyMemory result }
{
    let builder = Column::build(alloc, name)?.nullable();
    Ok(builder.range(-GREATEST, GREATEST).int32())
}

fn key_table_column(alloc: Global) -> Result<Column, Error>
    ensures ok { IfOk result (λ column. column
        ≡ nullable (of_category categories.Identifier (plain_column (codes "KeyTable") (types.Str 255)))) }
    ensures kind { OnlyMemory result }
{
    Ok(Column::build(alloc, "KeyTable")?.nullable().id_string(255))
}

fn key_column_column(alloc: Global) -> Result<Column, Error>
    ensures ok { IfOk result (λ column. column
        ≡ nullable (in_range (pos 1) (pos 32) (plain_column (codes "KeyColumn") types.Int16))) }
    ensures kind { OnlyMemory result }
{
    let builder = Column::build(alloc, "KeyColumn")?.nullable();
    Ok(builder.range(1, 32).int16())
}

fn category_names(alloc: Global) -> Result<Vec<&'static str>, Error>
    ensures ok { IfOk result (λ names. map (λ name. name.now) names.items ≡ map category_name all_categories) }
    ensures kind { OnlyMemory result }
{
    let mut names = Vec::new(alloc);
    for category in Category::all() {
        names.push(category.name())?;
    }
    Ok(names)
}

fn category_column(alloc: Global) -> Result<Column, Error>
    ensures ok { IfOk result (λ column. column
        ≡ nullable (one_of (map category_name all_categories) (plain_column (codes "Category") (types.Str 32)))) }
    ensures kind { OnlyMemory result }
{
    let names = category_names(alloc)?;
    let builder = Column::build(alloc, "Category")?.nullable();
    Ok(builder.enum_values(names.as_slice())?.string(32))
}

fn text_column(alloc: Global, name: &str) -> Result<Column, Error>
    ensures ok { IfOk result (λ column. column
        ≡ nullable (of_category categories.Text (plain_column name.now (types.Str 255)))) }
    ensures kind { OnlyMemory result }
{
    Ok(Column::build(alloc, name)?.nullable().text_string(255))
}
