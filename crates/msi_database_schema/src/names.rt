//! The names of a package's streams in its container, and which names tables and streams may have.

ghost use Rattle.std.specs.Prelude.{◌≡◌, ◌&&◌, IsSome, IsTrue, chars, length, nat_le, true};
ghost use Rattle.msi_categories.specs.CategoryRules.{is_identifier};
ghost use Rattle.msi_container_format.specs.Names.{is_name_length, named, units_of};
ghost use Rattle.msi_container_format.specs.StreamNames.{encoded_units};
ghost use Rattle.msi_database_schema.specs.Keys.{document_summary_key as document_summary_of};
ghost use Rattle.msi_database_schema.specs.Keys.{is_pool_name as is_of_pool, is_stream_name as is_of_stream};
ghost use Rattle.msi_database_schema.specs.Keys.{is_table_name as is_of_table, signature_ex_key as signature_ex_of};
ghost use Rattle.msi_database_schema.specs.Keys.{signature_key as signature_of, string_data_name, string_pool_name};
ghost use Rattle.msi_database_schema.specs.Keys.{summary_key as summary_of, table_key as key_of_table};

use msi_categories::category::Category;
use msi_container_format::name::Name;
use msi_container_format::parts::packed_name;
use msi_container_format::streamname::{
    DIGITAL_SIGNATURE_STREAM_NAME, DOCUMENT_SUMMARY_INFO_STREAM_NAME,
    MSI_DIGITAL_SIGNATURE_EX_STREAM_NAME, SUMMARY_INFO_STREAM_NAME, is_valid,
};

/// The table whose stream tells the pool's page and the lengths and counts of its texts.
pub const STRING_POOL: &str = "_StringPool";

/// The table whose stream has the bytes of the pool's texts.
pub const STRING_DATA: &str = "_StringData";

/// Returns whether a name is that of one of the pool's two streams.
pub fn is_pool_name(name: &str) -> bool
    ensures { result ≡ is_of_pool name.now }
{
    name == STRING_POOL || name == STRING_DATA
}

/// Returns whether a stream beside the tables may have this name. It takes no memory.
pub fn is_stream_name(name: &str) -> bool
    ensures { result ≡ is_of_stream name.now }
{
    is_valid(name, false)
}

/// Returns whether a table may have this name: an identifier whose stream's name fits a container, and none of the
/// pool's. It takes no memory.
pub fn is_table_name(name: &str) -> bool
    ensures { result ≡ is_of_table name.now }
{
    is_short_identifier(name) && !is_pool_name(name)
}

fn is_short_identifier(name: &str) -> bool
    ensures { result ≡ (is_identifier name.now && nat_le (encoded_units true (chars name.now)) 31) }
{
    if !Category::Identifier.validate(name) {
        return false;
    }
    is_valid(name, true)
}

/// Returns the container's name of a table's stream. A name that no table may have can be too long for one: such a
/// table, which only a foreign package describes, has no stream. It takes no memory.
pub fn table_key(name: &str) -> Option<Name>
    ensures value { result ≡ named (key_of_table name.now) }
    ensures accepted { IsTrue (is_of_table name.now) → IsSome result }
{
    packed_name(name, true)
}

/// Returns the container's name of the stream of a table whose name isn't too long for one, which `table_key` checks.
/// It takes no memory.
pub fn short_table_key(name: &str) -> Name
    requires { is_name_length (length (key_of_table name.now)) ≡ true }
    ensures { result ≡ key_of_table name.now }
{
    table_key(name).unwrap()
}

/// Returns the container's name of the pool's first stream. It takes no memory.
pub fn string_pool_key() -> Name
    ensures { result ≡ key_of_table string_pool_name }
{
    short_table_key(STRING_POOL)
}

/// Returns the container's name of the stream of the pool's texts. It takes no memory.
pub fn string_data_key() -> Name
    ensures { result ≡ key_of_table string_data_name }
{
    short_table_key(STRING_DATA)
}

fn fixed_name(text: &str) -> Name
    requires { IsTrue (is_name_length (length (units_of text.now))) }
    ensures { result ≡ units_of text.now }
{
    Name::new(text).unwrap()
}

/// Returns the container's name of the summary information. It takes no memory.
pub fn summary_key() -> Name
    ensures { result ≡ summary_of }
{
    fixed_name(SUMMARY_INFO_STREAM_NAME)
}

/// Returns the container's name of a document's summary information. It takes no memory.
pub fn document_summary_key() -> Name
    ensures { result ≡ document_summary_of }
{
    fixed_name(DOCUMENT_SUMMARY_INFO_STREAM_NAME)
}

/// Returns the container's name of the digital signature. It takes no memory.
pub fn signature_key() -> Name
    ensures { result ≡ signature_of }
{
    fixed_name(DIGITAL_SIGNATURE_STREAM_NAME)
}

/// Returns the container's name of what extends a signature. It takes no memory.
pub fn signature_ex_key() -> Name
    ensures { result ≡ signature_ex_of }
{
    fixed_name(MSI_DIGITAL_SIGNATURE_EX_STREAM_NAME)
}
