//! Whether the texts of a pool in UTF-8 are in their stream as they are.

ghost use Rattle.std.specs.Prelude.{◌≡◌};
ghost use Rattle.std.specs.FinMap.{entries};
ghost use Rattle.msi_transform.specs.TransformFiles.{begin_with_texts as are_in_front, keeps_texts as are_kept};

use msi_base::codepage::CodePage;
use msi_container_format::contents::StreamMap;
use msi_database_schema::names::string_data_key;
use msi_pool::parts::string_ref;
use msi_pool::stringpool::StringPool;

/// Returns whether the stream of texts begins with the pool's texts as they are, one behind another. In another page
/// than UTF-8 texts are stored otherwise, and it returns true.
pub fn keeps_texts(pool: &StringPool, streams: &StreamMap) -> bool
    ensures { result ≡ are_kept pool.now (entries streams.now) }
{
    if pool.codepage() != CodePage::Utf8 {
        return true;
    }
    match streams.get(&string_data_key()) {
        Some(bytes) => begin_with_texts(pool, bytes.as_slice()),
        None => true,
    }
}

fn begin_with_texts(pool: &StringPool, bytes: &[u8]) -> bool
    ensures { result ≡ are_in_front pool.now.places bytes.now }
{
    let mut rest = bytes;
    for at in 0..pool.num_strings() {
        let text = pool.get(string_ref(at + 1));
        match rest.strip_prefix(text.as_bytes()) {
            Some(left) => rest = left,
            None => return false,
        }
    }
    true
}
