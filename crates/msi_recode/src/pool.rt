//! The pool's two streams, with their texts in UTF-8.

ghost use Rattle.std.specs.Prelude.{◌≡◌, ℕ, ◌++◌, List, [], IfOk, IfErr, OnOk, false};
ghost use Rattle.msi_base.specs.declared.errors.ErrorKind.TheVariants.{InvalidData, OutOfMemory};
ghost use Rattle.msi_pool_places.specs.Pool.{header_of, plain_entry};
ghost use Rattle.msi_recode.specs.Errors.{kind_of};
ghost use Rattle.msi_recode.specs.PoolReading.{ArePut, IsPut, IsTextError, IsTextsError};
ghost use Rattle.msi_recode.specs.PoolRecoding.{AreRecoded, CannotBeRecoded, IsPoolError, is_long};
ghost use Rattle.msi_recode.specs.Readers.{page_of};

use crate::errors::RecodeError;
use crate::head::{LONG, PoolHead};
use crate::page::TextPage;
use crate::reader::TextReader;
use crate::reasons;
use msi_base::fields::{push_u16, push_u32};
use msi_base::{Error, ErrorKind};
use msi_pool_places::{Entries, Entry};
use std::alloc::{AllocError, Global};

/// The id of UTF-8.
const UTF_8: u32 = 65001;

/// The length of a free place's text has 16 bits, and that of another one 32.
const FREE_END: usize = 1 << 16;

const USED_END: usize = 1 << 32;

/// The bytes of a pool's two streams.
#[derive(Debug, Drop)]
pub struct RecodedPool {
    /// The page, and the length and the count of each text (`_StringPool`).
    pub entries: Vec<u8>,
    /// The texts (`_StringData`).
    pub texts: Vec<u8>,
}

/// Returns the two streams of a pool with its texts in UTF-8. Places keep their numbers and counts, and references
/// their width. Texts are read in the page that the first stream names; for page 0 in the one that is given, and as
/// UTF-8 where none is.
///
/// # Errors
/// Fails with `InvalidData` if the first stream doesn't have its form or names an unknown page, if there are more than
/// 16777215 places, if the second stream ends before a text does, if the page has no text for its bytes, or if the text
/// of a free place would have more than 65535 bytes, or another one 2^32. The last three name the place of the text,
/// the first that they are true of. Otherwise fails with `OutOfMemory`, which names none.
pub fn recode_pool(
    alloc: Global,
    given: Option<TextPage>,
    pool_stream: &[u8],
    data_stream: &[u8],
) -> Result<RecodedPool, RecodeError>
    ensures ok { IfOk result (λ pool.
        AreRecoded given pool_stream.now data_stream.now pool.entries.items pool.texts.items) }
    // What can be recoded is recoded, unless memory is refused.
    ensures only { (entries texts : List ℕ) → AreRecoded given pool_stream.now data_stream.now entries texts
        → IfErr result (λ error. kind_of error ≡ OutOfMemory) }
    ensures exact { IfErr result (λ error. IsPoolError given pool_stream.now data_stream.now error) }
    ensures refused { IfErr result (λ error.
        kind_of error ≡ InvalidData → CannotBeRecoded given pool_stream.now data_stream.now) }
{
    let head = PoolHead::read(alloc, given, pool_stream)?;
    let reader = TextReader::new(alloc, head.page())?;
    let mut pool = RecodedPool::start(alloc, head.is_long())?;
    pool.push_places(alloc, &reader, head.entries(), data_stream)?;
    Ok(pool)
}

impl RecodedPool {
    fn start(alloc: Global, is_long: bool) -> Result<RecodedPool, AllocError>
        ensures entries { IfOk result (λ pool. pool.entries.items ≡ header_of 65001 is_long) }
        ensures texts { IfOk result (λ pool. pool.texts.items ≡ []) }
    {
        let mut entries = Vec::new(alloc);
        push_u32(&mut entries, if is_long { UTF_8 + LONG } else { UTF_8 })?;
        Ok(RecodedPool {
            entries,
            texts: Vec::new(alloc),
        })
    }

    fn push_places(
        &mut self,
        alloc: Global,
        reader: &TextReader,
        entries: &Entries,
        bytes: &[u8],
    ) -> Result<(), RecodeError>
        ensures ok { OnOk result (ArePut (page_of reader.now) bytes.now entries.now
            self.old.entries.items self.old.texts.items self.new.entries.items self.new.texts.items) }
        ensures err { IfErr result (λ error. IsTextsError (page_of reader.now) bytes.now entries.now error) }
    {
        let mut rest = bytes;
        for index in 0..entries.len() {
            let entry = entries.entry(index);
            match self.push_place(alloc, reader, &entry, rest) {
                Ok(after) => rest = after,
                Err(error) => return Err(RecodeError::of_place(index, error)),
            }
        }
        Ok(())
    }

    /// Appends the place whose text is in front, and returns the bytes after the text.
    fn push_place<'a>(
        &mut self,
        alloc: Global,
        reader: &TextReader,
        entry: &Entry,
        bytes: &'a [u8],
    ) -> Result<&'a [u8], Error>
        ensures ok { IfOk result (λ rest. IsPut (page_of reader.now) entry.now bytes.now
            self.old.entries.items self.old.texts.items self.new.entries.items self.new.texts.items rest.now) }
        ensures err { IfErr result (λ kind. IsTextError (page_of reader.now) entry.now bytes.now kind) }
    {
        let len = entry.len() as usize;
        if bytes.len() < len {
            return Err(Error::new(ErrorKind::InvalidData, reasons::POOL_DATA));
        }
        let (piece, rest) = bytes.split_at(len);
        let text = reader.decode(alloc, piece)?;
        let text_len = text.as_str().len();
        if is_long(text_len, entry.count()) {
            return Err(Error::new(ErrorKind::InvalidData, reasons::TEXT_LONG));
        }
        push_entry(&mut self.entries, text_len, entry.count())?;
        self.texts.extend_from_slice(text.as_str().as_bytes())?;
        Ok(rest)
    }
}

/// Whether no entry can hold a text's length.
fn is_long(len: usize, count: u16) -> bool
    ensures { result ≡ is_long (record { len = len; count = count }) }
{
    let end = if count == 0 { FREE_END } else { USED_END };
    len >= end
}

/// Appends an entry. A text in use that is empty or has more than 65535 bytes takes the long form.
fn push_entry(held: &mut Vec<u8>, len: usize, count: u16) -> Result<(), AllocError>
    requires { is_long (record { len = len; count = count }) ≡ false }
    ensures { OnOk result (held.new.items ≡ held.old.items ++ plain_entry (record { len = len; count = count })) }
{
    if count == 0 || (0 < len && len < FREE_END) {
        push_u16(held, len as u16)?;
        return push_u16(held, count);
    }
    push_u16(held, 0)?;
    push_u16(held, count)?;
    push_u32(held, len as u32)
}
