//! What the pool's first stream says.

ghost use Rattle.std.specs.Prelude.{◌≡◌, ◌⊎◌, ◌<◌, ◌^◌, IfOk, IfErr};
ghost use Rattle.msi_base.specs.Results.{Gives, IsUnlessMemory};
ghost use Rattle.msi_base.specs.declared.errors.ErrorKind.TheVariants.{InvalidData, OutOfMemory};
ghost use Rattle.msi_recode.specs.PoolReading.{header_in};
ghost use Rattle.msi_recode.specs.PoolRecoding as pools;
ghost use Rattle.msi_recode.specs.PoolRecoding.{IsHead};
ghost use Rattle.msi_recode.specs.TextPages.{page_for};

use crate::page::{TextPage, page_for};
use crate::reasons;
use msi_base::fields::u32_at;
use msi_base::{Error, ErrorKind};
use msi_pool_places::Entries;
use std::alloc::Global;
use std::marker::Model;

/// The bit of the header that says that references are long.
pub(crate) const LONG: u32 = 1 << 31;

/// The most places of a pool.
const MAX_PLACES: usize = 16777215;

/// What the first stream says: the page of the texts, whether references are long, and each text's length and count.
#[derive(Drop)]
pub(crate) struct PoolHead {
    page: TextPage,
    long: bool,
    entries: Entries,
}

impl Model for PoolHead {
    ghost use Rattle.msi_recode.specs.PoolRecoding as pools;

    ghost Value = { pools.PoolHead };

    ghost view = { λ h. record { page = h.page; long = h.long; entries = h.entries } };
}

impl PoolHead {
    /// Returns the page that is given where the bytes name page 0. Fails with `InvalidData` if an entry is cut, no page
    /// has the id, or there are more than 16777215 entries.
    pub(crate) fn read(
        alloc: Global,
        given: Option<TextPage>,
        bytes: &[u8],
    ) -> Result<PoolHead, Error>
        ensures found { IfOk result (λ head. IsHead given bytes.now head) }
        ensures only { (head : pools.PoolHead) → IsHead given bytes.now head → IsUnlessMemory result head }
        ensures kinds { IfErr result (λ kind. (kind ≡ InvalidData) ⊎ (kind ≡ OutOfMemory)) }
    {
        let (header, rest) = u32_at(bytes, reasons::POOL_CUT)?;
        let (page, long) = page_of(given, header)?;
        let entries = Entries::read(alloc, rest)?;
        if entries.len() > MAX_PLACES {
            return Err(Error::new(ErrorKind::InvalidData, reasons::POOL_PLACES));
        }
        Ok(PoolHead {
            page,
            long,
            entries,
        })
    }

    pub(crate) fn page(&self) -> TextPage
        ensures { result ≡ self.now.page }
    {
        self.page
    }

    pub(crate) fn is_long(&self) -> bool
        ensures { result ≡ self.now.long }
    {
        self.long
    }

    pub(crate) fn entries(&self) -> &Entries
        ensures { result.now ≡ self.now.entries }
    {
        &self.entries
    }
}

/// Returns the page of a header, and whether references are long.
fn page_of(given: Option<TextPage>, header: u32) -> Result<(TextPage, bool), Error>
    ensures { Gives (λ x. x) result (header_in given header) }
{
    if header < LONG {
        return Ok((known_page(given, header)?, false));
    }
    Ok((known_page(given, header - LONG)?, true))
}

fn known_page(given: Option<TextPage>, id: u32) -> Result<TextPage, Error>
    requires { id < 2 ^ 31 }
    ensures { Gives (λ page. page) result (page_for given id) }
{
    match page_for(given, id) {
        Some(page) => Ok(page),
        None => Err(Error::new(ErrorKind::InvalidData, reasons::POOL_PAGE)),
    }
}
