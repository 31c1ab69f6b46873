//! A string pool of no package: what each public call returns, and the bytes that are written and read.

use msi::pool_streams::{
    build_from_data, read_from_pool, read_reference, write_data, write_pool, write_reference,
};
use msi::{CodePage, Error, ErrorKind, Operations, StringPool, StringRef};
use std::alloc::Global;

/// A pool of Windows-1252 that names `Foo` in two cells, and has a free place and long references.
const ENTRIES: &[u8] = &[0xE4, 4, 0, 0x80, 3, 0, 2, 0, 0, 0, 0, 0];

fn pool(alloc: Global) -> Result<StringPool, Error> {
    let mut pool = StringPool::new(alloc, CodePage::Utf8);
    fill(alloc, &mut pool)?;
    pool.clone()
}

fn fill(alloc: Global, pool: &mut StringPool) -> Result<(), Error> {
    take(alloc, pool, "Foo")?;
    let second = take(alloc, pool, "Quux")?;
    take(alloc, pool, "Foo")?;
    pool.set_codepage(CodePage::Windows1252);
    pool.widen();
    pool.decref(second)
}

fn take(alloc: Global, pool: &mut StringPool, text: &str) -> Result<StringRef, Error> {
    pool.incref(String::from_str(alloc, text)?)
}

fn is_pool(pool: &StringPool) -> Result<bool, Error> {
    match read_reference(&mut [1, 0, 0].as_slice(), pool.long_string_refs())? {
        Some(first) => Ok(is_named(pool, first) && is_of_its_page(pool)),
        None => Ok(false),
    }
}

fn is_named(pool: &StringPool, first: StringRef) -> bool {
    let is_first = first.number() == 1 && pool.num_strings() == 2;
    is_first && pool.get(first) == "Foo" && pool.refcount(first) == 2
}

fn is_of_its_page(pool: &StringPool) -> bool {
    pool.codepage() == CodePage::Windows1252 && pool.is_writable()
}

fn is_written(alloc: Global, pool: &StringPool) -> Result<bool, Error> {
    let mut bytes = Vec::new(alloc);
    write_pool(pool, &mut bytes)?;
    let are_entries = bytes.as_slice() == ENTRIES;
    bytes.clear();
    write_data(pool, &mut bytes)?;
    Ok(are_entries && bytes.as_slice() == b"Foo".as_slice())
}

fn is_made(alloc: Global) -> Result<bool, Error> {
    let pool = pool(alloc)?;
    Ok(is_pool(&pool)? && is_written(alloc, &pool)?)
}

/// Whether a pool with indexes stores a text in the free place, and counts its operations.
fn is_counted(alloc: Global) -> Result<bool, Error> {
    let mut operations = Operations::new();
    let mut pool = pool(alloc)?.into_indexed()?;
    let place = pool.incref(String::from_str(alloc, "Bar")?, &mut operations)?;
    let is_few = operations.count() >= 1 && operations.count() <= 8;
    let pool = pool.into_pool();
    Ok(is_few && place.number() == 2 && pool.num_strings() == 2 && pool.get(place) == "Bar")
}

fn is_read(alloc: Global) -> Result<bool, Error> {
    let builder = read_from_pool(alloc, ENTRIES)?;
    is_pool(&build_from_data(alloc, builder, b"Foo".as_slice())?)
}

/// Whether a reference of two bytes that ends early is refused as invalid, and one of three bytes is written.
fn are_references(alloc: Global) -> Result<bool, Error> {
    let mut bytes = Vec::new(alloc);
    write_reference(
        &mut bytes,
        read_reference(&mut [5, 0].as_slice(), false)?,
        true,
    )?;
    let is_refused = match read_reference(&mut [1].as_slice(), false) {
        Ok(_) => false,
        Err(error) => error.kind() == ErrorKind::InvalidData,
    };
    Ok(is_refused && bytes.as_slice() == [5, 0, 0].as_slice())
}

pub(crate) fn a_pool_is_written_and_read_back(alloc: Global) -> Result<bool, Error> {
    Ok(is_made(alloc)? && is_counted(alloc)? && is_read(alloc)? && are_references(alloc)?)
}
