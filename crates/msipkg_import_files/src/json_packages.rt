//! Packages from JSON, as `export` writes them.

use crate::given::{Given, GivenStream, page_of};
use crate::json_tables::table_of;
use crate::places::at_part;
use base64::DecodeAllocError;
use base64::engine::general_purpose::STANDARD;
use msi_base::CodePage;
use msi_summary::SummaryProperty;
use msipkg_format::{Failure, StoredProperty};
use serde_json::Value;
use std::alloc::{AllocError, Global};

pub(crate) fn read_json(
    alloc: Global,
    path: &str,
    bytes: &[u8],
    given: &mut Given,
) -> Result<(), Failure> {
    match Value::from_slice(alloc, bytes) {
        Ok(package) => read_package(alloc, path, &package, given),
        Err(error) => Err(Failure::shown(alloc, &error)),
    }
}

fn read_package(
    alloc: Global,
    path: &str,
    package: &Value,
    given: &mut Given,
) -> Result<(), Failure> {
    let Some(tables) = items_in(package, "tables") else {
        return Err(Failure::rule("it is no package, since it has no list of tables"));
    };
    for table in tables {
        given.tables.push(table_of(alloc, path, table)?)?;
    }
    if let Some(summary) = package.get("summary") {
        given.page = page_in(package)?;
        read_summary(alloc, path, summary, given)?;
    }
    match package.get("streams") {
        Some(streams) => read_streams(alloc, path, streams, given),
        None => Ok(()),
    }
}

fn page_in(package: &Value) -> Result<Option<CodePage>, Failure> {
    match package.get("codepage") {
        Some(number) => Ok(Some(page_of(number_of(number).unwrap_or(-1))?)),
        None => Ok(None),
    }
}

fn read_summary(
    alloc: Global,
    path: &str,
    summary: &Value,
    given: &mut Given,
) -> Result<(), Failure> {
    given.has_summary = true;
    for property in SummaryProperty::all() {
        if let Some(property) = StoredProperty::of(property)
            && let Some(value) = summary.get(property.name())
        {
            read_property(alloc, path, property, value, given)?;
        }
    }
    Ok(())
}

fn read_property(
    alloc: Global,
    path: &str,
    property: StoredProperty,
    value: &Value,
    given: &mut Given,
) -> Result<(), Failure> {
    match value.as_str() {
        Some(text) => Ok(given.add_property(alloc, property, text)?),
        None => {
            let failure = Failure::rule("its value has to be a text");
            Err(at_part(alloc, failure, path, "summary property", property.name()))
        }
    }
}

fn read_streams(
    alloc: Global,
    path: &str,
    streams: &Value,
    given: &mut Given,
) -> Result<(), Failure> {
    let Some(streams) = streams.as_array() else {
        return Err(Failure::rule("its streams have to be a list"));
    };
    for stream in streams {
        given.streams.push(stream_of(alloc, path, stream)?)?;
    }
    Ok(())
}

fn stream_of(alloc: Global, path: &str, stream: &Value) -> Result<GivenStream, Failure> {
    let name = text_in(stream, "stream").unwrap_or("");
    let Some(text) = text_in(stream, "base64") else {
        let failure = Failure::rule("it has no bytes in base64");
        return Err(at_part(alloc, failure, path, "stream", name));
    };
    match STANDARD.decode(alloc, text.as_bytes()) {
        Ok(bytes) => Ok(GivenStream {
            name: String::from_str(alloc, name)?,
            bytes,
        }),
        Err(DecodeAllocError::OutOfMemory) => Err(Failure::from(AllocError)),
        Err(_) => {
            let failure = Failure::rule("its bytes are no base64");
            Err(at_part(alloc, failure, path, "stream", name))
        }
    }
}

pub(crate) fn text_in<'a>(object: &'a Value, name: &str) -> Option<&'a str> {
    object.get(name)?.as_str()
}

pub(crate) fn items_in<'a>(object: &'a Value, name: &str) -> Option<&'a [Value]> {
    Some(object.get(name)?.as_array()?.as_slice())
}

pub(crate) fn number_of(value: &Value) -> Option<i32> {
    i32::try_from(value.as_i64()?).ok()
}
