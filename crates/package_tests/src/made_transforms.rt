//! Transforms of small packages to the byte: each is applied, and made again of the package and of its result.

use examples::printing::Failure;
use msi::compound::{Bytes, Contents, Name, StreamMap};
use msi::transforms::{ErrorConditions, Transform};
use msi::{Column, Error, Insert, Memory, Package, PackageType, Parse, Value, streamname};
use std::alloc::Global;
use std::io::Write;

/// A stream of a transform: its name, whether that is a table's, and its bytes in hexadecimal.
type Stream = (&'static str, bool, &'static str);

/// A row is removed, one changed and one added.
const ROWS: [Stream; 3] = [
    (
        "_StringPool",
        true,
        "E9FD0000 01000100 01000100 01000100 01000100",
    ),
    ("_StringData", true, "62617A64"),
    (
        "T",
        true,
        "00000100 0A0002000300FFFFFF7F 01040400 0000 0780 05000080",
    ),
];

/// A key has two columns.
const KEYS: [Stream; 3] = [
    ("_StringPool", true, "E9FD0000 01000300 03000100 01000100"),
    ("_StringData", true, "756E657777"),
    (
        "P",
        true,
        "0000 0180 0100 0400 0280 0100 0200 0103 0380 0100 0300",
    ),
];

/// A table is added, with its columns and a row.
const NEW_TABLE: [Stream; 5] = [
    (
        "_StringPool",
        true,
        "E9FD0000 01000300 02000100 04000100 01000100",
    ),
    ("_StringData", true, "51 4964 53697A65 6B"),
    ("_Tables", true, "0101 0100"),
    (
        "_Columns",
        true,
        "0104 0100 0000 0200 48AD 0104 0100 0000 0300 0491",
    ),
    ("Q", true, "0102 0400 09000080"),
];

/// A table gets a column, and one row a value in it.
const NEW_COLUMN: [Stream; 4] = [
    ("_StringPool", true, "E9FD0000 01000100 01000100 01000100"),
    ("_StringData", true, "505775"),
    ("_Columns", true, "0104 0100 0480 0200 0295"),
    ("P", true, "0800 0180 0300 0980"),
];

/// A table gets a column, and no row a value: the first row has a record all the same.
const EMPTY_COLUMN: [Stream; 4] = [
    ("_StringPool", true, "E9FD0000 01000100 01000100 01000100"),
    ("_StringData", true, "505775"),
    ("_Columns", true, "0104 0100 0480 0200 0295"),
    ("P", true, "0800 0180 0300 0000"),
];

/// A table is dropped.
const DROPPED_TABLE: [Stream; 3] = [
    ("_StringPool", true, "E9FD0000 01000100"),
    ("_StringData", true, "50"),
    ("_Tables", true, "0000 0100"),
];

/// A row goes with its stream, and one comes.
const OTHER_STREAM: [Stream; 4] = [
    ("_StringPool", true, "E9FD0000 03000100 03000100"),
    ("_StringData", true, "6F6E65 736978"),
    ("B", true, "0000 0100 0102 0200 0100"),
    ("B.six", false, "367468"),
];

/// A row's stream changes.
const CHANGED_STREAM: [Stream; 4] = [
    ("_StringPool", true, "E9FD0000 03000100"),
    ("_StringData", true, "6F6E65"),
    ("B", true, "0200 0100 0100"),
    ("B.one", false, "464952535421"),
];

/// A column changes that the mask of a record has no bit for.
const FAR_COLUMN: [Stream; 3] = [
    ("_StringPool", true, "E9FD0000 01000200"),
    ("_StringData", true, "72"),
    (
        "V",
        true,
        "0000 0100 0112 0100 0780 0780 0780 0780 0780 0780 0780 0780 0780 0780 0780 0780 0780 0780 0780 0780 0880",
    ),
];

/// How many columns of numbers the wide table has.
const NUMBERS: i32 = 17;

pub(crate) fn transforms_are_made_as_they_were(alloc: Global) -> Result<bool, Failure> {
    let package = base(alloc)?;
    let mut are_same = true;
    let cases = [
        ROWS.as_slice(),
        KEYS.as_slice(),
        NEW_TABLE.as_slice(),
        NEW_COLUMN.as_slice(),
        EMPTY_COLUMN.as_slice(),
        DROPPED_TABLE.as_slice(),
        OTHER_STREAM.as_slice(),
        CHANGED_STREAM.as_slice(),
        FAR_COLUMN.as_slice(),
    ];
    for streams in &cases {
        are_same &= is_made_again(alloc, package.as_slice(), streams)?;
    }
    Ok(are_same)
}

/// Applies the transform of these streams, and returns whether the one that is made of the package and of its result
/// has the same streams.
fn is_made_again(alloc: Global, package: &[u8], streams: &[Stream]) -> Result<bool, Error> {
    let mut old = opened(alloc, package)?;
    let mut new = opened(alloc, package)?;
    let given = Transform::of_contents(alloc, contents_of(alloc, streams)?)?;
    if let Err(refusal) = new.apply_transform(&given, ErrorConditions::default()) {
        return Err(refusal.into_error());
    }
    let made = match old.transform_to(&mut new) {
        Ok(made) => made.into_contents(alloc)?,
        Err(refusal) => return Err(refusal.into_error()),
    };
    let given = contents_of(alloc, streams)?;
    Ok(are_alike(&made.streams, &given.streams))
}

fn are_alike(made: &StreamMap, given: &StreamMap) -> bool {
    for (name, bytes) in given.iter() {
        let Some(held) = made.get(name) else {
            return false;
        };
        if held.as_slice() != bytes.as_slice() {
            return false;
        }
    }
    made.len() == given.len()
}

fn opened(alloc: Global, bytes: &[u8]) -> Result<Package<Memory>, Error> {
    Package::open(alloc, Memory::from_vec(Vec::from_slice(alloc, bytes)?))
}

fn contents_of(alloc: Global, streams: &[Stream]) -> Result<Contents, Error> {
    let mut map = StreamMap::new(alloc);
    for (name, is_table, digits) in streams {
        let encoded = streamname::encode(alloc, name, *is_table)?;
        let bytes = Bytes::from_vec(bytes_of(alloc, digits)?);
        map.insert(Name::new(encoded.as_str())?, bytes)?;
    }
    Ok(Contents {
        clsid: PackageType::Transform.clsid(),
        streams: map,
        has_storages: false,
    })
}

/// Returns the bytes of digits in pairs; blanks between pairs are passed over.
fn bytes_of(alloc: Global, digits: &str) -> Result<Vec<u8>, Error> {
    let mut bytes = Vec::new(alloc);
    let mut high: Option<u32> = None;
    for c in digits.chars() {
        if let Some(digit) = c.to_digit(16) {
            match high.take() {
                Some(first) => bytes.push((first << 4 | digit).to_le_bytes()[0])?,
                None => high = Some(digit),
            }
        }
    }
    Ok(bytes)
}

/// Returns the bytes of the package that the transforms are for.
fn base(alloc: Global) -> Result<Vec<u8>, Failure> {
    let device = Memory::from_vec(Vec::new(alloc));
    let mut package = Package::create(alloc, PackageType::Installer, device)?;
    add_rows_table(alloc, &mut package)?;
    add_keys_table(alloc, &mut package)?;
    add_streams_table(alloc, &mut package)?;
    add_wide_table(alloc, &mut package)?;
    package.flush()?;
    Ok(package.into_reader().into_vec())
}

fn insert(alloc: Global, package: &mut Package<Memory>, text: &str) -> Result<(), Failure> {
    let insert = Insert::parse(alloc, text)?;
    Ok(package.insert_rows(insert)?)
}

fn add_rows_table(alloc: Global, package: &mut Package<Memory>) -> Result<(), Failure> {
    let key = Column::build(alloc, "K")?.primary_key().id_string(72);
    let text = Column::build(alloc, "A")?.nullable().string(20);
    let short = Column::build(alloc, "N")?.nullable().int16();
    let long = Column::build(alloc, "L")?.nullable().int32();
    package.create_table("T", vec![in alloc; key, text, short, long]?)?;
    insert(
        alloc,
        package,
        "INSERT INTO T VALUES ('a', 'x', 1, 100000), ('b', NULL, NULL, NULL), ('c', 'y', -5, 0)",
    )
}

fn add_keys_table(alloc: Global, package: &mut Package<Memory>) -> Result<(), Failure> {
    let first = Column::build(alloc, "K1")?.primary_key().int16();
    let second = Column::build(alloc, "K2")?.primary_key().id_string(72);
    let value = Column::build(alloc, "V")?.string(9);
    package.create_table("P", vec![in alloc; first, second, value]?)?;
    insert(
        alloc,
        package,
        "INSERT INTO P VALUES (1, 'u', 'v'), (2, 'u', 'w')",
    )
}

fn add_streams_table(alloc: Global, package: &mut Package<Memory>) -> Result<(), Failure> {
    let name = Column::build(alloc, "Name")?.primary_key().id_string(72);
    let data = Column::build(alloc, "Data")?.nullable().binary();
    package.create_table("B", vec![in alloc; name, data]?)?;
    let mut rows = Insert::into(alloc, "B")?;
    for name in &["one", "two"] {
        rows = rows.row(vec![in alloc; Value::from_text(alloc, *name)?, Value::Binary]?)?;
    }
    package.insert_rows(rows)?;
    package.write_stream("B.one")?.write_all(b"first")?;
    package.write_stream("B.two")?.write_all(b"second")?;
    Ok(())
}

fn add_wide_table(alloc: Global, package: &mut Package<Memory>) -> Result<(), Failure> {
    let mut columns = vec![in alloc; Column::build(alloc, "K")?.primary_key().id_string(72)]?;
    let mut row = vec![in alloc; Value::from_text(alloc, "r")?]?;
    for number in 0..NUMBERS {
        let name = format!(in alloc; "N{number}")?;
        columns.push(Column::build(alloc, name)?.int16())?;
        row.push(Value::Int(7))?;
    }
    package.create_table("V", columns)?;
    Ok(package.insert_rows(Insert::into(alloc, "V")?.row(row)?)?)
}
