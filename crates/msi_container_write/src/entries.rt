//! An entry of the directory as it is written (MS-CFB 2.6).

ghost use Rattle.std.specs.Prelude.{◌≡◌, ◌+◌, ◌≤◌, ◌++◌, length, take, drop};
ghost use Rattle.msi_container_write.specs.Layout as spec;

use msi_container_format::format::{
    BLACK, CHILD_AT, CLSID_AT, ENTRY_SIZE, KIND_AT, LEFT_AT, NAME_SIZE_AT, RIGHT_AT, SIZE_AT,
    START_AT,
};
use std::marker::Model;

/// An entry that is in use.
#[derive(Drop)]
pub(crate) struct Entry<'a> {
    pub(crate) name: &'a [u16],
    pub(crate) kind: u8,
    pub(crate) left: u32,
    pub(crate) right: u32,
    pub(crate) child: u32,
    pub(crate) clsid: [u8; 16],
    pub(crate) start: u32,
    pub(crate) size: u64,
}

impl<'a> Model for Entry<'a> {
    ghost use Rattle.msi_container_write.specs.Layout as spec;

    ghost Value = { spec.Entry };

    ghost view = { λ e. record {
      name = e.name.now;
      kind = e.kind;
      left = e.left;
      right = e.right;
      child = e.child;
      clsid = e.clsid;
      start = e.start;
      size = e.size;
    } };
}

/// Encodes an entry that is in use. Its state bits and times are zero.
pub(crate) fn entry_bytes(entry: &Entry) -> [u8; ENTRY_SIZE]
    requires { length entry.now.name ≤ 31 }
    ensures { result ≡ spec.entry_bytes entry.now }
{
    let name_size = 2 * (entry.name.len() as u16 + 1);
    let mut bytes = [0; ENTRY_SIZE];
    put(&mut bytes, 0, &name_field(entry.name));
    put(&mut bytes, NAME_SIZE_AT, &name_size.to_le_bytes());
    put(&mut bytes, KIND_AT, &[entry.kind, BLACK]);
    put(&mut bytes, LEFT_AT, &entry.left.to_le_bytes());
    put(&mut bytes, RIGHT_AT, &entry.right.to_le_bytes());
    put(&mut bytes, CHILD_AT, &entry.child.to_le_bytes());
    put(&mut bytes, CLSID_AT, &entry.clsid);
    put(&mut bytes, START_AT, &entry.start.to_le_bytes());
    put(&mut bytes, SIZE_AT, &entry.size.to_le_bytes());
    bytes
}

fn name_field(name: &[u16]) -> [u8; NAME_SIZE_AT]
    requires { length name.now ≤ 31 }
    ensures { result ≡ spec.name_field name.now }
{
    let mut field = [0; NAME_SIZE_AT];
    for (i, unit) in name.iter().enumerate() {
        put(&mut field, 2 * i, &unit.to_le_bytes());
    }
    field
}

pub(crate) fn unused_entry() -> [u8; ENTRY_SIZE]
    ensures { result ≡ spec.unused_entry }
{
    let mut bytes = [0; ENTRY_SIZE];
    put(&mut bytes, LEFT_AT, &[0xFF; CLSID_AT - LEFT_AT]);
    bytes
}

pub(crate) fn put(bytes: &mut [u8], at: usize, piece: &[u8])
    requires { at + length piece.now ≤ length bytes.old }
    ensures { bytes.new ≡ take at bytes.old ++ piece.now ++ drop (at + length piece.now) bytes.old }
{
    bytes[at..at + piece.len()].copy_from_slice(piece);
}
