//! A name of an entry.

ghost use Rattle.std.specs.Prelude.{◌≡◌, ◌≤◌, ◌<◌, ◌&&◌, length, IfOk, IfSome, IsErrOf, IsErr, is_ok, is_some, IsTrue};
ghost use Rattle.std.specs.Prelude.{string_bytes};
ghost use Rattle.std.specs.Cmp.Lexicographic.{slice_cmp};
ghost use Rattle.std.specs.Ordering.{as_partial_cmp, eq_by_cmp, nat_cmp};
ghost use Rattle.std.specs.Cmp.{partial_order_from_own_ties};
ghost use Rattle.std.specs.Cmp.Rules.{comparing};
ghost use Rattle.std.specs.Char.Utf16.{is_high_surrogate, is_low_surrogate};
ghost use Rattle.std.proofs.Common.{rules};
ghost use Rattle.msi_base.specs.declared.errors.ErrorKind.TheVariants.{InvalidInput, OutOfMemory};
ghost use Rattle.msi_container_format.specs.Names.{name_cmp, capital, capitals, is_text, is_name_length, units_of};

use crate::format::MAX_UNITS;
use crate::reasons;
use msi_base::{Error, ErrorKind};
use std::alloc::Global;
use std::cmp::Ordering;
use std::marker::Model;

/// The name of an entry: 1 to 31 units of well-formed UTF-16 (MS-CFB 2.6.1).
///
/// Names are ordered as a directory orders its entries (MS-CFB 2.6.4): fewer units first, then by the units with
/// ASCII small letters as capitals, then by the units. Beyond ASCII letters aren't folded.
#[derive(Debug, Drop)]
pub struct Name {
    units: [u16; MAX_UNITS],
    len: usize,
}

impl Model for Name {
    ghost use Rattle.std.specs.Prelude.{List, ℕ, take, IsTrue, ◌≤◌, ◌<◌};
    ghost use Rattle.msi_container_format.specs.Names.{is_text};

    ghost Value = { List ℕ };

    ghost view = { λ n. take n.len n.units };

    ghost invariant = { λ n. (0 < n.len) × (n.len ≤ 31) × IsTrue (is_text (take n.len n.units)) };
}

impl Name {
    /// Returns the name of a text. It takes no memory.
    ///
    /// # Errors
    /// Fails with `InvalidInput` for an empty text and for one of more than 31 UTF-16 units.
    pub fn new(text: &str) -> Result<Name, Error>
        ensures ok { IfOk result (λ name. name ≡ units_of text.now) }
        ensures accepted { is_ok result ≡ is_name_length (length (units_of text.now)) }
        ensures refused { IsErr result → IsErrOf result InvalidInput }
    {
        let mut units = [0; MAX_UNITS];
        let mut len = 0;
        for unit in text.encode_utf16() {
            if len == MAX_UNITS {
                return Err(Error::new(ErrorKind::InvalidInput, reasons::NAME_LENGTH));
            }
            units[len] = unit;
            len += 1;
        }
        if len == 0 {
            return Err(Error::new(ErrorKind::InvalidInput, reasons::NAME_LENGTH));
        }
        Ok(Name { units, len })
    }

    /// Returns the name of these units, if they are 1 to 31 and well-formed. It takes no memory.
    pub fn from_units(units: &[u16]) -> Option<Name>
        ensures found { IfSome result (λ name. name ≡ units.now) }
        ensures accepted { is_some result ≡ (is_name_length (length units.now) && is_text units.now) }
    {
        if units.is_empty() || units.len() > MAX_UNITS || !is_well_formed(units) {
            return None;
        }
        let mut held = [0; MAX_UNITS];
        held[..units.len()].copy_from_slice(units);
        Some(Name {
            units: held,
            len: units.len(),
        })
    }

    /// Returns the name's text.
    ///
    /// # Errors
    /// Fails with `OutOfMemory`.
    pub fn to_text(&self, alloc: Global) -> Result<String, Error>
        ensures ok { IfOk result (λ text. units_of (string_bytes text) ≡ self.now) }
        ensures memory { IsErr result → IsErrOf result OutOfMemory }
    {
        match String::from_utf16(alloc, self.units())? {
            Ok(text) => Ok(text),
            Err(_) => unreachable!(),
        }
    }

    /// Returns a copy of the name. It takes no memory.
    pub fn duplicate(&self) -> Name
        ensures { result ≡ self.now }
    {
        Name {
            units: self.units,
            len: self.len,
        }
    }

    /// Returns the UTF-16 units, 1 to 31 of them.
    pub fn units(&self) -> &[u16]
        ensures units { result.now ≡ self.now }
        ensures some { 0 < length self.now }
        ensures most { length self.now ≤ 31 }
        ensures text { IsTrue (is_text self.now) }
    {
        &self.units[..self.len]
    }
}

fn is_well_formed(units: &[u16]) -> bool
    ensures { result ≡ is_text units.now }
{
    let mut awaits_low = false;
    for unit in units {
        if is_low_surrogate(*unit) != awaits_low {
            return false;
        }
        awaits_low = is_high_surrogate(*unit);
    }
    !awaits_low
}

fn is_high_surrogate(unit: u16) -> bool
    ensures { result ≡ is_high_surrogate unit }
{
    (0xD800..0xDC00).contains(&unit)
}

fn is_low_surrogate(unit: u16) -> bool
    ensures { result ≡ is_low_surrogate unit }
{
    (0xDC00..0xE000).contains(&unit)
}

fn capital_of(unit: u16) -> u16
    ensures { result ≡ capital unit }
{
    match unit {
        0x61..=0x7A => unit - 0x20,
        _ => unit,
    }
}

/// Most units of names beside one another are the same, and need no capital.
fn cmp_capitals(a: &[u16], b: &[u16]) -> Ordering
    requires { length a.now ≡ length b.now }
    ensures { result ≡ slice_cmp nat_cmp (capitals a.now) (capitals b.now) }
{
    for i in 0..a.len() {
        if a[i] != b[i] {
            let order = capital_of(a[i]).cmp(&capital_of(b[i]));
            if order != Ordering::Equal {
                return order;
            }
        }
    }
    Ordering::Equal
}

impl Ord for Name {
    ghost cmp = { name_cmp };

    ghost total = { Prim.search (comparing, rules) };

    ghost matches_partial_cmp = { Prim.search (comparing, rules) };

    ghost matches_eq = { Prim.search (comparing, rules) };

    fn cmp(&self, other: &Name) -> Ordering {
        let a = self.units();
        let b = other.units();
        if a.len() != b.len() {
            return a.len().cmp(&b.len());
        }
        // Few names differ in small letters alone, so the units themselves are hardly ever asked.
        match cmp_capitals(a, b) {
            Ordering::Equal => a.cmp(b),
            order => order,
        }
    }
}

impl PartialOrd for Name {
    ghost partial_cmp = { as_partial_cmp name_cmp };

    ghost laws = { partial_order_from_own_ties (Prim.search (comparing, rules)) (Prim.search (comparing, rules)) };

    fn partial_cmp(&self, other: &Name) -> Option<Ordering> {
        Some(self.cmp(other))
    }
}

impl PartialEq for Name {
    ghost eq = { eq_by_cmp name_cmp };

    ghost laws = { Prim.search (comparing, rules) };

    fn eq(&self, other: &Name) -> bool {
        self.cmp(other) == Ordering::Equal
    }
}

impl Eq for Name {
    ghost laws = { Prim.search (comparing, rules) };
}
