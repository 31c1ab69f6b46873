//! Whether each text of a set reads back as it was.

ghost use Rattle.std.specs.Prelude.{◌↔◌, IsTrue};
ghost use Rattle.std.specs.List.{AllByRecursion};
ghost use Rattle.msi_summary_properties.specs.PropertyStream.{AreWritable, HaveUtf8Texts, IsUtf8Value, IsWritableValue};

use crate::propset::{PropertySet, PropertyValue};
use msi_base::codepage::CodePage;
use std::collections::BTreeMap;

impl PropertySet {
    /// Returns whether each text reads back as it was, once it is written in the set's page. It takes no memory.
    pub fn is_writable(&self) -> bool
        ensures exact { IsTrue result ↔ AreWritable self.now }
        ensures utf8 { HaveUtf8Texts self.now.values }
    {
        all_read_back(self.codepage(), self.values())
    }
}

/// Whether each value reads back. It looks at each, also behind one that doesn't.
fn all_read_back(page: CodePage, values: &BTreeMap<u32, PropertyValue>) -> bool
    ensures exact { IsTrue result ↔ AllByRecursion (λ e. IsWritableValue page e.1) values.now.entries }
    ensures utf8 { HaveUtf8Texts values.now.entries }
{
    let mut all = true;
    for (_, value) in values {
        all &= reads_back(page, value);
    }
    all
}

fn reads_back(page: CodePage, value: &PropertyValue) -> bool
    ensures exact { IsTrue result ↔ IsWritableValue page value.now }
    ensures utf8 { IsUtf8Value value.now }
{
    match value {
        PropertyValue::LpStr(text) => page.reads_back(text.as_str()),
        _ => true,
    }
}
