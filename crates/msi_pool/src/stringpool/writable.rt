//! Whether each text of the pool reads back as it was.

ghost use Rattle.std.specs.Prelude.{◌<◌, ◌↔◌, IsTrue, IsUtf8};
ghost use Rattle.msi_base.specs.Pages.{IsWritable};
ghost use Rattle.msi_pool_places.specs.Pool.{AreWritable, HaveUtf8Texts};

use crate::stringpool::pool::StringPool;
use msi_base::codepage::CodePage;
use msi_pool_places::PlaceRef;

impl StringPool {
    /// Returns whether each text that a cell refers to reads back as it was, once it is written in the page. It takes
    /// no memory.
    pub fn is_writable(&self) -> bool
        ensures exact { IsTrue result ↔ AreWritable self.now }
        ensures utf8 { HaveUtf8Texts self.now.places }
    {
        // Each place is looked at, also behind one that doesn't read back, since `utf8` is said of all.
        let mut all = true;
        for at in 0..self.num_strings() {
            all &= reads_back(self.codepage(), &self.place(at));
        }
        all
    }
}

/// Returns whether a place is free or its text reads back.
fn reads_back(page: CodePage, place: &PlaceRef) -> bool
    ensures exact { IsTrue result ↔ ((0 < place.now.count) → IsWritable page place.now.text) }
    ensures utf8 { IsUtf8 place.now.text }
{
    let text = place.text();
    place.count() == 0 || page.reads_back(text)
}
