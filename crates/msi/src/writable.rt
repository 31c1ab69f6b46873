//! Whether each text of a package reads back as it was.

ghost use Rattle.std.specs.Prelude.{◌≡◌, ◌↔◌, IsTrue};
ghost use Rattle.msi_base.specs.declared.codepage.CodePage.TheVariants.{Utf8};
ghost use Rattle.msi_pool.specs.Pool as pools;
ghost use Rattle.msi_summary.specs.Properties.{page_of};
ghost use Rattle.msi_summary.specs.PropertyStream as properties;
ghost use Rattle.msi.specs.Runs.{TextsAreWritable};
ghost use Rattle.msi.specs.Writable.{HasUtf8Pages, HasUtf8Texts};

use crate::package::Package;
use msi_container_device::Source;
use msi_pool::stringpool::StringPool;
use msi_summary::SummaryInfo;

impl<F: Source> Package<F> {
    /// Returns whether each text of the database and of the summary reads back as it was, once it is written in its
    /// page: what `flush` then writes means the package. It is true while both pages are UTF-8. It takes no memory.
    pub fn is_writable(&self) -> bool
        ensures exact { IsTrue result ↔ TextsAreWritable self.now.state }
        ensures texts { HasUtf8Texts self.now.state }
        ensures utf8 { HasUtf8Pages self.now.state → IsTrue result }
    {
        all_read_back(self.database.pool(), &self.summary)
    }
}

fn all_read_back(pool: &StringPool, summary: &SummaryInfo) -> bool
    ensures exact { IsTrue result
        ↔ (pools.AreWritable pool.now × properties.AreWritable summary.now) }
    ensures texts { pools.HaveUtf8Texts pool.now.places × properties.HaveUtf8Texts summary.now.values }
    ensures utf8 { (pool.now.page ≡ Utf8) × (page_of summary.now ≡ Utf8) → IsTrue result }
{
    let are_texts = pool.is_writable();
    let are_properties = summary.is_writable();
    are_texts & are_properties
}
