//! What follows from the definitions: each is the contract of a function without a body.

ghost use Rattle.msi_recode.specs.RecodingLaws.{OneRecoding, OneSummary, PoolsMeanTheirPage, PoolsStayAlike};
ghost use Rattle.msi_recode.specs.RecodingLaws.{SummariesMeanTheirPage, SummariesStayAlike};
ghost use Rattle.msi_recode.specs.TextPages.{PackagePagesReadAlike};

/// What a package's page reads, the page of its id reads alike, also where that has a table.
pub fn package_pages_read_alike()
    ensures { PackagePagesReadAlike }
{}

/// A pool that a package may have comes back as it is, but for its page: with the same places, counts and texts.
pub fn pools_stay_alike()
    ensures { PoolsStayAlike }
{}

/// A summary that a package may have comes back as it is, but for its page: with the same properties and texts.
pub fn summaries_stay_alike()
    ensures { SummariesStayAlike }
{}

/// Bytes have at most one summary, as sets are kept.
pub fn bytes_have_one_summary()
    ensures { OneSummary }
{}

/// With any page given: a recoded pool has the places of the old streams, with their texts as the page reads them.
pub fn pools_mean_their_page()
    ensures { PoolsMeanTheirPage }
{}

/// With any page given: a recoded summary has the properties of the old stream, with their texts as the page reads
/// them.
pub fn summaries_mean_their_page()
    ensures { SummariesMeanTheirPage }
{}

/// Contents have at most one recoding.
pub fn contents_have_one_recoding()
    ensures { OneRecoding }
{}
