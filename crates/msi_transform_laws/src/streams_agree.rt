//! The streams of rows once a transform that is made is applied.

ghost use Rattle.msi_transform_laws.specs.StreamsAgree.{MadeStreamsAgree, SameColumnsStreamsAgree};

use msi_pool::laws::{given_back_takes_one, taken_places_hold_their_text};

/// Where a transform that is made is applied to the old package, and some table goes, comes or gets columns, no two
/// rows want different streams under one name.
pub fn made_streams_agree()
    ensures { MadeStreamsAgree }
{
    taken_places_hold_their_text();
    given_back_takes_one();
}

/// Where the tables of both packages have the same columns, no two rows want different streams under one name.
pub fn same_columns_streams_agree()
    ensures { SameColumnsStreamsAgree }
{
    taken_places_hold_their_text();
    given_back_takes_one();
}
