//! The places of the string pool, each a text and a number of cells, and their indexes: taking a text, and giving a
//! place back.
#![tactic(auto)]

mod count;
mod entries;
mod free;
mod indexed;
mod joined;
mod joiner;
mod kept;
mod lengths;
mod numbers;
mod operations;
mod piece;
mod places;
mod pool_entries;
pub mod reasons;
mod shared;
mod texts;

pub use entries::Entries;
pub use free::FreePlaces;
pub use indexed::{IndexedPlaces, most_places};
pub use joined::JoinedTexts;
pub use joiner::TextJoiner;
pub use kept::KeptPlaces;
pub use lengths::encoded_len;
pub use numbers::Numbers;
pub use operations::Operations;
pub use places::{MAX_CELLS, MAX_PLACES, MAX_SHORT_PLACES, PlaceRef};
pub use pool_entries::{Entry, entry_of};
