//! Tables in the streams of a container: reads their rows, stores new ones, and checks that a database is sound.
#![tactic(auto)]

mod copying;
mod decoding;
pub mod listing;
mod naming;
mod reading;
mod soundness;
mod storing;

pub use copying::{copied_bytes, copied_streams};
pub use decoding::{is_readable, stored_rows, stream_bytes, table_rows};
pub use naming::{tables_census, with_named_texts};
pub use reading::{DescribedTables, look_at, tables_in, unlisted_rows};
pub use soundness::{are_sound, are_sound_tables, fits_width, is_standard};
pub use storing::{no_stream, ordered_stream_of, stream_of};
