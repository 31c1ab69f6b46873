//! The tables of a compound file (MS-CFB): its header, DIFAT, FAT, directory and mini FAT, followed sector by sector,
//! each sector claimed once.
#![tactic(auto)]

mod claims;
mod directory;
mod fat;
mod header;
mod mini;
mod names;
mod paths;
mod reasons;
mod streams;
mod table;
mod walks;

pub use claims::{Claimed, Claims};
pub use directory::{Directory, check_kinds, reach_more};
pub use fat::{next_sector, read_difat, read_fat};
pub use header::{check_header, sector_count, sector_size, usable_sectors};
pub use mini::{Mini, read_mini};
pub use names::{names_of, own_name};
pub use paths::find_storage;
pub use streams::{Entries, of_kind, read_chains, read_entries};
pub use table::{AllocationTable, Steps};
pub use walks::walk_to_end;
