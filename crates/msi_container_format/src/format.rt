//! The numbers of the format: marks, the header's fields, the directory's, and sizes, each with its section of
//! MS-CFB.

/// The greatest number of a sector (MS-CFB 2.1).
pub const MAX_REGULAR_SECTOR: u32 = 0xFFFF_FFFA;

/// In the FAT: a sector of the DIFAT (MS-CFB 2.1).
pub const DIFAT_SECTOR: u32 = 0xFFFF_FFFC;

/// In the FAT: a sector of the FAT (MS-CFB 2.1).
pub const FAT_SECTOR: u32 = 0xFFFF_FFFD;

/// The mark behind a chain's last sector (MS-CFB 2.1).
pub const END_OF_CHAIN: u32 = 0xFFFF_FFFE;

/// In the FAT and in the lists of its sectors: no sector (MS-CFB 2.1).
pub const FREE_SECTOR: u32 = 0xFFFF_FFFF;

/// The signature that begins each compound file (MS-CFB 2.2).
pub const SIGNATURE: [u8; 8] = [0xD0, 0xCF, 0x11, 0xE0, 0xA1, 0xB1, 0x1A, 0xE1];

/// The minor version that is written (MS-CFB 2.2).
pub const MINOR_VERSION: u16 = 0x3E;

/// Where the major version stands (MS-CFB 2.2).
pub const VERSION_AT: usize = 26;

/// The major version with sectors of 512 bytes (MS-CFB 2.2).
pub const VERSION_3: u16 = 3;

/// The major version with sectors of 4096 bytes (MS-CFB 2.2).
pub const VERSION_4: u16 = 4;

/// Where the byte order mark stands (MS-CFB 2.2).
pub const BYTE_ORDER_AT: usize = 28;

/// The byte order mark: numbers are little-endian (MS-CFB 2.2).
pub const BYTE_ORDER: u16 = 0xFFFE;

/// Where the sector shift stands (MS-CFB 2.2).
pub const SECTOR_SHIFT_AT: usize = 30;

/// The sector shift of version 3 (MS-CFB 2.2).
pub const SECTOR_SHIFT_3: u16 = 9;

/// The sector shift of version 4 (MS-CFB 2.2).
pub const SECTOR_SHIFT_4: u16 = 12;

/// Where the mini sector shift stands (MS-CFB 2.2).
pub const MINI_SECTOR_SHIFT_AT: usize = 32;

/// The mini sector shift (MS-CFB 2.2).
pub const MINI_SECTOR_SHIFT: u16 = 6;

/// Where the number of FAT sectors stands (MS-CFB 2.2).
pub const FAT_COUNT_AT: usize = 44;

/// Where the first sector of the directory stands (MS-CFB 2.2).
pub const DIRECTORY_START_AT: usize = 48;

/// Where the mini stream cutoff stands (MS-CFB 2.2).
pub const MINI_STREAM_CUTOFF_AT: usize = 56;

/// The mini stream cutoff: shorter streams lie in mini sectors (MS-CFB 2.2).
pub const MINI_STREAM_CUTOFF: u32 = 4096;

/// Where the first sector of the mini FAT stands (MS-CFB 2.2).
pub const MINI_FAT_START_AT: usize = 60;

/// Where the first sector of the DIFAT stands (MS-CFB 2.2).
pub const DIFAT_START_AT: usize = 68;

/// Where the list of the FAT's sectors starts (MS-CFB 2.2).
pub const FAT_SECTORS_AT: usize = 76;

/// How many FAT sectors the header itself lists (MS-CFB 2.2).
pub const HEADER_FAT_SECTORS: u32 = 109;

/// The size of a sector of version 3 (MS-CFB 2.1).
pub const SECTOR_SIZE_3: usize = 512;

/// The size of a sector of version 4 (MS-CFB 2.1).
pub const SECTOR_SIZE_4: usize = 4096;

/// The size of a mini sector (MS-CFB 2.4).
pub const MINI_SECTOR_SIZE: usize = 64;

/// The size of a number in the FAT, the mini FAT and the DIFAT (MS-CFB 2.3, 2.4 and 2.5).
pub const LINK_SIZE: usize = 4;

/// The entries of a sector of the FAT, or of the mini FAT, in version 3 (MS-CFB 2.3 and 2.4).
pub const FAT_ENTRIES: usize = 128;

/// The FAT sectors that a sector of the DIFAT lists in version 3, before the number of the next such sector (MS-CFB
/// 2.5).
pub const DIFAT_ENTRIES: usize = 127;

/// The size of an entry of the directory (MS-CFB 2.6.1).
pub const ENTRY_SIZE: usize = 128;

/// The most units of a name: 32 with the closing null (MS-CFB 2.6.1).
pub const MAX_UNITS: usize = 31;

/// Where an entry holds the size of its name in bytes, behind the name (MS-CFB 2.6.1).
pub const NAME_SIZE_AT: usize = 64;

/// Where an entry holds its type (MS-CFB 2.6.1).
pub const KIND_AT: usize = 66;

/// The type of a storage (MS-CFB 2.6.1).
pub const STORAGE: u8 = 1;

/// The type of a stream (MS-CFB 2.6.1).
pub const STREAM: u8 = 2;

/// The type of the first entry (MS-CFB 2.6.1).
pub const ROOT: u8 = 5;

/// The colour that is written for each entry, behind its type (MS-CFB 2.6.1).
pub const BLACK: u8 = 1;

/// Where an entry holds the link to its left sibling (MS-CFB 2.6.1).
pub const LEFT_AT: usize = 68;

/// Where an entry holds the link to its right sibling (MS-CFB 2.6.1).
pub const RIGHT_AT: usize = 72;

/// Where an entry holds the link to the tree below it (MS-CFB 2.6.1).
pub const CHILD_AT: usize = 76;

/// The link that leads nowhere (MS-CFB 2.6.1).
pub const NO_ENTRY: u32 = 0xFFFF_FFFF;

/// Where an entry holds its CLSID (MS-CFB 2.6.1).
pub const CLSID_AT: usize = 80;

/// Where an entry holds the first sector of its stream (MS-CFB 2.6.1).
pub const START_AT: usize = 116;

/// Where an entry holds the size of its stream (MS-CFB 2.6.1).
pub const SIZE_AT: usize = 120;
