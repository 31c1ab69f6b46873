//! Whether the texts of a package are counted too low.

ghost use Rattle.std.specs.Prelude.{◌≡◌};

use msi_database_schema::system::TABLES;
use msipkg_format::Opened;
use msipkg_packages::msi::{ErrorKind, Package};

/// Returns whether a package's changes are refused since its counts are too low, or its tables can't be read. The
/// package stays: `_Tables` is never dropped, which it says, unless its counts are too low, which it says first.
pub fn is_miscounted(package: &mut Package<Opened>) -> bool
    ensures same { «package».new ≡ «package».old }
{
    match package.drop_table(TABLES) {
        Err(error) => matches!(error.kind(), ErrorKind::InvalidData),
        Ok(()) => false,
    }
}
