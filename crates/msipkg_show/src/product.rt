//! What product a package installs, as its table `Property` says.

use crate::facts::Facts;
use msipkg_looking::PackageView;
use msipkg_packages::PackageTables;
use msipkg_packages::msi::{Parse, Rows, Select, ValueView};
use msipkg_packages::output::Failure;
use std::alloc::Global;

/// The name of each fact, and the query for the property that says it.
static FACTS: [(&str, &str); 5] = [
    (
        "product_name",
        "SELECT Value FROM Property WHERE Property = 'ProductName'",
    ),
    (
        "product_version",
        "SELECT Value FROM Property WHERE Property = 'ProductVersion'",
    ),
    (
        "product_code",
        "SELECT Value FROM Property WHERE Property = 'ProductCode'",
    ),
    (
        "upgrade_code",
        "SELECT Value FROM Property WHERE Property = 'UpgradeCode'",
    ),
    (
        "manufacturer",
        "SELECT Value FROM Property WHERE Property = 'Manufacturer'",
    ),
];

/// Adds what the package's properties say of its product. A package without such a table adds nothing.
pub(crate) fn add_product(alloc: Global, package: &PackageView, facts: &mut Facts) {
    if package.get_table("Property").is_none() {
        return;
    }
    for (name, query) in &FACTS {
        add_property(alloc, package, name, query, facts);
    }
}

/// Adds the text that a query selects. A table that can't be read, or has other columns, adds nothing.
fn add_property(alloc: Global, package: &PackageView, name: &str, query: &str, facts: &mut Facts) {
    if let Ok(rows) = selected(alloc, package, query)
        && let Some(ValueView::Str(text)) = rows.get(0)
    {
        facts.text(name, Some(text));
    }
}

fn selected<'a>(alloc: Global, package: &'a PackageView, query: &str) -> Result<Rows<'a>, Failure> {
    Ok(package.select_rows(Select::parse(alloc, query)?)?)
}
