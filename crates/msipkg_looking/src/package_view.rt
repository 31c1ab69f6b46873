//! A package that is looked at.

use crate::held_tables::tables_among;
use msi::compound::Name;
use msi::names::is_listed;
use msi::{
    CodePage, Database, Error, Metered, PackageType, Rows, Select, SummaryInfo, Table, streamname,
};
use msi_view::View;
use msipkg_format::{Failure, SystemFile};
use msipkg_packages::{PackageTables, TableNames, pool_page};
use std::alloc::Global;

/// What is looked at: a file, or the bytes of a package that was recoded.
pub(crate) type FileView = View<Metered<SystemFile>>;

/// A package that is looked at. Its tables were read, and its summary if it can be; the bytes of a stream are read when
/// they are asked for.
pub struct PackageView {
    pub(crate) alloc: Global,
    pub(crate) view: FileView,
    kind: PackageType,
    summary: Option<SummaryInfo>,
    database: Database,
    /// The page that the file names for its texts, if these were recoded.
    recoded_page: Option<i32>,
}

/// Written out, so that a function that owns one calls one drop, and its proof doesn't go through those of the parts.
impl Drop for PackageView {
    fn drop(self) {
        let PackageView {
            alloc: _,
            view: _,
            kind: _,
            summary: _,
            database: _,
            recoded_page: _,
        } = self;
    }
}

impl PackageView {
    /// Looks at the package of a file.
    ///
    /// # Errors
    /// Fails as `Package::open` does.
    pub(crate) fn open(alloc: Global, file: SystemFile) -> Result<PackageView, Failure> {
        let mut view = View::open(alloc, Metered::new(file))?;
        let kind = view.package_type()?;
        let summary = Some(view.summary_info()?);
        Ok(PackageView::with_tables(alloc, view, kind, summary)?)
    }

    /// Looks at the package of a file without its summary.
    ///
    /// # Errors
    /// Fails as `Package::open` does, but for the summary.
    pub(crate) fn open_rest(alloc: Global, file: SystemFile) -> Result<PackageView, Failure> {
        let view = View::open(alloc, Metered::new(file))?;
        let kind = view.package_type()?;
        Ok(PackageView::with_tables(alloc, view, kind, None)?)
    }

    fn with_tables(
        alloc: Global,
        mut view: FileView,
        kind: PackageType,
        summary: Option<SummaryInfo>,
    ) -> Result<PackageView, Error> {
        let database = view.database()?;
        Ok(PackageView {
            alloc,
            view,
            kind,
            summary,
            database,
            recoded_page: None,
        })
    }

    /// Returns this package, whose file names a page that its texts were recoded from.
    pub(crate) fn recoded_from(mut self, page: Option<i32>) -> PackageView {
        self.recoded_page = page;
        self
    }

    /// Returns this package without its summary.
    pub(crate) fn without_summary(mut self) -> PackageView {
        self.summary = None;
        self
    }

    /// Returns the type of the package.
    pub fn package_type(&self) -> PackageType {
        self.kind
    }

    /// Returns the summary, if it can be read.
    pub fn summary_info(&self) -> Option<&SummaryInfo> {
        self.summary.as_ref()
    }

    /// Returns whether the summary can be read.
    pub fn has_summary(&self) -> bool {
        self.summary.is_some()
    }

    /// Returns the code page of the texts of the tables, as they are read.
    pub fn database_codepage(&self) -> CodePage {
        self.database.codepage()
    }

    /// Returns the number of the page that the file names for the texts of its tables. It may be one that they were
    /// recoded from, or 0, which is read as UTF-8.
    ///
    /// # Errors
    /// Fails if the file can't be read, and if memory is refused.
    pub fn stored_page(&mut self) -> Result<Option<i32>, Error> {
        if self.recoded_page.is_some() {
            return Ok(self.recoded_page);
        }
        let name = streamname::encode(self.alloc, "_StringPool", true)?;
        let mut pool = Vec::new(self.alloc);
        self.view
            .copy_stream(&Name::new(name.as_str())?, &mut pool)?;
        Ok(pool_page(pool.as_slice()))
    }

    /// Returns whether there are storages below the root.
    pub fn has_storages(&self) -> bool {
        self.view.has_storages()
    }

    /// Returns whether the package has a digital signature.
    pub fn has_digital_signature(&self) -> bool {
        self.view.has_digital_signature()
    }

    /// Fails if the package's tables can't be changed, with the reason. The page is set to itself, which is a change
    /// like any other.
    ///
    /// # Errors
    /// Fails as `Package::set_database_codepage` does.
    pub fn check_changeable(&mut self) -> Result<(), Error> {
        self.view.check_storages()?;
        let page = self.database.codepage();
        self.database.set_codepage(page)
    }

    /// Counts the texts anew in memory, and returns how many counts change.
    ///
    /// # Errors
    /// Fails as `Package::recount` does, but for storages, which don't matter here.
    pub fn recount(&mut self) -> Result<u32, Error> {
        self.database.recount()
    }

    /// Returns the names of the streams, in the container's order: of those that hold no table, summary or signature.
    ///
    /// # Errors
    /// Fails if memory is refused.
    pub fn stream_names(&self) -> Result<Vec<String>, Error> {
        let mut names = Vec::new(self.alloc);
        for (name, _) in self.view.streams().iter() {
            if is_listed(name) {
                names.push(text_of(self.alloc, name)?)?;
            }
        }
        Ok(names)
    }

    /// Returns the names of the tables of which the file has streams, listed or not.
    ///
    /// # Errors
    /// Fails if memory is refused.
    pub fn stored_tables(&self) -> Result<TableNames, Error> {
        tables_among(self.alloc, &self.view)
    }
}

fn text_of(alloc: Global, name: &Name) -> Result<String, Error> {
    let (text, _) = streamname::decode(alloc, name.to_text(alloc)?.as_str())?;
    Ok(text)
}

impl PackageTables for PackageView {
    fn tables(&self) -> &[Table] {
        self.database.tables()
    }

    fn get_table(&self, name: &str) -> Option<&Table> {
        self.database.get_table(name)
    }

    fn select_rows(&self, query: Select) -> Result<Rows<'_>, Error> {
        self.database.select_rows(self.alloc, &query)
    }

    fn has_stream(&self, name: &str) -> bool {
        self.view.has_stream(name)
    }
}
