//! The database of a package that is looked at.

ghost use Rattle.std.specs.Prelude.{ℕ, List, IfErr, IfOk};
ghost use Rattle.msi_container_view.specs.Reading.{Tells};
ghost use Rattle.msi_view.specs.Looking.{IsDatabaseSeen, IsPartRefusal, ReadsDatabase, root_in, table_steps};

use crate::catalog::look_at_all;
use crate::view::View;
use msi::Seekable;
use msi_base::Error;
use msi_database::Database;

impl<S: Seekable + Drop> View<S> {
    /// Returns the database of the package: its tables with all their rows. The streams of the pool, of the system
    /// tables and of all tables are read, and no other; the database has no streams but those of tables. The view
    /// forgets what it has read of the tables.
    ///
    /// # Errors
    /// Fails as `load_tables` does. The view can go on being used.
    pub fn database(&mut self) -> Result<Database, Error>
        ensures ok { IfOk result (λ d. (file : List ℕ) → Tells self.old.held file
            → IsDatabaseSeen (root_in file self.old) d) }
        ensures reads { ReadsDatabase self.old self.new }
        ensures kind { IfErr result (IsPartRefusal S.can_fail self.old table_steps) }
    {
        look_at_all(self.alloc, &mut self.container, &mut self.catalog)?;
        match self.catalog.take() {
            Some(catalog) => catalog.into_database(self.alloc),
            None => unreachable!(),
        }
    }
}
