//! The pages that texts of a package are recoded from.

use std::fmt;

/// The pages that texts of a package are recoded from: those of its database, and those of its summary. There is none
/// where texts aren't recoded. It prints as `page 932` or `pages 932 and 1252`.
#[derive(Clone, Copy, Debug)]
pub struct Pages {
    /// That of its database.
    pub database: Option<i32>,
    /// That of its summary.
    pub summary: Option<i32>,
}

impl Pages {
    /// Returns whether there is none.
    pub fn is_empty(self) -> bool {
        self.database.is_none() && self.summary.is_none()
    }
}

impl fmt::Display for Pages {
    fn fmt<W: fmt::Write>(&self, f: &mut fmt::Formatter<W>) -> fmt::Result {
        match (self.database, self.summary) {
            (Some(database), Some(summary)) if database != summary => {
                write!(f, "pages {database} and {summary}")
            }
            (Some(page), _) | (None, Some(page)) => write!(f, "page {page}"),
            (None, None) => f.write_str("no page"),
        }
    }
}
