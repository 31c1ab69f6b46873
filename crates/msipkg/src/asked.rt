//! The words of a command, once they are matched.

use clap::ArgMatches;
use msipkg_cli::Verb;
use msipkg_format::Style;
use msipkg_packages::{PackageFile, Purpose};
use msipkg_queries::MarkValue;

/// A command with what was given to it.
#[derive(Clone, Copy)]
pub(crate) struct Asked<'a, 'b> {
    pub(crate) verb: Verb,
    pub(crate) given: &'b ArgMatches<'a>,
    /// The values for marks.
    pub(crate) values: &'b [MarkValue],
    pub(crate) style: Style,
}

impl<'a, 'b> Asked<'a, 'b> {
    /// Returns the path of the file that the command is about.
    pub(crate) fn file(&self) -> &'a str {
        match self.verb {
            Verb::MakeTransform => self.text("OLD"),
            _ => self.text("FILE"),
        }
    }

    pub(crate) fn package<'c>(&self, path: &'c str, purpose: Purpose) -> PackageFile<'c> {
        PackageFile {
            path,
            page: self.page(),
            purpose,
        }
    }

    /// Returns what a package that is to be changed is opened for, which is `recoded` only with `--recode`.
    pub(crate) fn purpose_of_change(&self, recoded: Purpose) -> Purpose {
        if self.has("recode") {
            recoded
        } else {
            Purpose::Change
        }
    }

    fn page(&self) -> Option<i32> {
        self.option("page")?.parse().ok()
    }

    /// Returns whether a flag is given.
    pub(crate) fn has(&self, id: &str) -> bool {
        self.given.get_flag(id)
    }

    pub(crate) fn option(&self, id: &str) -> Option<&'a str> {
        self.given.get_str(id)
    }

    /// Returns the value of an argument, or the empty text.
    pub(crate) fn text(&self, id: &str) -> &'a str {
        self.option(id).unwrap_or("")
    }

    pub(crate) fn texts(&self, id: &str) -> &'b [&'a str] {
        self.given.get_strs(id).unwrap_or(&[])
    }
}
