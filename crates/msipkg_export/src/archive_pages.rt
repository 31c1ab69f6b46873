//! The code pages of text archives.

use msipkg_packages::msi::CodePage;

/// The page of an archive, which is found by going over its texts.
#[derive(Clone, Copy)]
pub(crate) struct ArchivePage {
    /// The page of the package.
    page: CodePage,
    is_ascii: bool,
    /// Whether the page has all characters of the texts.
    has_all: bool,
}

impl ArchivePage {
    pub(crate) fn new(page: CodePage) -> ArchivePage {
        ArchivePage {
            page,
            is_ascii: true,
            has_all: true,
        }
    }

    pub(crate) fn add(&mut self, text: &str) {
        if !text.is_ascii() {
            self.is_ascii = false;
            self.has_all &= self.page.reads_back(text);
        }
    }

    /// Returns whether no further text makes a difference.
    pub(crate) fn is_settled(self) -> bool {
        !self.has_all || (!self.is_ascii && matches!(self.page, CodePage::Utf8))
    }

    /// Returns none if all texts are ASCII, and UTF-8 if the package's page lacks a character, so that no character is
    /// written as `?`.
    pub(crate) fn page(self) -> Option<CodePage> {
        if self.is_ascii {
            None
        } else if self.has_all {
            Some(self.page)
        } else {
            Some(CodePage::Utf8)
        }
    }
}
