//! The pages and their ids.

ghost use Rattle.std.specs.Prelude.{◌≡◌, ◌==◌, ◌<◌, ◌^◌, pos};
ghost use Rattle.msi_code_pages.specs.Page.{all_pages, page_id, page_with_id, page_with_signed_id};

/// A code page with a table of its own. Each has ASCII as it is. Windows 932, 936, 949 and 950 have two bytes for most
/// characters past it, and the others one.
#[derive(Clone, Copy, PartialEq, Eq, Hash, Debug)]
pub enum Page {
    /// Thai (874).
    Windows874,
    /// Japanese, Shift JIS (932).
    Windows932,
    /// Simplified Chinese, GBK (936).
    Windows936,
    /// Korean, Unified Hangul Code (949).
    Windows949,
    /// Traditional Chinese, Big5 (950).
    Windows950,
    /// Central European (1250).
    Windows1250,
    /// Cyrillic (1251).
    Windows1251,
    /// Greek (1253).
    Windows1253,
    /// Turkish (1254).
    Windows1254,
    /// Hebrew (1255).
    Windows1255,
    /// Arabic (1256).
    Windows1256,
    /// Baltic (1257).
    Windows1257,
    /// Vietnamese (1258).
    Windows1258,
    /// Cyrillic of Mac OS (10007).
    MacintoshCyrillic,
    /// Central European, ISO 8859-2 (28592).
    Iso88592,
    /// South European, ISO 8859-3 (28593).
    Iso88593,
    /// North European, ISO 8859-4 (28594).
    Iso88594,
    /// Cyrillic, ISO 8859-5 (28595).
    Iso88595,
    /// Arabic, ISO 8859-6 (28596).
    Iso88596,
    /// Greek, ISO 8859-7 (28597).
    Iso88597,
    /// Hebrew, ISO 8859-8 (28598).
    Iso88598,
    /// Turkish, ISO 8859-9 (28599).
    Iso88599,
}

impl Page {
    /// Returns every page.
    pub fn all() -> [Page; 22]
        ensures { result ≡ all_pages }
    {
        [
            Page::Windows874,
            Page::Windows932,
            Page::Windows936,
            Page::Windows949,
            Page::Windows950,
            Page::Windows1250,
            Page::Windows1251,
            Page::Windows1253,
            Page::Windows1254,
            Page::Windows1255,
            Page::Windows1256,
            Page::Windows1257,
            Page::Windows1258,
            Page::MacintoshCyrillic,
            Page::Iso88592,
            Page::Iso88593,
            Page::Iso88594,
            Page::Iso88595,
            Page::Iso88596,
            Page::Iso88597,
            Page::Iso88598,
            Page::Iso88599,
        ]
    }

    /// Returns the page of an id, and none for a negative or unknown one.
    pub fn of(id: i32) -> Option<Page>
        ensures { result ≡ page_with_signed_id id }
    {
        if id < 0 {
            None
        } else {
            Page::from_number(id as u32)
        }
    }

    fn from_number(number: u32) -> Option<Page>
        ensures { result ≡ page_with_id number }
    {
        for page in Page::all() {
            if page.has_number(number) {
                return Some(page);
            }
        }
        None
    }

    fn has_number(self, number: u32) -> bool
        ensures { result ≡ (page_id self == number) }
    {
        self.to_number() == number
    }

    /// Returns the id of the page, as a database stores it.
    pub fn id(self) -> i32
        ensures { result ≡ pos (page_id self) }
    {
        self.to_number() as i32
    }

    fn to_number(self) -> u32
        ensures value { result ≡ page_id self }
        ensures most { result < 2 ^ 31 }
    {
        match self {
            Page::Windows874 => 874,
            Page::Windows932 => 932,
            Page::Windows936 => 936,
            Page::Windows949 => 949,
            Page::Windows950 => 950,
            Page::Windows1250 => 1250,
            Page::Windows1251 => 1251,
            Page::Windows1253 => 1253,
            Page::Windows1254 => 1254,
            Page::Windows1255 => 1255,
            Page::Windows1256 => 1256,
            Page::Windows1257 => 1257,
            Page::Windows1258 => 1258,
            Page::MacintoshCyrillic => 10007,
            Page::Iso88592 => 28592,
            Page::Iso88593 => 28593,
            Page::Iso88594 => 28594,
            Page::Iso88595 => 28595,
            Page::Iso88596 => 28596,
            Page::Iso88597 => 28597,
            Page::Iso88598 => 28598,
            Page::Iso88599 => 28599,
        }
    }
}
