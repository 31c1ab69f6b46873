//! Which values `find` looks for.

use msipkg_packages::msi::ValueView;
use msipkg_packages::output::Failure;
use regex::{Error, Matcher, Regex, RegexBuilder, escape};
use std::alloc::{AllocError, Global};

/// How a text is compared with values.
#[derive(Clone, Copy)]
pub enum Way {
    /// Values have it somewhere.
    Part,
    /// Values equal it.
    Whole,
    /// It is a regular expression, which finds something in values.
    Regex,
}

/// A text that values are compared with.
#[derive(Clone, Copy)]
pub struct Wanted<'a> {
    pub text: &'a str,
    pub way: Way,
    pub ignores_case: bool,
}

/// What finds values: a text as it is, or what searches for a regular expression.
#[derive(Drop)]
pub(crate) enum Finder<'a> {
    Part(&'a str),
    Whole(&'a str),
    Regex(Matcher<'a>),
}

impl<'a> Wanted<'a> {
    /// Returns the regular expression that is searched for, if one is: a text is one where its case is ignored.
    ///
    /// # Errors
    /// Fails if the text is no regular expression, at the text, and with `OutOfMemory`.
    pub(crate) fn regex(self, alloc: Global) -> Result<Option<Regex>, Failure> {
        if !self.ignores_case && !matches!(self.way, Way::Regex) {
            return Ok(None);
        }
        let pattern = self.pattern(alloc)?;
        let builder = RegexBuilder::new(pattern.as_str()).case_insensitive(self.ignores_case);
        match builder.build(alloc) {
            Ok(regex) => Ok(Some(regex)),
            Err(Error::OutOfMemory) => Err(Failure::from(AllocError)),
            Err(error) => Err(Failure::shown(alloc, &error).at(alloc, "pattern", self.text)),
        }
    }

    fn pattern(self, alloc: Global) -> Result<String, AllocError> {
        match self.way {
            Way::Part => escape(alloc, self.text),
            Way::Whole => {
                let text = escape(alloc, self.text)?;
                format!(in alloc; "\\A(?:{text})\\z")
            }
            Way::Regex => String::from_str(alloc, self.text),
        }
    }

    /// Returns what finds values, by the regular expression if there is one.
    pub(crate) fn finder(
        self,
        alloc: Global,
        regex: &'a Option<Regex>,
    ) -> Result<Finder<'a>, AllocError> {
        match (regex, self.way) {
            (Some(regex), _) => Ok(Finder::Regex(regex.matcher(alloc)?)),
            (None, Way::Whole) => Ok(Finder::Whole(self.text)),
            (None, Way::Part | Way::Regex) => Ok(Finder::Part(self.text)),
        }
    }
}

impl Finder<'_> {
    /// Returns whether a value is found: a text, or a number by its decimal digits.
    ///
    /// # Errors
    /// Fails if memory is refused.
    pub(crate) fn finds(
        &mut self,
        alloc: Global,
        value: ValueView<'_>,
    ) -> Result<bool, AllocError> {
        match value {
            ValueView::Str(text) => Ok(self.finds_text(text)),
            ValueView::Int(number) => Ok(self.finds_text(number.to_string(alloc)?.as_str())),
            ValueView::Null | ValueView::Binary => Ok(false),
        }
    }

    fn finds_text(&mut self, text: &str) -> bool {
        match self {
            Finder::Part(part) => text.contains(*part),
            Finder::Whole(whole) => text == *whole,
            Finder::Regex(matcher) => matcher.is_match(text),
        }
    }
}
