//! The template (Template of the Windows Installer SDK, property 7): the architecture, and behind the first `;` the
//! languages, separated by commas.

ghost use Rattle.std.specs.Prelude.{◌≡◌, [], IfOk, OnOk, OnErr, string_bytes, unwrap_or};
ghost use Rattle.std.specs.Option.{option_copied};
ghost use Rattle.std.specs.List.{after_first, before_first, filter_map, slice_split};
ghost use Rattle.msi_categories.specs.Numerals.{u16_in};
ghost use Rattle.msi_base.specs.Results.{OnlyMemory};
ghost use Rattle.msi_summary.specs.Summary.{arch_of, is_comma, is_semicolon, languages_of, nonempty, template_of};
ghost use Rattle.msi_summary.specs.Summary.{with_arch, with_languages, with_template};

use crate::property::TEMPLATE;
use crate::summary::SummaryInfo;
use msi_base::errors::Error;
use msi_base::text::IntoText;
use msi_categories::language::LanguageId;
use msi_categories::parts::language_list;
use std::alloc::Global;

/// Returns the part before the first `;` of a template, or all of it.
fn arch_part(template: &str) -> &str
    ensures { result.now ≡ before_first is_semicolon template.now }
{
    match template.split_once(';') {
        Some((arch, _)) => arch,
        None => template,
    }
}

fn languages_part(template: &str) -> &str
    ensures { result.now ≡ after_first is_semicolon template.now }
{
    match template.split_once(';') {
        Some((_, languages)) => languages,
        None => "",
    }
}

fn filled(text: &str) -> Option<&str>
    ensures { option_copied result ≡ nonempty text.now }
{
    if text.is_empty() { None } else { Some(text) }
}

fn language_in(text: &str) -> Option<LanguageId>
    ensures { result ≡ u16_in text.now }
{
    match text.parse::<u16>() {
        Ok(id) => Some(LanguageId::from_id(id)),
        Err(_) => None,
    }
}

/// Returns the languages whose ids are in a text between commas, and leaves out what is no such number.
fn languages_in(alloc: Global, text: &str) -> Result<Vec<LanguageId>, Error>
    ensures ok { IfOk result (λ languages. languages.items ≡ filter_map u16_in (slice_split is_comma text.now)) }
    ensures kind { OnlyMemory result }
{
    Ok(
        text.split(',')
            .filter_map(|part| language_in(part))
            .collect(alloc)?,
    )
}

impl SummaryInfo {
    fn template(&self) -> &str
        ensures { result.now ≡ template_of self.now }
    {
        self.text(TEMPLATE).unwrap_or("")
    }

    fn set_template(&mut self, arch: String, languages: &str) -> Result<(), Error>
        ensures ok { OnOk result (self.new ≡ with_template (string_bytes arch) languages.now self.old) }
        ensures kind { OnlyMemory result }
        ensures err { OnErr result (self.new ≡ self.old) }
    {
        let mut template = arch;
        template.push_str(";")?;
        template.push_str(languages)?;
        self.set_text(TEMPLATE, template)
    }

    /// Returns the architecture that the package is for, as `x64`: what the template (property 7) has before its
    /// first `;`, or all of it without one. It is none if that is empty, or if the property is missing or of another
    /// type.
    pub fn arch(&self) -> Option<&str>
        ensures { option_copied result ≡ arch_of self.now }
    {
        filled(arch_part(self.template()))
    }

    /// Sets the architecture, which the template (property 7) has before its first `;`, and keeps what it has behind.
    /// So the languages stay, but where the architecture has a `;` itself: it is then read back only up to that `;`,
    /// and what it has behind becomes the front of the languages' text. If it fails, the summary is as before.
    ///
    /// # Errors
    /// Fails with `OutOfMemory` if the text can't be made or stored.
    pub fn set_arch<S: IntoText>(&mut self, arch: S) -> Result<(), Error>
        ensures ok { OnOk result (self.new ≡ with_arch (S.text arch) self.old) }
        ensures kind { OnlyMemory result }
        ensures err { OnErr result (self.new ≡ self.old) }
    {
        let alloc = self.allocator();
        let arch = arch.into_text(alloc)?.into_string();
        let languages = String::from_str(alloc, languages_part(self.template()))?;
        self.set_template(arch, languages.as_str())
    }

    /// Sets the architecture to the empty text, which reads as none, and keeps what the template (property 7) has
    /// behind its first `;`, so the languages stay. If it fails, the summary is as before.
    ///
    /// # Errors
    /// Fails with `OutOfMemory` if the text can't be made or stored.
    pub fn clear_arch(&mut self) -> Result<(), Error>
        ensures ok { OnOk result (self.new ≡ with_arch [] self.old) }
        ensures kind { OnlyMemory result }
        ensures err { OnErr result (self.new ≡ self.old) }
    {
        self.set_arch("")
    }

    /// Returns the languages that the package is for, in order: the parts between commas that the template (property
    /// 7) has behind its first `;`, as decimal numbers. A part that is no number below 2^16 is passed over. There is
    /// none if there is no `;`, or if the property is missing or of another type.
    ///
    /// # Errors
    /// Fails with `OutOfMemory` if the list can't be made.
    pub fn languages(&self) -> Result<Vec<LanguageId>, Error>
        ensures ok { IfOk result (λ languages. languages.items ≡ languages_of self.now) }
        ensures kind { OnlyMemory result }
    {
        languages_in(self.allocator(), languages_part(self.template()))
    }

    /// Sets the languages, which the template (property 7) has behind its first `;`, as decimal numbers with a comma
    /// between each two. The architecture stays. If it fails, the summary is as before.
    ///
    /// # Errors
    /// Fails with `OutOfMemory` if the text can't be made or stored.
    pub fn set_languages(&mut self, languages: &[LanguageId]) -> Result<(), Error>
        ensures ok { OnOk result (self.new ≡ with_languages languages.now self.old) }
        ensures kind { OnlyMemory result }
        ensures err { OnErr result (self.new ≡ self.old) }
    {
        let alloc = self.allocator();
        let arch = String::from_str(alloc, arch_part(self.template()))?;
        let ids = language_list(alloc, languages)?;
        self.set_template(arch, ids.as_str())
    }

    /// Sets the languages, which the template (property 7) has behind its first `;`, to none. The architecture stays.
    /// If it fails, the summary is as before.
    ///
    /// # Errors
    /// Fails with `OutOfMemory` if the text can't be made or stored.
    pub fn clear_languages(&mut self) -> Result<(), Error>
        ensures ok { OnOk result (self.new ≡ with_languages [] self.old) }
        ensures kind { OnlyMemory result }
        ensures err { OnErr result (self.new ≡ self.old) }
    {
        self.set_languages(&[])
    }
}
