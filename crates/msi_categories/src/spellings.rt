//! Languages and UUIDs as texts.

ghost use Rattle.std.specs.Prelude.{◌≡◌, IfOk, IfErr};
ghost use Rattle.std.specs.Fmt.{decimal};
ghost use Rattle.msi_categories.specs.Spellings.{language_list_text, braced_uuid_text};
ghost use Rattle.msi_base.specs.Results.{OnlyMemory};
ghost use Rattle.msi_base.specs.declared.errors.ErrorKind.TheVariants.{OutOfMemory};

use crate::language::LanguageId;
use msi_base::errors::Error;
use msi_base::text::Text;
use std::alloc::Global;
use uuid::Uuid;

/// Returns the id of a language in decimal.
///
/// # Errors
/// Fails with `OutOfMemory`.
pub fn language_text(alloc: Global, language: LanguageId) -> Result<Text, Error>
    ensures ok { IfOk result (λ text. text ≡ decimal language) }
    ensures kind { OnlyMemory result }
{
    Ok(Text::from_string(language.id().to_string(alloc)?))
}

/// Returns the ids of languages in decimal, separated by commas.
///
/// # Errors
/// Fails with `OutOfMemory`.
pub fn language_list(alloc: Global, languages: &[LanguageId]) -> Result<Text, Error>
    ensures ok { IfOk result (λ text. text ≡ language_list_text languages.now) }
    ensures kind { OnlyMemory result }
{
    let mut text = String::new(alloc);
    if let Some((first, rest)) = languages.split_first() {
        write!(text, "{}", first.id())?;
        for language in rest {
            write!(text, ",{}", language.id())?;
        }
    }
    Ok(Text::from_string(text))
}

/// Returns a UUID in braces and upper case.
///
/// # Errors
/// Fails with `OutOfMemory`.
pub fn braced_uuid(alloc: Global, uuid: Uuid) -> Result<Text, Error>
    ensures ok { IfOk result (λ text. text ≡ braced_uuid_text uuid) }
    ensures kind { OnlyMemory result }
{
    let mut buffer = Uuid::encode_buffer();
    Ok(Text::from_string(String::from_str(alloc, uuid.braced().encode_upper(&mut buffer))?))
}
