//! Values made of other types.

ghost use Rattle.std.specs.Prelude.{◌≡◌, pos, string_bytes, IfOk, if◌then◌else◌};
ghost use Rattle.std.specs.Fmt.{decimal};
ghost use Rattle.msi_categories.specs.Spellings.{language_list_text};
ghost use Rattle.msi_base.specs.Results.{OnlyMemory};
ghost use Rattle.msi_table_values.specs.declared.value.Value.TheVariants.{Int, Str};

use crate::value::Value;
use msi_base::errors::Error;
use msi_base::text::{IntoText, Text};
use msi_categories::language::LanguageId;
use msi_categories::parts::{language_list, language_text};
use std::alloc::Global;

/// A truth as a value: the number 1 for true, and 0 for false.
impl From<bool> for Value {
    ghost from_gives = { λ truth value. value ≡ Int (pos (if truth then 1 else 0)) };

    fn from(truth: bool) -> Value {
        Value::Int(truth as i32)
    }
}

/// A number of 16 bits with a sign, as a value.
impl From<i16> for Value {
    ghost from_gives = { λ number value. value ≡ Int number };

    fn from(number: i16) -> Value {
        Value::Int(number as i32)
    }
}

/// A number of 16 bits without a sign, as a value.
impl From<u16> for Value {
    ghost from_gives = { λ number value. value ≡ Int (pos number) };

    fn from(number: u16) -> Value {
        Value::Int(number as i32)
    }
}

/// A number of 32 bits with a sign, as a value.
impl From<i32> for Value {
    ghost from_gives = { λ number value. value ≡ Int number };

    fn from(number: i32) -> Value {
        Value::Int(number)
    }
}

/// A text, as a value; it is moved in.
impl From<String> for Value {
    ghost from_gives = { λ text value. value ≡ Str (string_bytes text) };

    fn from(text: String) -> Value {
        Value::Str(Text::from_string(text))
    }
}

impl Value {
    /// Returns a text, as a value; it is copied.
    ///
    /// # Errors
    /// Fails with `OutOfMemory`.
    pub fn from_text(alloc: Global, text: &str) -> Result<Value, Error>
        ensures ok { IfOk result (λ value. value ≡ Str text.now) }
        ensures kind { OnlyMemory result }
    {
        Ok(Value::Str(text.into_text(alloc)?))
    }

    /// Returns the id of a language in decimal, as a text: a value for columns of the category `Language`.
    ///
    /// # Errors
    /// Fails with `OutOfMemory`.
    pub fn from_language(alloc: Global, language: LanguageId) -> Result<Value, Error>
        ensures ok { IfOk result (λ value. value ≡ Str (decimal language)) }
        ensures kind { OnlyMemory result }
    {
        Ok(Value::Str(language_text(alloc, language)?))
    }

    /// Returns the ids of languages in decimal, separated by commas, as a text: a value for columns of the category
    /// `Language`. No language gives the empty text.
    ///
    /// # Errors
    /// Fails with `OutOfMemory`.
    pub fn from_languages(alloc: Global, languages: &[LanguageId]) -> Result<Value, Error>
        ensures ok { IfOk result (λ value. value ≡ Str (language_list_text languages.now)) }
        ensures kind { OnlyMemory result }
    {
        Ok(Value::Str(language_list(alloc, languages)?))
    }
}
