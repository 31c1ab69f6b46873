//! Copies of texts.

ghost use Rattle.std.specs.Prelude.{◌≡◌, IfOk, map};
ghost use Rattle.msi_base.specs.Results.{OnlyMemory};

use msi_base::errors::Error;
use msi_base::text::{IntoText, Items, Text};
use std::alloc::Global;

/// Returns copies of the texts, in order.
///
/// # Errors
/// Fails with `OutOfMemory`.
pub fn copied_list(alloc: Global, texts: &[&str]) -> Result<Items<Text>, Error>
    ensures ok { IfOk result (λ copies. copies ≡ map (λ text. text.now) texts.now) }
    ensures kind { OnlyMemory result }
{
    let mut copies = Vec::with_capacity(alloc, texts.len())?;
    for text in texts {
        copies.push((*text).into_text(alloc)?)?;
    }
    Ok(Items::from_vec(copies))
}
