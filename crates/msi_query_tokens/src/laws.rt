//! Laws of the definitions themselves: each is the contract of a function without a body.

ghost use Rattle.msi_query_tokens.specs.Symbols.{TextsHaveOneListOfSymbols};

/// No text has two lists of symbols, so what it spells is a matter of the grammar alone.
pub fn texts_have_one_list_of_symbols()
    ensures { TextsHaveOneListOfSymbols }
{}
