//! Laws of the definitions themselves: each is the contract of a function without a body.

ghost use Rattle.msi_query_parse.specs.Agreement.{Agrees, SpellsOne, SpellsStatement};
ghost use Rattle.msi_query_parse.specs.Grammar.{SpellsDelete, SpellsExpression, SpellsInsert};
ghost use Rattle.msi_query_parse.specs.Grammar.{SpellsSelect, SpellsUpdate};
ghost use Rattle.msi_query_parse.specs.Reading.{condition, delete, insert, query, statement, update};
ghost use Rattle.msi_query_parse.specs.Places.{RefusesTokens};
ghost use Rattle.msi_query_parse.specs.Printed.{PrintedExpressionsAreReadBack, PrintedSelectsAreReadBack};
ghost use Rattle.msi_query_parse.specs.Printed.{PrintedInsertsAreReadBack, PrintedUpdatesAreReadBack};
ghost use Rattle.msi_query_parse.specs.Printed.{PrintedDeletesAreReadBack};
ghost use Rattle.msi_query_parse.specs.Printed.{ExpressionsThatPrintAlikeAreOne, SelectsThatPrintAlikeAreOne};

pub use msi_query_tokens::laws::texts_have_one_list_of_symbols;

/// An expression is read from a text exactly if the text spells it, and no text spells two.
pub fn expressions_are_read_as_spelled()
    ensures agrees { Agrees condition SpellsExpression }
    ensures one { SpellsOne SpellsExpression }
{}

/// A query for rows is read from a text exactly if the text spells it, and no text spells two.
pub fn selects_are_read_as_spelled()
    ensures agrees { Agrees (query 201) SpellsSelect }
    ensures one { SpellsOne SpellsSelect }
{}

/// A query that inserts rows is read from a text exactly if the text spells it, and no text spells two.
pub fn inserts_are_read_as_spelled()
    ensures agrees { Agrees insert SpellsInsert }
    ensures one { SpellsOne SpellsInsert }
{}

/// A query that changes rows is read from a text exactly if the text spells it, and no text spells two.
pub fn updates_are_read_as_spelled()
    ensures agrees { Agrees update SpellsUpdate }
    ensures one { SpellsOne SpellsUpdate }
{}

/// A query that removes rows is read from a text exactly if the text spells it, and no text spells two.
pub fn deletes_are_read_as_spelled()
    ensures agrees { Agrees delete SpellsDelete }
    ensures one { SpellsOne SpellsDelete }
{}

/// A query of any kind is read from a text exactly if the text spells it, and no text spells two.
pub fn statements_are_read_as_spelled()
    ensures agrees { Agrees statement SpellsStatement }
    ensures one { SpellsOne SpellsStatement }
{}

/// A refused text has its place at a token, or at its end: that of each rule is the first byte of a token, which only
/// whole tokens stand in front of, or the length of the text. A quote without its end is refused for that.
pub fn texts_are_refused_at_tokens()
    ensures conditions { RefusesTokens condition }
    ensures selects { RefusesTokens (query 201) }
    ensures inserts { RefusesTokens insert }
    ensures updates { RefusesTokens update }
    ensures deletes { RefusesTokens delete }
    ensures statements { RefusesTokens statement }
{}

/// What an expression prints spells that expression, if it is one that the constructors made, the names of its columns
/// are UTF-8, as all texts are, and it has at most 200 levels of operators and brackets.
pub fn printed_expressions_are_read_back()
    ensures { PrintedExpressionsAreReadBack }
{}

/// What a query for rows prints spells that query, if the names of its tables and columns are UTF-8, its conditions are
/// readable as `printed_expressions_are_read_back` has it, and it has at most 200 levels of joins.
pub fn printed_selects_are_read_back()
    ensures { PrintedSelectsAreReadBack }
{}

/// What an insert prints spells that insert, if the name of its table is UTF-8 and its numbers have 32 bits.
pub fn printed_inserts_are_read_back()
    ensures { PrintedInsertsAreReadBack }
{}

/// What an update prints spells that update, if the names of its table and columns are UTF-8, its numbers have 32 bits,
/// and its condition is readable.
pub fn printed_updates_are_read_back()
    ensures { PrintedUpdatesAreReadBack }
{}

/// What a delete prints spells that delete, if the name of its table is UTF-8 and its condition is readable.
pub fn printed_deletes_are_read_back()
    ensures { PrintedDeletesAreReadBack }
{}

/// Two readable expressions that print the same text are equal.
pub fn expressions_that_print_alike_are_one()
    ensures { ExpressionsThatPrintAlikeAreOne }
{}

/// Two readable queries for rows that print the same text are equal.
pub fn selects_that_print_alike_are_one()
    ensures { SelectsThatPrintAlikeAreOne }
{}
