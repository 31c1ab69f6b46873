//! The calls that need no package, by their names.

use crate::answers::Answer;
use crate::failure::Failure;
use crate::kept::Kept;
use crate::words::Words;
use crate::{containers, parsing, texts, values};

/// Makes a call that needs no package, and prints its answer. Fails if there is no such call, if it is refused, and if
/// memory runs out.
pub fn make(
    kept: &mut Kept,
    verb: &str,
    words: &mut Words,
    answer: &mut Answer,
) -> Result<(), Failure> {
    match verb {
        "decode" => texts::decode(kept, words, answer),
        "encode" => texts::encode(words, answer),
        "read_page" => texts::read_page(kept, words, answer),
        "write_page" => texts::write_page(words, answer),
        "carries" | "page" | "category" => texts::print_fact(verb, words, answer),
        "language" => texts::print_language(words, answer),
        "moment_from_unix" | "moment_to_unix" => texts::convert(verb, words, answer),
        "read_moment" => texts::read_moment(kept, words, answer),
        "write_moment" => texts::write_moment(words, answer),
        _ => make_of_values(kept, verb, words, answer),
    }
}

/// Makes a call that isn't of texts. One function for all calls would take twice as long to be proved.
fn make_of_values(
    kept: &mut Kept,
    verb: &str,
    words: &mut Words,
    answer: &mut Answer,
) -> Result<(), Failure> {
    match verb {
        "print_value" | "print_aligned" | "print_cut" => values::print(verb, words, answer),
        "value_from" => values::print_made(words, answer),
        "held" => values::print_held(words, answer),
        "compare" => values::compare(words, answer),
        "takes" => values::print_takes(words, answer),
        "parse_query" => parsing::print_query(words, answer),
        "parse_expression" => parsing::print_expression(words, answer),
        "parse_nested" => parsing::print_nested(words, answer),
        "expression_names" => parsing::print_names(words, answer),
        _ => containers::make(kept, verb, words, answer),
    }
}
