//! Reads queries and expressions from texts, and prints what was read as the library does.

use crate::answers::Answer;
use crate::failure::Failure;
use crate::words::Words;
use msi_base::errors::Error;
use msi_query_expressions::expr::Expr;
use msi_query_parse::{Parse, ParseError, Statement};
use std::alloc::AllocError;

/// Prints where a text is refused, and what was expected there. Fails if memory ran out.
pub fn print_refusal(refusal: ParseError, answer: &mut Answer) -> Result<(), Failure> {
    if let ParseError::OutOfMemory = refusal {
        return Err(Failure::MEMORY);
    }
    write!(answer, "{refusal}");
    Ok(())
}

pub(crate) fn print_query(words: &mut Words, answer: &mut Answer) -> Result<(), Failure> {
    match Statement::parse(words.alloc, words.name()) {
        Ok(query) => write!(answer, "{query}"),
        Err(refusal) => return print_refusal(refusal, answer),
    }
    Ok(())
}

pub(crate) fn print_expression(words: &mut Words, answer: &mut Answer) -> Result<(), Failure> {
    match Expr::parse(words.alloc, words.name()) {
        Ok(expression) => write!(answer, "{expression}"),
        Err(refusal) => return print_refusal(refusal, answer),
    }
    Ok(())
}

pub(crate) fn print_names(words: &mut Words, answer: &mut Answer) -> Result<(), Failure> {
    match Expr::parse(words.alloc, words.name()) {
        Ok(expression) => Ok(print_named(&expression, words, answer)?),
        Err(refusal) => print_refusal(refusal, answer),
    }
}

fn print_named(expression: &Expr, words: &mut Words, answer: &mut Answer) -> Result<(), Error> {
    let names = expression.column_names(words.alloc)?;
    write!(answer, "{}", names.len());
    for _ in 0..words.len() {
        let is_named = names.contains(words.name());
        write!(answer, " {is_named}");
    }
    Ok(())
}

fn add_times(all: &mut String, text: &str, times: usize) -> Result<(), AllocError> {
    for _ in 0..times {
        all.push_str(text)?;
    }
    Ok(())
}

/// Reads a text with so many others before and behind it, and prints whether it spells an expression.
pub(crate) fn print_nested(words: &mut Words, answer: &mut Answer) -> Result<(), Failure> {
    let count = words.count();
    let mut text = String::new(words.alloc);
    add_times(&mut text, words.name(), count)?;
    add_times(&mut text, words.name(), 1)?;
    add_times(&mut text, words.name(), count)?;
    match Expr::parse(words.alloc, text.as_str()) {
        Ok(_expression) => answer.push_str("ok"),
        Err(refusal) => return print_refusal(refusal, answer),
    }
    Ok(())
}
