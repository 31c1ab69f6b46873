//! Reads values and rows, and makes calls on values.

use crate::answers::Answer;
use crate::columns::column;
use crate::failure::Failure;
use crate::texts::short;
use crate::tokens::Token;
use crate::words::Words;
use msi_base::errors::Error;
use msi_categories::LanguageId;
use msi_table::Value;
use std::alloc::{AllocError, Global};

/// Reads a value of the row of a number: `NULL`, `BINARY_STREAM`, a number, a text; or `number`, which is the row's
/// number, `digits`, the text of that, and `letter`, one of 21,000 letters for it.
fn value(words: &mut Words, number: i32) -> Result<Value, Error> {
    if let Some(Token::Text(_)) = words.peek() {
        return Value::from_text(words.alloc, words.name());
    }
    match words.word() {
        "NULL" => Ok(Value::Null),
        "BINARY_STREAM" => Ok(Value::Binary),
        "number" => Ok(Value::Int(number)),
        "digits" => Ok(Value::from(format!(in words.alloc; "{number}")?)),
        "letter" => Ok(Value::from(letter(words.alloc, number)?)),
        word => {
            let number = word.parse::<i32>().ok();
            Ok(Value::Int(words.spelled(number, 0, "a value is missing")))
        }
    }
}

fn letter(alloc: Global, number: i32) -> Result<String, AllocError> {
    let letter = char::from_u32(0x4E00 + (number % 21_000).unsigned_abs());
    format!(in alloc; "{}", letter.unwrap_or('?'))
}

/// Reads the values of a row: `(1, "One", NULL)`.
fn row(words: &mut Words, number: i32) -> Result<Vec<Value>, Error> {
    let mut values = Vec::new(words.alloc);
    let mut goes_on = words.begins_list();
    for _ in 0..words.len() {
        if !goes_on {
            break;
        }
        values.push(value(words, number)?)?;
        goes_on = words.goes_on();
    }
    Ok(values)
}

/// Reads a row for each number of a range: `0..50 (number, letter)`. Fails if memory runs out.
pub fn rows(words: &mut Words) -> Result<Vec<Vec<Value>>, Error> {
    let (from, to) = words.word().split_once("..").unwrap_or(("", ""));
    let from = words.spelled(from.parse::<i32>().ok(), 0, "a range is missing");
    let to = words.spelled(to.parse::<i32>().ok(), 0, "a range is missing");
    let template = *words;
    let mut rows = Vec::new(words.alloc);
    for number in from..to {
        *words = template;
        rows.push(row(words, number)?)?;
    }
    Ok(rows)
}

/// Prints a value plainly; in a width of 3 and of 8, to the left, to the right, and in the middle; or cut, in a width
/// and in none.
pub(crate) fn print(verb: &str, words: &mut Words, answer: &mut Answer) -> Result<(), Failure> {
    let value = value(words, 0)?;
    match verb {
        "print_aligned" => write!(
            answer,
            "{value:3}|{value:8}|{value:<8}|{value:>8}|{value:*^7}|{value:é^9}|{value:_>14}"
        ),
        "print_cut" => write!(answer, "{value:.3}|{value:4.3}|{value:>4.2}"),
        _ => write!(answer, "{value}"),
    }
    Ok(())
}

fn made(words: &mut Words) -> Result<Value, Error> {
    match words.word() {
        "bool" => Ok(Value::from(words.word() == "true")),
        "i16" => {
            let number = words.word().parse::<i16>().ok();
            Ok(Value::from(words.spelled(number, 0, "a number is missing")))
        }
        "u16" => Ok(Value::from(short(words))),
        "i32" => Ok(Value::from(words.number())),
        "string" => Ok(Value::from(String::from_str(words.alloc, words.name())?)),
        "text" => Value::from_text(words.alloc, words.name()),
        "language" => Value::from_language(words.alloc, LanguageId::from_id(short(words))),
        "languages" => Value::from_languages(words.alloc, languages(words)?.as_slice()),
        _ => {
            words.refuse("a value isn't made of that");
            Ok(Value::Null)
        }
    }
}

pub(crate) fn print_made(words: &mut Words, answer: &mut Answer) -> Result<(), Failure> {
    write!(answer, "{}", made(words)?);
    Ok(())
}

pub(crate) fn print_held(words: &mut Words, answer: &mut Answer) -> Result<(), Failure> {
    let value = value(words, 0)?;
    let (is_null, is_int, is_str) = (value.is_null(), value.is_int(), value.is_str());
    write!(answer, "{is_null} {is_int} {is_str}");
    if let Some(number) = value.as_int() {
        write!(answer, " {number}");
    }
    if let Some(text) = value.as_str() {
        write!(answer, " {text:?}");
    }
    Ok(())
}

pub(crate) fn compare(words: &mut Words, answer: &mut Answer) -> Result<(), Failure> {
    let copy = value(words, 0)?.clone(words.alloc)?;
    let other = value(words, 0)?;
    answer.push_str(if copy == other {
        "equal"
    } else if copy < other {
        "less"
    } else {
        "greater"
    });
    Ok(())
}

pub(crate) fn print_takes(words: &mut Words, answer: &mut Answer) -> Result<(), Failure> {
    let column = column(words)?;
    let value = value(words, 0)?;
    write!(answer, "{}", column.is_valid_value(&value));
    Ok(())
}

/// Returns the languages of the numbers that are left. Fails if memory runs out.
pub fn languages(words: &mut Words) -> Result<Vec<LanguageId>, AllocError> {
    let mut languages = Vec::new(words.alloc);
    for _ in 0..words.len() {
        languages.push(LanguageId::from_id(short(words)))?;
    }
    Ok(languages)
}
