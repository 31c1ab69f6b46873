//! Calls on code pages, categories, languages and times.

use crate::answers::Answer;
use crate::failure::Failure;
use crate::kept::{Kept, pieces, print_bytes};
use crate::words::Words;
use msi_base::codepage::CodePage;
use msi_base::errors::Error;
use msi_categories::{Category, LanguageId, Timestamp};
use msi_code_pages::Page;

/// Reads the number of a code page.
pub fn codepage(words: &mut Words) -> CodePage {
    let page = CodePage::from_id(words.number());
    words.spelled(page, CodePage::default(), "there is no such code page")
}

pub(crate) fn decode(kept: &Kept, words: &mut Words, answer: &mut Answer) -> Result<(), Failure> {
    let page = codepage(words);
    let bytes = pieces(kept, words)?;
    let text = page.decode(words.alloc, bytes.as_slice())?;
    write!(answer, "{:?}", text.as_str());
    Ok(())
}

pub(crate) fn encode(words: &mut Words, answer: &mut Answer) -> Result<(), Failure> {
    let page = codepage(words);
    let bytes = page.encode(words.alloc, words.name())?;
    print_bytes(answer, bytes.as_slice());
    Ok(())
}

fn tabled_page(words: &mut Words) -> Page {
    let page = Page::of(words.number());
    words.spelled(page, Page::Windows932, "the page has no table of its own")
}

/// Prints the text of bytes in a page with a table of its own, or how many of them come before a sequence that means no
/// character.
pub(crate) fn read_page(
    kept: &Kept,
    words: &mut Words,
    answer: &mut Answer,
) -> Result<(), Failure> {
    let decoder = tabled_page(words).decoder(words.alloc)?;
    let bytes = pieces(kept, words)?;
    match decoder.decode(words.alloc, bytes.as_slice()) {
        Ok(text) => write!(answer, "{:?}", text.as_str()),
        Err(error) => print_refusal(answer, &error, decoder.first_unmapped(bytes.as_slice())),
    }
    Ok(())
}

/// Prints the bytes of a text in a page with a table of its own, or how many characters come before one that the page
/// lacks.
pub(crate) fn write_page(words: &mut Words, answer: &mut Answer) -> Result<(), Failure> {
    let encoder = tabled_page(words).encoder(words.alloc)?;
    let text = words.name();
    match encoder.encode(words.alloc, text) {
        Ok(bytes) => print_bytes(answer, bytes.as_slice()),
        // What is refused isn't carried.
        Err(_error) if encoder.carries(text) => answer.push_str("carried"),
        Err(error) => print_refusal(answer, &error, encoder.first_missing(text)),
    }
    Ok(())
}

fn print_refusal(answer: &mut Answer, error: &Error, place: Option<usize>) {
    write!(answer, "{} at ", error.kind());
    answer.push_option(place);
}

pub(crate) fn category(words: &mut Words) -> Category {
    let name = words.word();
    for category in &Category::all() {
        if category.name() == name {
            return *category;
        }
    }
    words.refuse("there is no such category");
    Category::Text
}

pub(crate) fn print_fact(
    verb: &str,
    words: &mut Words,
    answer: &mut Answer,
) -> Result<(), Failure> {
    match verb {
        "carries" => write!(answer, "{}", codepage(words).carries(words.name())),
        "category" => write!(answer, "{}", category(words).validate(words.name())),
        _ => match page(words) {
            Some(page) => write!(answer, "{} {:?}", page.id(), page.name()),
            None => answer.push_str("none"),
        },
    }
    Ok(())
}

/// Reads the id of a page that may be unknown, or `default`.
fn page(words: &mut Words) -> Option<CodePage> {
    if words.takes("default") {
        return Some(CodePage::default());
    }
    CodePage::from_id(words.number())
}

pub(crate) fn short(words: &mut Words) -> u16 {
    let number = words.word().parse::<u16>().ok();
    words.spelled(number, 0, "a number is missing")
}

fn long(words: &mut Words) -> u32 {
    let number = words.word().parse::<u32>().ok();
    words.spelled(number, 0, "a number is missing")
}

/// Reads a language, which is written as its parts, an id of 32 bits, a tag, an id or a number.
fn language(words: &mut Words) -> LanguageId {
    match words.word() {
        "parts" => {
            let primary = short(words);
            LanguageId::new(primary, short(words))
        }
        "lcid" => LanguageId::from_lcid(long(words)),
        "tag" => LanguageId::from_tag(words.name()),
        "id" => LanguageId::from_id(short(words)),
        "number" => LanguageId::from(short(words)),
        "default" => LanguageId::default(),
        _ => {
            words.refuse("a language isn't given so");
            LanguageId::default()
        }
    }
}

pub(crate) fn print_language(words: &mut Words, answer: &mut Answer) -> Result<(), Failure> {
    let language = language(words);
    let id = u16::from(language);
    let primary = language.primary_language_id();
    let sub = language.sub_language_id();
    write!(answer, "{id} {} {primary} {sub}", language.tag());
    Ok(())
}

/// Prints the ticks of a time since 1970, or the time since 1970 of ticks.
pub(crate) fn convert(verb: &str, words: &mut Words, answer: &mut Answer) -> Result<(), Failure> {
    if verb == "moment_to_unix" {
        let (seconds, nanoseconds) = ticks(words).to_unix();
        write!(answer, "{seconds} {nanoseconds}");
        return Ok(());
    }
    let seconds = words.word().parse::<i64>().ok();
    let seconds = words.spelled(seconds, 0, "a number is missing");
    let moment = Timestamp::from_unix(seconds, long(words));
    write!(answer, "{}", moment.ticks());
    Ok(())
}

/// Reads a time as its count of 100 ns since 1601.
pub fn ticks(words: &mut Words) -> Timestamp {
    Timestamp::from_ticks(words.count() as u64)
}

pub(crate) fn read_moment(
    kept: &Kept,
    words: &mut Words,
    answer: &mut Answer,
) -> Result<(), Failure> {
    let bytes = pieces(kept, words)?;
    let moment = Timestamp::read_from(&mut bytes.as_slice())?;
    write!(answer, "{}", moment.ticks());
    Ok(())
}

pub(crate) fn write_moment(words: &mut Words, answer: &mut Answer) -> Result<(), Failure> {
    let mut bytes = Vec::new(words.alloc);
    ticks(words).write_to(&mut bytes)?;
    print_bytes(answer, bytes.as_slice());
    Ok(())
}
