//! Parses the command line.

ghost use Rattle.std.specs.Prelude.{◌≡◌, ◌∷◌, [], IfSome, is_some};
ghost use Rattle.msidb_commands.specs.Commands.{fits_command, takes_file, takes_name, texts_of, words_of};

/// A command with its operands.
#[derive(Clone, Copy, Debug)]
pub enum Command<'a> {
    /// Lists the streams of a container.
    Raw { file: &'a str },
    /// Makes a container of one stream.
    Wrap { out: &'a str, name: &'a str },
    /// Makes a package.
    New { file: &'a str },
    /// Prints the names of a package's tables.
    Tables { file: &'a str },
    /// Prints the rows of a table.
    Rows { file: &'a str, table: &'a str },
    /// Prints the summary of a package.
    Summary { file: &'a str },
    /// Prints the names of a package's streams.
    Streams { file: &'a str },
    /// Counts the cells of a package anew.
    Recount { file: &'a str },
    /// Prints the bytes of a stream.
    Cat { file: &'a str, name: &'a str },
    /// Stores standard input as a stream.
    Put { file: &'a str, name: &'a str },
}

impl<'a> Command<'a> {
    pub(crate) fn parse(words: &'a [String]) -> Option<Command<'a>>
        ensures fits { is_some result ≡ fits_command words.now }
        ensures asked { IfSome result (λ command. words_of command ≡ texts_of words.now) }
    {
        match words {
            [verb, file] => Command::of_file(verb.as_str(), file.as_str()),
            [verb, file, name] => Command::of_name(verb.as_str(), file.as_str(), name.as_str()),
            _ => None,
        }
    }

    fn of_file(verb: &str, file: &'a str) -> Option<Command<'a>>
        ensures fits { is_some result ≡ takes_file verb.now }
        ensures asked { IfSome result (λ command. words_of command ≡ verb.now ∷ file.now ∷ []) }
    {
        match verb {
            "raw" => Some(Command::Raw { file }),
            "new" => Some(Command::New { file }),
            "tables" => Some(Command::Tables { file }),
            "summary" => Some(Command::Summary { file }),
            "streams" => Some(Command::Streams { file }),
            "recount" => Some(Command::Recount { file }),
            _ => None,
        }
    }

    fn of_name(verb: &str, file: &'a str, name: &'a str) -> Option<Command<'a>>
        ensures fits { is_some result ≡ takes_name verb.now }
        ensures asked { IfSome result (λ command. words_of command ≡ verb.now ∷ file.now ∷ name.now ∷ []) }
    {
        match verb {
            "wrap" => Some(Command::Wrap { out: file, name }),
            "rows" => Some(Command::Rows { file, table: name }),
            "cat" => Some(Command::Cat { file, name }),
            "put" => Some(Command::Put { file, name }),
            _ => None,
        }
    }
}
