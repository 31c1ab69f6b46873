//! The commands with their arguments, as tables.

/// A command of the program.
#[derive(Clone, Copy)]
pub enum Verb {
    Info,
    Tables,
    Schema,
    Query,
    Find,
    Refs,
    Streams,
    Storages,
    Extract,
    Summary,
    Check,
    New,
    Add,
    Remove,
    Exec,
    Export,
    Import,
    Diff,
    ShowTransform,
    ApplyTransform,
    MakeTransform,
    Batch,
}

/// How a command is called: its name, what it does, and its arguments.
pub(crate) struct Row {
    pub(crate) verb: Verb,
    pub(crate) name: &'static str,
    pub(crate) about: &'static str,
    pub(crate) arguments: &'static [Argument],
}

/// An argument: what it is asked for by, how it is given, and what help says of it.
#[derive(Clone, Copy)]
pub(crate) struct Argument {
    pub(crate) id: &'static str,
    pub(crate) form: Form,
    pub(crate) help: &'static str,
}

/// How an argument is given.
#[derive(Clone, Copy)]
pub(crate) enum Form {
    /// A word, which has to be there.
    Word,
    /// A word, which may be left out.
    Optional,
    /// One word or more.
    Words,
    /// Any number of words.
    AnyWords,
    /// One word or more, or else the option of this name.
    WordsOr(&'static str),
    /// `--ID`.
    Flag,
    /// `--ID`, and not beside these.
    Instead(&'static [&'static str]),
    /// `--ID` with a value of this name.
    Value(&'static str),
    /// `--ID` with a value of this name, as often as it is needed.
    Values(&'static str),
    /// The same, where a value may begin with a minus sign.
    SignedValues(&'static str),
    /// `--ID`, or a letter, with a value of this name.
    Lettered(char, &'static str),
    /// `--ID`, or a letter, with a value of this name, which has to be there.
    Needed(char, &'static str),
    /// `--ID` with some of these values, parted by commas.
    Choices(&'static str, &'static [&'static str]),
    /// `--ID` with one of these values.
    Choice(&'static str, &'static [&'static str]),
    /// `--ID` with one of these values, or this one by default.
    Default(&'static str, &'static str, &'static [&'static str]),
}

const FILE: Argument = Argument {
    id: "FILE",
    form: Form::Word,
    help: "The package",
};

const FILES: Argument = Argument {
    id: "FILE",
    form: Form::Words,
    help: "The packages",
};

const JSON: Argument = Argument {
    id: "json",
    form: Form::Flag,
    help: "Prints JSON, a line for each package",
};

const ESCAPE: Argument = Argument {
    id: "escape",
    form: Form::Flag,
    help: "Prints characters that a terminal would obey or not show as escapes",
};

/// The code pages that texts are read in.
const PAGES: &[&str] = &[
    "874", "932", "936", "949", "950", "1250", "1251", "1252", "1253", "1254", "1255", "1256",
    "1257", "1258", "10000", "10007", "28591", "28592", "28593", "28594", "28595", "28596",
    "28597", "28598", "28599", "65001",
];

const PAGE: Argument = Argument {
    id: "page",
    form: Form::Choice("N", PAGES),
    help: "The code page of the texts of a package that names none, that is, page 0",
};

const RECODE: Argument = Argument {
    id: "recode",
    form: Form::Flag,
    help: "Writes the package in UTF-8, whichever code page its texts are in",
};

const STRICT: Argument = Argument {
    id: "strict",
    form: Form::Flag,
    help: "Fails if reference counts are too low, which are mended by default",
};

const NO_VERIFY: Argument = Argument {
    id: "no-verify",
    form: Form::Flag,
    help: "Replaces the file without opening its new bytes first",
};

const FOR_SPREADSHEETS: Argument = Argument {
    id: "for-spreadsheets",
    form: Form::Flag,
    help: "Puts an apostrophe in front of texts in CSV that a spreadsheet would run as formulas",
};

const VALUE: Argument = Argument {
    id: "value",
    form: Form::SignedValues("TEXT"),
    help: "Takes the place of the next ?: NULL, a whole number, or else a text; may be repeated",
};

const VALUE_FILE: Argument = Argument {
    id: "value-file",
    form: Form::Values("PATH"),
    help: "Takes the place of the next ?: a stream with the bytes of a file; may be repeated",
};

/// How `query` is called: its files and its text are one argument, so that options may be anywhere between them.
pub const QUERY_USAGE: &str = "msipkg query [OPTIONS] <FILE>... <TEXT>";

const FORCE: Argument = Argument {
    id: "force",
    form: Form::Flag,
    help: "Replaces files that are there already",
};

/// The commands that print what packages are and what their tables have. Help lists the commands in this order.
static TABLE_COMMANDS: [Row; 4] = [
    Row {
        verb: Verb::Info,
        name: "info",
        about: "Prints what packages are",
        arguments: &[FILES, JSON, PAGE, ESCAPE],
    },
    Row {
        verb: Verb::Tables,
        name: "tables",
        about: "Prints the tables, and how many rows they have",
        arguments: &[FILE, JSON, PAGE, ESCAPE],
    },
    Row {
        verb: Verb::Schema,
        name: "schema",
        about: "Prints the columns of tables, and what they take",
        arguments: &[
            FILE,
            Argument {
                id: "TABLE",
                form: Form::AnyWords,
                help: "The tables; all of them where none is named",
            },
            JSON,
            Argument {
                id: "sql",
                form: Form::Instead(&["json"]),
                help: "Prints statements that create the tables, as exec takes them",
            },
            PAGE,
            ESCAPE,
        ],
    },
    Row {
        verb: Verb::Query,
        name: "query",
        about: "Prints the rows that a query, the last word, selects",
        arguments: &[
            Argument {
                id: "FILE",
                form: Form::Words,
                help: "The packages, and then the query, as SELECT Value FROM Property WHERE Property = 'ProductName'",
            },
            Argument {
                id: "format",
                form: Form::Choice("FORMAT", &["table", "tabs", "csv", "json", "lines"]),
                help: "How rows are printed: by default as a table on a terminal, and elsewhere parted by tabs",
            },
            Argument {
                id: "raw",
                form: Form::Instead(&["escape"]),
                help: "Prints tabs and line feeds in values as they are, but for a terminal",
            },
            VALUE,
            FOR_SPREADSHEETS,
            PAGE,
            ESCAPE,
        ],
    },
];

/// The commands that search the values of tables.
static SEARCH_COMMANDS: [Row; 2] = [
    Row {
        verb: Verb::Find,
        name: "find",
        about: "Prints the values that have a text; the status is 1 where there is none",
        arguments: &[
            FILE,
            Argument {
                id: "TEXT",
                form: Form::Word,
                help: "The text; numbers are searched as they print",
            },
            Argument {
                id: "exact",
                form: Form::Instead(&["regex"]),
                help: "Finds values that equal the text",
            },
            Argument {
                id: "regex",
                form: Form::Flag,
                help: "Takes the text as a regular expression",
            },
            Argument {
                id: "ignore-case",
                form: Form::Flag,
                help: "Takes large and small letters for the same",
            },
            Argument {
                id: "all",
                form: Form::Flag,
                help: "Searches _Columns, _Tables and _Validation, too",
            },
            JSON,
            PAGE,
            ESCAPE,
        ],
    },
    Row {
        verb: Verb::Refs,
        name: "refs",
        about: "Prints what refers to a row; the status is 1 where nothing does",
        arguments: &[
            FILE,
            Argument {
                id: "TABLE",
                form: Form::Word,
                help: "The table of the row",
            },
            Argument {
                id: "KEY",
                form: Form::Word,
                help: "Its key, as find prints it, or the first value of that",
            },
            JSON,
            PAGE,
            ESCAPE,
        ],
    },
];

/// The commands on streams and the summary, and the one that looks for errors.
static PART_COMMANDS: [Row; 5] = [
    Row {
        verb: Verb::Streams,
        name: "streams",
        about: "Prints the streams, and how many bytes they have",
        arguments: &[FILE, JSON, PAGE, ESCAPE],
    },
    Row {
        verb: Verb::Storages,
        name: "storages",
        about: "Lists the storages below the root of a file, as those of languages and of patches",
        arguments: &[FILE, JSON, ESCAPE],
    },
    Row {
        verb: Verb::Extract,
        name: "extract",
        about: "Writes streams to files of a folder, and nothing outside it",
        arguments: &[
            FILE,
            Argument {
                id: "NAME",
                form: Form::AnyWords,
                help: "The streams; all of them where none is named",
            },
            Argument {
                id: "output",
                form: Form::Needed('o', "DIR"),
                help: "The folder for the files, made where it isn't there; - prints one stream",
            },
            Argument {
                id: "storage",
                form: Form::Value("PATH"),
                help: "Writes the storage of this name to the file DIR; / leads to one in another",
            },
            FORCE,
            PAGE,
        ],
    },
    Row {
        verb: Verb::Summary,
        name: "summary",
        about: "Prints the properties of the summary, or sets some",
        arguments: &[
            FILE,
            Argument {
                id: "set",
                form: Form::Values("NAME=VALUE"),
                help: "Sets a property, instead of printing them; may be repeated",
            },
            Argument {
                id: "clear",
                form: Form::Values("NAME"),
                help: "Clears a property, instead of printing them; may be repeated",
            },
            JSON,
            PAGE,
            RECODE,
            NO_VERIFY,
            ESCAPE,
        ],
    },
    Row {
        verb: Verb::Check,
        name: "check",
        about: "Prints what is wrong with packages; the status is 1 where there is an error",
        arguments: &[
            FILES,
            Argument {
                id: "fix",
                form: Form::Flag,
                help: "First mends reference counts and makes empty texts null, and replaces the file",
            },
            Argument {
                id: "strict",
                form: Form::Flag,
                help: "Makes warnings errors",
            },
            JSON,
            PAGE,
            RECODE,
            NO_VERIFY,
            ESCAPE,
        ],
    },
];

/// The commands that make packages and change them.
static CHANGE_COMMANDS: [Row; 4] = [
    Row {
        verb: Verb::New,
        name: "new",
        about: "Makes a package",
        arguments: &[
            FILE,
            Argument {
                id: "kind",
                form: Form::Default("KIND", "installer", &["installer", "patch", "transform"]),
                help: "What the package is",
            },
            Argument {
                id: "page",
                form: Form::Value("ID"),
                help: "The code page of its texts, as 1252; by default 65001, UTF-8",
            },
            FORCE,
        ],
    },
    Row {
        verb: Verb::Add,
        name: "add",
        about: "Stores files as streams",
        arguments: &[
            FILE,
            Argument {
                id: "NAME=PATH",
                form: Form::Words,
                help: "The name of a stream, and the path of its file",
            },
            PAGE,
            RECODE,
            NO_VERIFY,
        ],
    },
    Row {
        verb: Verb::Remove,
        name: "remove",
        about: "Removes streams, or the digital signature",
        arguments: &[
            FILE,
            Argument {
                id: "NAME",
                form: Form::AnyWords,
                help: "The streams",
            },
            Argument {
                id: "signature",
                form: Form::Flag,
                help: "Removes the digital signature",
            },
            PAGE,
            RECODE,
            NO_VERIFY,
        ],
    },
    Row {
        verb: Verb::Exec,
        name: "exec",
        about: "Changes rows and tables: all that is asked for, or nothing",
        arguments: &[
            FILE,
            Argument {
                id: "TEXT",
                form: Form::WordsOr("from"),
                help: "A statement, as DELETE FROM Property WHERE Property = 'Old'",
            },
            Argument {
                id: "from",
                form: Form::Value("PATH"),
                help: "Takes the statements from a file, each up to its semicolon; - is standard input",
            },
            Argument {
                id: "json",
                form: Form::Flag,
                help: "Prints how many rows each statement changed as JSON",
            },
            VALUE,
            VALUE_FILE,
            PAGE,
            RECODE,
            STRICT,
            NO_VERIFY,
        ],
    },
];

/// The commands on a package and other files, and on several packages.
static EXCHANGE_COMMANDS: [Row; 4] = [
    Row {
        verb: Verb::Export,
        name: "export",
        about: "Writes tables, or a whole package, as files that other programs read",
        arguments: &[
            FILE,
            Argument {
                id: "TABLE",
                form: Form::AnyWords,
                help: "The tables; the whole package where none is named",
            },
            Argument {
                id: "format",
                form: Form::Default("FORMAT", "json", &["json", "csv", "idt"]),
                help: "The format of the files; json is one line for the whole package",
            },
            Argument {
                id: "output",
                form: Form::Lettered('o', "PATH"),
                help: "The file for json, or the folder for the others; by default, and for -, the output",
            },
            Argument {
                id: "each",
                form: Form::Instead(&["output", "format"]),
                help: "Takes the words behind FILE as packages, too: each is a line of JSON",
            },
            FORCE,
            PAGE,
            ESCAPE,
            Argument {
                id: "lossy",
                form: Form::Flag,
                help: "Succeeds even if something is lost, which standard error names",
            },
            FOR_SPREADSHEETS,
        ],
    },
    Row {
        verb: Verb::Import,
        name: "import",
        about: "Gives a package what files have: all of it, or nothing",
        arguments: &[
            FILE,
            Argument {
                id: "PATH",
                form: Form::Words,
                help: "The files, which end in .idt, .json or .csv",
            },
            Argument {
                id: "replace",
                form: Form::Instead(&["update"]),
                help: "Puts rows in the place of those with the same key",
            },
            Argument {
                id: "update",
                form: Form::Instead(&["replace"]),
                help: "Changes rows with the same key in the columns that are given alone",
            },
            Argument {
                id: "lossy",
                form: Form::Flag,
                help: "Imports the rest if _Validation can't hold all that the files say of columns",
            },
            PAGE,
            RECODE,
            STRICT,
            NO_VERIFY,
        ],
    },
    Row {
        verb: Verb::Diff,
        name: "diff",
        about: "Prints what differs between two packages; the status is 1 where something does",
        arguments: &[
            Argument {
                id: "FILE",
                form: Form::Word,
                help: "The old package",
            },
            Argument {
                id: "OTHER",
                form: Form::Word,
                help: "The new package",
            },
            JSON,
            PAGE,
            ESCAPE,
        ],
    },
    Row {
        verb: Verb::Batch,
        name: "batch",
        about: "Runs the commands of standard input, a line each",
        arguments: &[],
    },
];

/// The errors that may be ignored where a transform is applied, and letters for them.
const ERRORS: &[&str] = &[
    "add-row",
    "delete-row",
    "add-table",
    "delete-table",
    "change-row",
    "page",
    "a",
    "b",
    "c",
    "d",
    "e",
    "f",
];

/// What may be validated before a transform is applied at an installation.
const VALIDATIONS: &[&str] = &[
    "language", "product", "platform", "major", "minor", "update", "below", "at-most", "equal",
    "at-least", "above", "upgrade",
];

/// The commands about transforms.
static TRANSFORM_COMMANDS: [Row; 3] = [
    Row {
        verb: Verb::ShowTransform,
        name: "show",
        about: "Prints what a transform adds, removes and changes",
        arguments: &[
            Argument {
                id: "FILE",
                form: Form::Word,
                help: "The transform: a file, or a storage of one as PATH:NAME",
            },
            Argument {
                id: "BASE",
                form: Form::Optional,
                help: "The package that it is for, whose columns and old values are shown, too",
            },
            JSON,
            PAGE,
            ESCAPE,
        ],
    },
    Row {
        verb: Verb::ApplyTransform,
        name: "apply",
        about: "Changes a package by transforms, in order: by all of them, or by none",
        arguments: &[
            FILE,
            Argument {
                id: "T",
                form: Form::Words,
                help: "The transforms: files, or storages of one as PATH:NAME",
            },
            Argument {
                id: "output",
                form: Form::Lettered('o', "OUT"),
                help: "The file for the result; by default the package itself is replaced",
            },
            FORCE,
            Argument {
                id: "ignore",
                form: Form::Choices("WORDS", ERRORS),
                help: "Ignores these errors, in place of those that the transform's summary names",
            },
            Argument {
                id: "strict",
                form: Form::Instead(&["ignore"]),
                help: "Ignores no error, and fails if reference counts are too low",
            },
            PAGE,
            RECODE,
            NO_VERIFY,
        ],
    },
    Row {
        verb: Verb::MakeTransform,
        name: "make",
        about: "Makes the transform from one package to another",
        arguments: &[
            Argument {
                id: "OLD",
                form: Form::Word,
                help: "The package that the transform is for",
            },
            Argument {
                id: "NEW",
                form: Form::Word,
                help: "The package that it makes of that",
            },
            Argument {
                id: "OUT",
                form: Form::Word,
                help: "The file for the transform",
            },
            FORCE,
            Argument {
                id: "validate",
                form: Form::Choices("WORDS", VALIDATIONS),
                help: "What a package has to share with OLD at an installation; by default nothing",
            },
            Argument {
                id: "ignore",
                form: Form::Choices("WORDS", ERRORS),
                help: "The errors that an installation ignores; by default what the packages need",
            },
            JSON,
            PAGE,
            ESCAPE,
        ],
    },
];

/// The name of the command that has those about transforms.
pub(crate) const TRANSFORM: &str = "transform";

/// Returns the commands. Proofs go through all rows in each function that names a table, with a cost by their square.
/// So there are six tables, and a function for each.
pub(crate) fn commands() -> [&'static [Row]; 5] {
    [
        table_commands(),
        search_commands(),
        part_commands(),
        change_commands(),
        exchange_commands(),
    ]
}

fn table_commands() -> &'static [Row] {
    TABLE_COMMANDS.as_slice()
}

fn search_commands() -> &'static [Row] {
    SEARCH_COMMANDS.as_slice()
}

fn part_commands() -> &'static [Row] {
    PART_COMMANDS.as_slice()
}

fn change_commands() -> &'static [Row] {
    CHANGE_COMMANDS.as_slice()
}

fn exchange_commands() -> &'static [Row] {
    EXCHANGE_COMMANDS.as_slice()
}

pub(crate) fn transform_commands() -> &'static [Row] {
    TRANSFORM_COMMANDS.as_slice()
}
