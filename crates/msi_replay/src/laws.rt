//! What recoding leaves alike of whole packages: each law is the contract of a function without a body.

ghost use Rattle.msi_replay.specs.PackageLaws.{PackagesMeanTheirPages, PackagesStayAlike, RecodedTextsAreRead};

/// A file that is a package, and whose tables have names that tables may have, is one after it was recoded: with the
/// same kind, tables, rows, streams, texts and properties. Its pool and its summary are in UTF-8.
pub fn packages_stay_alike()
    ensures { PackagesStayAlike }
{}

/// With any page given, and also where a file isn't opened as it is: what it means once it was recoded is what its
/// streams mean with the texts of the pool and of the summary read in their pages.
pub fn packages_mean_their_pages()
    ensures { PackagesMeanTheirPages }
{}

/// A recoded package passes the steps of opening that are about its pool and its texts, and has the kind that it had.
pub fn recoded_texts_are_read()
    ensures { RecodedTextsAreRead }
{}
