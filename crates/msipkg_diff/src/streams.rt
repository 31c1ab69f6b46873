//! What differs between the streams of two packages.

use crate::diff::Compared;
use crate::difference::{Change, Content, Difference, Member};
use crate::matching::Matcher;
use crate::report::Report;
use msipkg_packages::output::Failure;

pub(crate) fn compare_streams(
    old: &mut Compared<'_>,
    new: &mut Compared<'_>,
    report: &mut Report<'_>,
) -> Result<(), Failure> {
    for name in &old.package.stream_names()? {
        compare_stream(old, new, name.as_str(), report)?;
    }
    add_new_streams(old, new, report)
}

fn add_new_streams(
    old: &mut Compared<'_>,
    new: &mut Compared<'_>,
    report: &mut Report<'_>,
) -> Result<(), Failure> {
    for name in &new.package.stream_names()? {
        if old.stream_length(name.as_str()).is_none() {
            let length = new.stream_length(name.as_str());
            add_stream(name.as_str(), None, length, report);
        }
    }
    Ok(())
}

fn compare_stream(
    old: &mut Compared<'_>,
    new: &mut Compared<'_>,
    name: &str,
    report: &mut Report<'_>,
) -> Result<(), Failure> {
    let (length, other) = (old.stream_length(name), new.stream_length(name));
    if length != other || !have_same_bytes(old, new, name)? {
        add_stream(name, length, other, report);
    }
    Ok(())
}

/// Returns whether both packages have the same bytes in a stream that both have.
fn have_same_bytes(
    old: &mut Compared<'_>,
    new: &mut Compared<'_>,
    name: &str,
) -> Result<bool, Failure> {
    let bytes = old.package.stream_bytes(old.stored.as_ref(), name)?;
    let mut matcher = Matcher::new(bytes.as_slice());
    new.package
        .copy_stream(new.stored.as_ref(), name, &mut matcher)?;
    Ok(matcher.is_match())
}

impl Compared<'_> {
    /// Returns how many bytes a stream has, if there is one of this name.
    fn stream_length(&mut self, name: &str) -> Option<u64> {
        self.package.stream_length(self.stored.as_ref(), name).ok()
    }
}

fn add_stream(name: &str, old: Option<u64>, new: Option<u64>, report: &mut Report<'_>) {
    let (old_length, new_length) = (length_member(old), length_member(new));
    report.add(&Difference {
        change: Change::of(old.is_some(), new.is_some()),
        kind: "stream",
        table: "",
        name,
        old: old_length.as_slice(),
        new: new_length.as_slice(),
    });
}

fn length_member(length: Option<u64>) -> Option<Member<'static>> {
    let content = Content::Number(i64::try_from(length?).unwrap_or(i64::MAX));
    Some(Member {
        name: "bytes",
        content,
    })
}
