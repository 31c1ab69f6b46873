//! Laws of the definitions themselves: each is the contract of a function that does nothing, or only looks at its
//! package.

ghost use Rattle.msi.specs.Laws.{BytesMeanOne, BytesOpenToOne, OpenedArePackages, PassingMeans, RefusedMeanNothing};
ghost use Rattle.msi.specs.Laws.{FlushKeepsParts, RemovesItsStream, RemovesSignature, WritesItsStream};
ghost use Rattle.msi.specs.Laws.{RecountsMakeExact, RunsKeepPackages, StepsAreFixed, StepsKeepPackages};
ghost use Rattle.msi.specs.Laws.{CreatedIsSession, FlushHoldsImage, FlushedIsHeld, OpenedIsSession, RunsKeepSessions};
ghost use Rattle.msi.specs.Laws.{CreatedAreOpened, FlushesAreSteps, ImagesMean, ReplaysMean, ReplaysOverMean};
ghost use Rattle.msi.specs.Writable.{IsWritableUnderUtf8, Utf8TextsAreWritable};

use crate::package::Package;
use msi_container_device::Source;

/// Bytes mean at most one package.
pub fn bytes_mean_one()
    ensures { BytesMeanOne }
{}

/// Opening has one result for given bytes: one package, or one kind of error.
pub fn bytes_open_to_one()
    ensures { BytesOpenToOne }
{}

/// Bytes that opening refuses mean no package.
pub fn refused_mean_nothing()
    ensures { RefusedMeanNothing }
{}

/// Contents that pass each step of opening mean a package.
pub fn passing_means()
    ensures { PassingMeans }
{}

/// An opened package has the parts that its bytes mean, whether it is sound or not, and nothing unwritten.
pub fn opened_are_packages()
    ensures { OpenedArePackages }
{}

/// The state and the call determine the result and the new state, except that a call may fail with `OutOfMemory` or
/// `Io`, which leaves the state as it was and never comes in place of an early refusal. The law leaves out the four
/// calls that return a borrow of the summary or of a stream: `summary_info`, `summary_info_mut`, `read_stream` and
/// `write_stream`.
pub fn steps_are_fixed()
    ensures { StepsAreFixed }
{}

/// A call leaves a package: a sound one stays sound, and then exact counts stay exact and, but for `apply_transform`,
/// distinct keys stay distinct.
pub fn steps_keep_packages()
    ensures { StepsKeepPackages }
{}

/// An accepted recount leaves a sound package, and each count is the number of its cells.
pub fn recounts_make_exact()
    ensures { RecountsMakeExact }
{}

/// Calls one after another keep what `steps_keep_packages` says of each, from any package, opened or new.
pub fn runs_keep_packages()
    ensures { RunsKeepPackages }
{}

/// Writing to a stream changes that stream alone.
pub fn writes_its_stream()
    ensures { WritesItsStream }
{}

/// Removing a stream changes nothing else.
pub fn removes_its_stream()
    ensures { RemovesItsStream }
{}

/// Removing the signatures changes nothing else.
pub fn removes_signature()
    ensures { RemovesSignature }
{}

/// A flush changes no part of a package.
pub fn flush_keeps_parts()
    ensures { FlushKeepsParts }
{}

/// A new package, over a device of any length, is sound, with exact counts and distinct keys. If each text can be
/// written in its page, the device's bytes mean it.
pub fn created_is_session()
    ensures { CreatedIsSession }
{}

/// A package that was opened is the one that the bytes it was opened from mean.
pub fn opened_is_session()
    ensures { OpenedIsSession }
{}

/// Calls keep this of a package over its device: if nothing is unwritten and each text can be written in its page,
/// the device's bytes mean the package, and opening them gives it.
pub fn runs_keep_sessions()
    ensures { RunsKeepSessions }
{}

/// After a flush that succeeds nothing is unwritten; if each text can be written in its page, the bytes mean the
/// package that is left, and opening them gives it.
pub fn flushed_is_held()
    ensures { FlushedIsHeld }
{}

/// A flush may stand anywhere among the calls of a run, and is a step like the others: the calls before it lead to what
/// it finds, and those after it go on from what it leaves. If it succeeds it changes no part of the package, and leaves
/// nothing unwritten; if each text can be written in its page, the device's bytes then mean the parts that the calls
/// before it made, and opening them gives the package that it left. If it fails the package is as it was. In both cases
/// what it leaves is again a package over its device, of which every law of runs holds.
pub fn flushes_are_steps()
    ensures { FlushesAreSteps }
{}

/// A flush writes the bytes that `image` returns for the earlier length.
pub fn flush_holds_image()
    ensures { FlushHoldsImage }
{}

/// The bytes that `image` returns for a package mean it as it is, whether it is written or not, and opening them gives
/// it, if each of its texts can be written in its page.
pub fn images_mean()
    ensures { ImagesMean }
{}

/// After any calls on a new package and a last flush that succeeds, each count is the number of its cells, and no two
/// rows of a table share a key if no call applies a transform. If each text can be written in its page, that is if it
/// reads back as it was, the bytes mean what the accepted calls define, and opening them gives the package that was
/// left.
pub fn replays_mean()
    ensures { ReplaysMean }
{}

/// After any calls on a package that was opened and a last flush that succeeds: if each text can be written in its
/// page, the bytes mean what the accepted calls define, and opening them gives the package that was left. If the opened
/// database was sound, it still is, so no count is below the number of its cells; then exact counts stay exact, and
/// distinct keys distinct if no call applies a transform.
pub fn replays_over_mean()
    ensures { ReplaysOverMean }
{}

/// A package that was created, over a device of any length, can be opened after any calls and a last flush that
/// succeeds: if each text can be written in its page, the bytes mean what the accepted calls made, opening them gives
/// the package that was left, and no step of opening refuses them.
pub fn created_are_opened()
    ensures { CreatedAreOpened }
{}

/// If the page of the database and that of the summary are UTF-8, each text can be written in its page, since every
/// text is UTF-8, which `Package::is_writable` says of its package.
pub fn utf8_texts_are_writable()
    ensures { Utf8TextsAreWritable }
{}

/// Every package whose two pages are UTF-8 can be written so that each text reads back: nothing is presumed of its
/// texts, since they are UTF-8 by their type.
pub fn utf8_packages_are_writable<F: Source>(target: &Package<F>)
    ensures { IsWritableUnderUtf8 target.now.state }
{
    let _writable = target.is_writable();
}
