//! Calls that change a package.

ghost use Rattle.std.specs.Prelude.{◌≡◌, IfOk, OnOk, map};
ghost use Rattle.std.specs.List.{AllByRecursion};
ghost use Rattle.msi.specs.Text.Results.{OnlyMemory};
ghost use Rattle.msi.specs.Calls as calls;
ghost use Rattle.msi.specs.Lent.{FitsSummaryCall};
ghost use Rattle.msi_replay.specs.Sent.{change_sent, summary_call_sent};
ghost use Rattle.msi_replay.specs.Taken.{Takes};
ghost use Rattle.msi_replay.specs.Told.{answer_told, told};

use crate::answer::Answer;
use crate::call::{Change, SummaryCall};
use crate::summary::{carry_out_all, discard_all};
use msi::transforms::{ErrorConditions, Transform};
use msi::{Error, ErrorKind, Items, Memory, Package};
use std::alloc::Global;

pub(crate) fn done(outcome: Result<(), Error>) -> Result<Answer, ErrorKind>
    ensures { told answer_told result ≡ told (λ _. calls.done) outcome }
{
    match outcome {
        Ok(()) => Ok(Answer::Done),
        Err(error) => Err(error.kind()),
    }
}

fn transformed(
    target: &mut Package<Memory>,
    transform: &Transform,
    passing: ErrorConditions,
) -> Result<(), Error>
    ensures { let call = calls.apply_transform transform.now passing in
        Takes target.old call (told (λ _. calls.done) result) target.new }
{
    match target.apply_transform(transform, passing) {
        Ok(()) => Ok(()),
        Err(refusal) => Err(refusal.into_error()),
    }
}

fn changed(target: &mut Package<Memory>, change: Change) -> Result<(), Error>
    ensures { Takes target.old (change_sent change) (told (λ _. calls.done) result) target.new }
{
    match change {
        Change::CreateTable(name, columns) => {
            target.create_table(name.into_string(), columns.into_vec())
        }
        Change::InsertRows(query) => target.insert_rows(query),
        Change::UpdateRows(query) => target.update_rows(query),
        Change::DeleteRows(query) => target.delete_rows(query),
        Change::DropTable(name) => target.drop_table(name.as_str()),
        Change::AddColumn(name, column) => target.add_column(name.as_str(), column),
        Change::ApplyTransform(transform, passing) => transformed(target, &transform, passing),
        Change::SetDatabaseCodepage(page) => target.set_database_codepage(page),
        Change::RemoveStream(name) => target.remove_stream(name.as_str()),
        Change::RemoveDigitalSignature => target.remove_digital_signature(),
    }
}

pub(crate) fn recount(target: &mut Package<Memory>) -> Result<Answer, ErrorKind>
    ensures { Takes target.old calls.recount (told answer_told result) target.new }
{
    match target.recount() {
        Ok(changed) => Ok(Answer::Count(changed)),
        Err(error) => Err(error.kind()),
    }
}

pub(crate) fn change(target: &mut Package<Memory>, change: Change) -> Result<Answer, ErrorKind>
    ensures { Takes target.old (change_sent change) (told answer_told result) target.new }
{
    done(changed(target, change))
}

pub(crate) fn change_summary(
    alloc: Global,
    target: &mut Package<Memory>,
    steps: Items<SummaryCall>,
) -> Result<Result<Answer, ErrorKind>, Error>
    ensures ok { IfOk result (λ answer. Takes target.old (calls.summary_info_mut (map summary_call_sent steps))
        (told answer_told answer) target.new) }
    ensures fits { OnOk result (AllByRecursion FitsSummaryCall (map summary_call_sent steps)) }
    ensures kind { OnlyMemory result }
{
    match target.summary_info_mut() {
        Ok(summary) => {
            let answers = carry_out_all(alloc, summary, steps)?;
            Ok(Ok(Answer::Summary(answers)))
        }
        Err(error) => {
            discard_all(steps);
            Ok(Err(error.kind()))
        }
    }
}
