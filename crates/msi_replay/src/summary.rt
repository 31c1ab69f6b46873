//! Calls on a summary, carried out in turn.

ghost use Rattle.std.specs.Prelude.{◌≡◌, IfErr, IfOk, IsTrue, OnErr, OnOk, map};
ghost use Rattle.std.specs.List.{AllByRecursion};
ghost use Rattle.std.specs.Option.{option_copied};
ghost use Rattle.msi.specs.Text.Results.{OnlyMemory};
ghost use Rattle.msi.specs.Text.ErrorKind.TheVariants.{OutOfMemory};
ghost use Rattle.msi.specs.Summary.SummaryProperty.TheVariants.{Keywords, Languages};
ghost use Rattle.msi.specs.Calls as calls;
ghost use Rattle.msi.specs.Lent.{FitsSummaryCall, Gives, RunsTo, question_wants_memory, said_of};
ghost use Rattle.msi.specs.Lent.{summary_after, summary_outcome, summary_wants_memory};
ghost use Rattle.msi_replay.specs.Sent.{setting_sent, summary_call_sent};
ghost use Rattle.msi_replay.specs.Told.{summary_answer, told};

use crate::answer::SummaryAnswer;
use crate::call::{Setting, SummaryCall};
use msi::{Error, ErrorKind, HasUuid, IntoText, Items, SummaryInfo, SummaryProperty, Text};
use std::alloc::Global;

fn copied(alloc: Global, text: Option<&str>) -> Result<Option<Text>, Error>
    ensures ok { IfOk result (λ copy. copy ≡ option_copied text.entry) }
    ensures kind { OnlyMemory result }
{
    match text {
        Some(text) => Ok(Some(text.into_text(alloc)?)),
        None => Ok(None),
    }
}

fn languages(summary: &SummaryInfo) -> Result<SummaryAnswer, ErrorKind>
    ensures ok { IfOk result (λ said. summary_answer said ≡ said_of summary.now Languages) }
    ensures kind { OnlyMemory result }
{
    match summary.languages() {
        Ok(languages) => Ok(SummaryAnswer::Languages(Items::from_vec(languages))),
        Err(error) => Err(error.kind()),
    }
}

fn keywords(summary: &SummaryInfo) -> Result<SummaryAnswer, ErrorKind>
    ensures ok { IfOk result (λ said. summary_answer said ≡ said_of summary.now Keywords) }
    ensures kind { OnlyMemory result }
{
    match summary.keywords() {
        Ok(keywords) => Ok(SummaryAnswer::Keywords(Items::from_vec(keywords))),
        Err(error) => Err(error.kind()),
    }
}

fn said(
    alloc: Global,
    summary: &SummaryInfo,
    question: SummaryProperty,
) -> Result<Result<SummaryAnswer, ErrorKind>, Error>
    ensures ok { IfOk result (λ answer. IfOk answer (λ said.
        summary_answer said ≡ said_of summary.now question)) }
    ensures refused { IfOk result (λ answer. IfErr answer (λ kind.
        IsTrue (question_wants_memory question) × (kind ≡ OutOfMemory))) }
    ensures kind { OnlyMemory result }
{
    match question {
        SummaryProperty::Text(property) => {
            let text = copied(alloc, summary.text_property(property))?;
            Ok(Ok(SummaryAnswer::Text(text)))
        }
        SummaryProperty::Number(property) => {
            Ok(Ok(SummaryAnswer::Number(summary.number_property(property))))
        }
        SummaryProperty::Time(property) => Ok(Ok(SummaryAnswer::Time(summary.time_property(
            property,
        )))),
        SummaryProperty::Arch => {
            let arch = copied(alloc, summary.arch())?;
            Ok(Ok(SummaryAnswer::Text(arch)))
        }
        SummaryProperty::Languages => Ok(languages(summary)),
        SummaryProperty::Keywords => Ok(keywords(summary)),
        SummaryProperty::Uuid => Ok(Ok(SummaryAnswer::Uuid(summary.uuid()))),
        SummaryProperty::Codepage => Ok(Ok(SummaryAnswer::Codepage(summary.codepage()))),
    }
}

fn ask(
    alloc: Global,
    summary: &SummaryInfo,
    question: SummaryProperty,
) -> Result<Result<SummaryAnswer, ErrorKind>, Error>
    ensures ok { IfOk result (λ answer. let call = calls.ask question in
        Gives (summary_outcome summary.now call) (summary_wants_memory call) summary.now
        (told summary_answer answer) summary.now) }
    ensures kind { OnlyMemory result }
{
    said(alloc, summary, question)
}

/// If it fails, the summary is as before.
fn set(summary: &mut SummaryInfo, setting: Setting) -> Result<(), Error>
    ensures ok { OnOk result (summary.new ≡ summary_after summary.old (setting_sent setting)) }
    ensures kind { OnlyMemory result }
    ensures err { OnErr result (summary.new ≡ summary.old) }
    ensures fits { FitsSummaryCall (setting_sent setting) }
{
    match setting {
        Setting::Text(property, text) => summary.set_text_property(property, text.into_string()),
        Setting::Number(property, number) => summary.set_number_property(property, number),
        Setting::Time(property, time) => summary.set_time_property(property, time),
        Setting::Arch(arch) => summary.set_arch(arch.into_string()),
        Setting::Languages(languages) => summary.set_languages(languages.as_slice()),
        Setting::Keywords(keywords) => summary.set_keywords(keywords.as_slice()),
        Setting::Uuid(uuid) => summary.set_uuid(uuid),
        Setting::Codepage(page) => summary.set_codepage(page),
    }
}

fn done(outcome: Result<(), Error>) -> Result<SummaryAnswer, ErrorKind>
    ensures { told summary_answer result ≡ told (λ _. calls.done) outcome }
{
    match outcome {
        Ok(()) => Ok(SummaryAnswer::Done),
        Err(error) => Err(error.kind()),
    }
}

fn carry_out(
    alloc: Global,
    summary: &mut SummaryInfo,
    call: SummaryCall,
) -> Result<Result<SummaryAnswer, ErrorKind>, Error>
    ensures ok { IfOk result (λ answer. let sent = summary_call_sent call in
        Gives (summary_outcome summary.old sent) (summary_wants_memory sent) summary.old
        (told summary_answer answer) summary.new) }
    ensures fits { OnOk result (FitsSummaryCall (summary_call_sent call)) }
    ensures kind { OnlyMemory result }
{
    match call {
        SummaryCall::Ask(question) => ask(alloc, summary, question),
        SummaryCall::Set(setting) => Ok(done(set(summary, setting))),
        SummaryCall::Clear(property) => Ok(done(summary.clear_property(property))),
    }
}

pub(crate) fn ask_all(
    alloc: Global,
    summary: &SummaryInfo,
    questions: Items<SummaryProperty>,
) -> Result<Items<Result<SummaryAnswer, ErrorKind>>, Error>
    ensures ok { IfOk result (λ answers. RunsTo summary_outcome summary_wants_memory summary.now
        (map calls.ask questions) (map (told summary_answer) answers) summary.now) }
    ensures kind { OnlyMemory result }
{
    let mut answers = Vec::new(alloc);
    for question in questions.into_vec() {
        answers.push(ask(alloc, summary, question)?)?;
    }
    Ok(Items::from_vec(answers))
}

pub(crate) fn carry_out_all(
    alloc: Global,
    summary: &mut SummaryInfo,
    steps: Items<SummaryCall>,
) -> Result<Items<Result<SummaryAnswer, ErrorKind>>, Error>
    ensures ok { IfOk result (λ answers. RunsTo summary_outcome summary_wants_memory summary.old
        (map summary_call_sent steps) (map (told summary_answer) answers) summary.new) }
    ensures fits { OnOk result (AllByRecursion FitsSummaryCall (map summary_call_sent steps)) }
    ensures kind { OnlyMemory result }
{
    let mut answers = Vec::new(alloc);
    for call in steps.into_vec() {
        answers.push(carry_out(alloc, summary, call)?)?;
    }
    Ok(Items::from_vec(answers))
}

fn discard_setting(setting: Setting)
    ensures { FitsSummaryCall (setting_sent setting) }
{
    match setting {
        Setting::Text(_, _) => {}
        Setting::Number(_, _) => {}
        Setting::Time(_, _) => {}
        Setting::Arch(_) => {}
        Setting::Languages(_) => {}
        Setting::Keywords(_) => {}
        Setting::Uuid(_) => {}
        Setting::Codepage(_) => {}
    }
}

fn discard(step: SummaryCall)
    ensures { FitsSummaryCall (summary_call_sent step) }
{
    match step {
        SummaryCall::Ask(_) => {}
        SummaryCall::Set(setting) => discard_setting(setting),
        SummaryCall::Clear(_) => {}
    }
}

/// Drops calls that aren't carried out. Their numbers fit their types all the same.
pub(crate) fn discard_all(steps: Items<SummaryCall>)
    ensures { AllByRecursion FitsSummaryCall (map summary_call_sent steps) }
{
    for call in steps.into_vec() {
        discard(call);
    }
}
