//! What is printed of outcomes and refusals.

ghost use Rattle.std.specs.Prelude.{◌≡◌, ◌++◌, ℕ, List, codes, IfOk, IfSome};
ghost use Rattle.std.specs.Str.{trim_end};
ghost use Rattle.sp_texts.specs.RefusalTexts.{IsRefusalOf, TellsCheck, TellsFile, TellsLink, TellsRefusal, TellsSet, TellsStart, TellsUnreadable, refused_method, rule_text, unreadable_text};
ghost use Rattle.sp_texts.specs.Reports.{IsLine, line_of};
ghost use Rattle.sp_texts.specs.Statuses.{file_status, outcome_status, refusal_status};
ghost use Rattle.sp_texts.specs.Texts.{accepted_text, bad_line_text, ints_text, outcome_text, value_text};

use crate::line::Line;
use crate::{Report, Status};
use cf_load::LoadFault;
use cf_reader::{Numbered, ReadFault, Text};
use cls_link::LinkFault;
use cls_set::SetFault;
use sp_files::{ClassBytes, Refusal, RunOutcome};
use sp_words::FolderFault;
use space_ids::Value;
use std::alloc::{AllocError, Global};
use ver_check::CheckFault;
use vm_step::StartFault;

/// Returns a text, with one newline at its end.
pub fn text_report(alloc: Global, text: &str, status: Status) -> Result<Report, AllocError>
    ensures status { IfOk result (λ report. report.status ≡ status) }
    ensures text { IfOk result (λ report. report.text.items ≡ line_of (trim_end text.now)) }
{
    Line::new(alloc).text(text.trim_end())?.report(status)
}

/// Returns the report of how a method ended.
pub fn outcome_report(alloc: Global, outcome: &RunOutcome) -> Result<Report, AllocError>
    ensures status { IfOk result (λ report. report.status ≡ outcome_status outcome.now) }
    ensures text { IfOk result (λ report. report.text.items ≡ line_of (outcome_text outcome.now)) }
{
    let line = Line::new(alloc);
    match outcome {
        RunOutcome::Returned(None) => line.text("returned")?.report(Status::Done),
        RunOutcome::Returned(Some(value)) => {
            with_value(line.text("returned ")?, value)?.report(Status::Done)
        }
        RunOutcome::Threw(class) => line
            .text("threw ")?
            .bytes(class.as_bytes())?
            .report(Status::Ended),
        RunOutcome::Spent => line.text("spent")?.report(Status::Ended),
    }
}

fn with_value(line: Line, value: &Value) -> Result<Line, AllocError>
    ensures { IfOk result (λ longer. longer ≡ line ++ value_text value.now) }
{
    match value {
        Value::Null => line.text("null"),
        Value::Int(int) => line.display(int),
        Value::Ints(ints) => with_ints(line, ints.as_slice()),
        Value::Ref(reference) => line.text("ref 0 ")?.display(&reference.id.0),
    }
}

fn with_ints(line: Line, ints: &[i32]) -> Result<Line, AllocError>
    ensures { IfOk result (λ longer. longer ≡ line ++ ints_text ints.now) }
{
    let mut line = line.text("[")?;
    for (index, int) in ints.iter().enumerate() {
        if index > 0 {
            line = line.text(",")?;
        }
        line = line.display(int)?;
    }
    line.text("]")
}

/// Returns the report of why a class set is not run. `files` are those that were handed in: a
/// refusal of a file names one of them.
pub fn refusal_report(
    alloc: Global,
    files: &[ClassBytes],
    refusal: &Refusal,
) -> Result<Report, AllocError>
    requires file { IsRefusalOf files.now refusal.now }
    ensures status { IfOk result (λ report. report.status ≡ refusal_status refusal.now) }
    ensures text { IfOk result (λ report. TellsRefusal files.now refusal.now report.text.items) }
    ensures line { IfOk result (λ report. IsLine report.text.items) }
{
    match refusal {
        Refusal::File { index, fault } => file_report(alloc, &files[*index].path, *fault),
        Refusal::Set(fault) => set_report(alloc, fault),
        Refusal::Link(fault) => link_report(alloc, fault),
        Refusal::Check(fault) => check_report(alloc, fault),
        Refusal::Start(fault) => start_report(alloc, *fault),
        Refusal::Memory => Err(AllocError),
    }
}

fn file_report(alloc: Global, path: &str, fault: LoadFault) -> Result<Report, AllocError>
    ensures status { IfOk result (λ report. report.status ≡ file_status fault) }
    ensures text { IfOk result (λ report. TellsFile path.now fault report.text.items) }
    ensures line { IfOk result (λ report. IsLine report.text.items) }
{
    match fault {
        LoadFault::Device => unreadable_report(alloc, path),
        LoadFault::Read(ReadFault::Memory) => Err(AllocError),
        LoadFault::Read(ReadFault::Broken { rule, at }) => {
            let line = refused(alloc)?.text(path)?.text(" at ")?.display(&at)?;
            fault_report(line, &rule, Status::Refused)
        }
    }
}

/// Returns the report of a script that is done: the lines that it shows.
pub fn played_report(text: Vec<u8>) -> Report
    ensures status { result.status ≡ Status.Done }
    ensures text { result.text ≡ text }
{
    Report {
        text,
        status: Status::Done,
    }
}

/// Returns the report of a script whose line of this number is bad.
pub fn bad_line_report(alloc: Global, number: usize) -> Result<Report, AllocError>
    ensures status { IfOk result (λ report. report.status ≡ Status.Failed) }
    ensures text { IfOk result (λ report. report.text.items ≡ line_of (bad_line_text number)) }
{
    Line::new(alloc)
        .text("line ")?
        .display(&number)?
        .text(": bad")?
        .report(Status::Failed)
}

/// Returns the report of a class set that is accepted: of how many files it was made.
pub fn accepted_report(alloc: Global, files: usize) -> Result<Report, AllocError>
    ensures status { IfOk result (λ report. report.status ≡ Status.Done) }
    ensures text { IfOk result (λ report. report.text.items ≡ line_of (accepted_text files)) }
{
    Line::new(alloc)
        .text("accepted ")?
        .display(&files)?
        .text(" classes")?
        .report(Status::Done)
}

/// Returns the report of a folder whose files cannot be listed, or of a path that leads to none.
pub fn folder_report(alloc: Global, fault: FolderFault) -> Result<Report, AllocError>
    ensures status { IfOk result (λ report. report.status ≡ Status.Failed) }
    ensures text { IfOk result (λ report. (path : List ℕ)
        × TellsUnreadable path report.text.items) }
{
    match fault {
        FolderFault::CannotRead(path) => unreadable_report(alloc, &path),
        FolderFault::Memory => Err(AllocError),
    }
}

/// Returns the report of a file that cannot be read.
pub fn unreadable_report(alloc: Global, path: &str) -> Result<Report, AllocError>
    ensures status { IfOk result (λ report. report.status ≡ Status.Failed) }
    ensures text { IfOk result (λ report. report.text.items ≡ line_of (unreadable_text path.now)) }
    ensures line { IfOk result (λ report. IsLine report.text.items) }
{
    Line::new(alloc)
        .text("cannot read ")?
        .text(path)?
        .report(Status::Failed)
}

fn set_report(alloc: Global, fault: &SetFault) -> Result<Report, AllocError>
    ensures status { IfOk result (λ report. report.status ≡ Status.Refused) }
    ensures text { IfOk result (λ report. TellsSet fault.now report.text.items) }
    ensures line { IfOk result (λ report. IsLine report.text.items) }
{
    match fault {
        SetFault::Memory => Err(AllocError),
        SetFault::Broken { rule, class } => {
            let line = refused(alloc)?.bytes(class.as_bytes())?;
            fault_report(line, rule, Status::Refused)
        }
    }
}

fn link_report(alloc: Global, fault: &LinkFault) -> Result<Report, AllocError>
    ensures status { IfOk result (λ report. report.status ≡ Status.Refused) }
    ensures text { IfOk result (λ report. TellsLink fault.now report.text.items) }
    ensures line { IfOk result (λ report. IsLine report.text.items) }
{
    match fault {
        LinkFault::Memory => Err(AllocError),
        LinkFault::Broken {
            rule,
            class,
            method,
            descriptor,
            at,
        } => method_report(alloc, class, method, descriptor, usize::from(*at), rule),
    }
}

fn check_report(alloc: Global, fault: &CheckFault) -> Result<Report, AllocError>
    ensures status { IfOk result (λ report. report.status ≡ Status.Refused) }
    ensures text { IfOk result (λ report. TellsCheck fault.now report.text.items) }
    ensures line { IfOk result (λ report. IsLine report.text.items) }
{
    match fault {
        CheckFault::Memory => Err(AllocError),
        CheckFault::Broken {
            rule,
            class,
            method,
            descriptor,
            at,
        } => method_report(alloc, class, method, descriptor, *at, rule),
    }
}

fn start_report(alloc: Global, fault: StartFault) -> Result<Report, AllocError>
    ensures status { IfOk result (λ report. report.status ≡ Status.Failed) }
    ensures text { IfOk result (λ report. TellsStart fault report.text.items) }
    ensures line { IfOk result (λ report. IsLine report.text.items) }
{
    match fault {
        StartFault::Memory => Err(AllocError),
        _ => fault_report(refused(alloc)?.text("start")?, &fault, Status::Failed),
    }
}

fn refused(alloc: Global) -> Result<Line, AllocError>
    ensures { IfOk result (λ line. line ≡ codes "refused ") }
{
    Line::new(alloc).text("refused ")
}

// What is reported of a method that breaks a rule at an offset of its code.
fn method_report<F: Numbered>(
    alloc: Global,
    class: &Text,
    method: &Text,
    descriptor: &Text,
    at: usize,
    rule: &F,
) -> Result<Report, AllocError>
    ensures status { IfOk result (λ report. report.status ≡ Status.Refused) }
    ensures text { IfOk result (λ report. IfSome (F.output rule.now) (λ name.
        report.text.items ≡ line_of (rule_text (refused_method class.now method.now descriptor.now at) (F.number rule.now) name))) }
    ensures line { IfOk result (λ report. IsLine report.text.items) }
{
    let line = refused(alloc)?
        .bytes(class.as_bytes())?
        .text(".")?
        .bytes(method.as_bytes())?
        .bytes(descriptor.as_bytes())?
        .text(" at ")?
        .display(&at)?;
    fault_report(line, rule, Status::Refused)
}

// The line, ended by a fault's number and name.
fn fault_report<F: Numbered>(line: Line, fault: &F, status: Status) -> Result<Report, AllocError>
    ensures status { IfOk result (λ report. report.status ≡ status) }
    ensures text { IfOk result (λ report. IfSome (F.output fault.now) (λ name.
        report.text.items ≡ line_of (rule_text line (F.number fault.now) name))) }
    ensures line { IfOk result (λ report. IsLine report.text.items) }
{
    line.text(": ")?
        .display(&fault.number())?
        .text(" ")?
        .display(fault)?
        .report(status)
}
