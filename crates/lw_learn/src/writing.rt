//! Writing a model out: the model file, the answers file, the model's text to `out`, and the line about it to `err`.
ghost use Rattle.std.specs.Prelude.{◌≡◌, ◌≢◌, ◌⊎◌, ◌++◌, ℕ, ◌≤◌, [], length, take, true, false, Some, None, Err, IfErr, IfOk, OnOk, OnErr, option_map};
ghost use Rattle.lw_words.specs.Cause.{CountedFault};
ghost use Rattle.lw_json.specs.AnswersText.{IsAnswersText};
ghost use Rattle.lw_json.specs.KeptOver.{AreKeptOver};
ghost use Rattle.lw_report.specs.Writing.{TakesAll, TakesSome};
ghost use Rattle.lw_report.specs.Text.{text_of};
ghost use Rattle.lw_report.specs.declared.role.Role.{Role as Part};
ghost use Rattle.lw_report.specs.declared.role.Role.TheVariants.{Answers as AnswersRole, Kept as KeptRole, Model as ModelRole};
ghost use Rattle.lw_report.specs.declared.stops.TellStop.{TellStop as Stop};
ghost use Rattle.lw_report.specs.declared.outcome.Outcome.{Outcome as Came};
ghost use Rattle.lw_learn.specs.Calls.{all_writes, write_of};
ghost use Rattle.lw_system.specs.Reads.{gained};
ghost use Rattle.lw_learn.specs.Outcomes.{IsLearnedOutcome, ReportIsTold, told_outcome};
ghost use Rattle.lw_learn.specs.Saving.{MayTell};
ghost use Rattle.lw_learn.specs.declared.saving.Saved.TheVariants as Was;
ghost use Rattle.lw_learn.specs.Writing.{CountsStay, IsWritable, PutsAll, PutsSome, StandsInFile, StaysBesides, TakesInTurn, WritesFiles, WritesOut, told_text};

use crate::{LearnArguments, Saved};
use lw_json::{Machine, answers_text};
use lw_names::OutNames;
use lw_outside::{Failed, Files, Sink, put_all};
use lw_report::{Outcome, Role, Said, TellStop, say, text, write_file};
use lw_rounds::Learner;
use lw_words::{Kept, NoMemory};
use std::alloc::Global;

/// The texts that are written of a model: its own, that of the recorded answers, where a file is named for them, and
/// the line about it.
#[derive(Drop)]
struct Texts {
    model: Vec<u8>,
    answers: Vec<u8>,
    line: Vec<u8>,
}

/// What is reported of a model: the text that is written of it, and the outcome where all was written.
#[derive(Drop)]
pub(crate) struct Report {
    pub(crate) text: Vec<u8>,
    pub(crate) outcome: Outcome,
}

/// A model with its names, the learner that it was read off, the recorded answers with the names of their outputs, and
/// whether these answers were saved.
#[derive(Drop)]
pub(crate) struct NamedModel {
    pub(crate) machine: Machine,
    pub(crate) learner: Learner,
    pub(crate) kept: Kept,
    pub(crate) outputs: Option<OutNames>,
    pub(crate) saved: Saved,
}

/// Makes the texts that are written of a model beside its own, which stands with them.
fn texts_of(
    alloc: Global,
    arguments: &LearnArguments,
    machine: &Machine,
    kept: &Kept,
    model: Vec<u8>,
    outcome: &Outcome,
) -> Result<Texts, NoMemory>
    requires over { AreKeptOver (length machine.now.inputs) (length machine.now.outputs)
        kept.now.answers }
    ensures model { IfOk result (λ texts. texts.model.items ≡ model.items) }
    ensures answers { IfOk result (λ texts. arguments.now.answers ≢ None →
        IsAnswersText machine.now.inputs machine.now.outputs kept.now.answers
        texts.answers.items) }
    ensures line { IfOk result (λ texts. texts.line.items ≡
        text_of machine.now.inputs machine.now.outputs kept.now.answers arguments.now.extra
        outcome.now) }
{
    let answers = match arguments.answers() {
        Some(_) => answers_text(alloc, &machine.inputs, &machine.outputs, kept)?,
        None => Vec::new(alloc),
    };
    let line = text(
        alloc,
        outcome,
        &machine.inputs,
        &machine.outputs,
        kept,
        arguments.extra(),
    )?;
    Ok(Texts {
        model,
        answers,
        line,
    })
}

/// Writes the file in a role, where one is named.
fn write_named<F: Files>(
    files: &mut F,
    role: Role,
    name: Option<&str>,
    bytes: &[u8],
) -> Result<(), TellStop>
    ensures told { OnOk result (StandsInFile (option_map (λ n. n.now) name.entry)
        (F.state files.new).holds bytes.now) }
    ensures beside { StaysBesides (option_map (λ n. n.now) name.entry) None None
        (F.state files.old).holds (F.state files.new).holds }
    ensures ok { OnOk result ((F.state files.new).calls ≡
        gained (write_of (option_map (λ n. n.now) name.entry) false) (F.state files.old).calls) }
    ensures role { (other : Part) → result ≡ Err (Stop.File other) → other ≡ role }
    ensures named { result ≡ Err (Stop.File role) → name.entry ≢ None }
    ensures failed { result ≡ Err (Stop.File role) → CountedFault (F.state files.old).faults
        (F.state files.new).faults }
    ensures failed_call { result ≡ Err (Stop.File role) → (F.state files.new).calls ≡
        gained (write_of (option_map (λ n. n.now) name.entry) true) (F.state files.old).calls }
    ensures memory { result ≡ Err Stop.NoMemory → (F.state files.new).calls ≡
        (F.state files.old).calls }
    ensures no_sink { ¬ (result ≡ Err Stop.Sink) }
    ensures reads { (F.state files.new).reads ≡ (F.state files.old).reads }
    ensures quiet { OnOk result ((F.state files.new).faults ≡ (F.state files.old).faults) }
    ensures counts { (F.state files.old).faults ≤ (F.state files.new).faults }
{
    match name {
        Some(name) => write_file(files, role, name, bytes),
        None => Ok(()),
    }
}

/// Writes the model file, then the answers file, where they are named.
fn write_files<F: Files>(
    files: &mut F,
    arguments: &LearnArguments,
    texts: &Texts,
) -> Result<(), TellStop>
    ensures model { OnOk result (arguments.now.model ≢ arguments.now.answers →
        StandsInFile arguments.now.model (F.state files.new).holds texts.now.model.items) }
    ensures answers { OnOk result (StandsInFile arguments.now.answers (F.state files.new).holds
        texts.now.answers.items) }
    ensures model_before { result ≡ Err (Stop.File AnswersRole) → arguments.now.model ≢
        arguments.now.answers → StandsInFile arguments.now.model (F.state files.new).holds
        texts.now.model.items }
    ensures beside { StaysBesides arguments.now.model arguments.now.answers None
        (F.state files.old).holds (F.state files.new).holds }
    ensures ok { OnOk result ((F.state files.new).calls ≡ gained (all_writes arguments.now)
        (F.state files.old).calls) }
    ensures role { (role : Part) → result ≡ Err (Stop.File role) →
        ((role ≡ ModelRole) × (arguments.now.model ≢ None)) ⊎
        ((role ≡ AnswersRole) × (arguments.now.answers ≢ None)) }
    ensures failed { (role : Part) → result ≡ Err (Stop.File role) →
        CountedFault (F.state files.old).faults (F.state files.new).faults }
    ensures model_call { result ≡ Err (Stop.File ModelRole) → (F.state files.new).calls ≡
        gained (write_of arguments.now.model true) (F.state files.old).calls }
    ensures answers_call { result ≡ Err (Stop.File AnswersRole) → (F.state files.new).calls ≡
        gained (write_of arguments.now.model false ++ write_of arguments.now.answers true)
        (F.state files.old).calls }
    ensures memory { result ≡ Err Stop.NoMemory →
        (n : ℕ) × ((F.state files.new).calls ≡ gained (take n (all_writes arguments.now))
        (F.state files.old).calls) }
    ensures no_sink { ¬ (result ≡ Err Stop.Sink) }
    ensures reads { (F.state files.new).reads ≡ (F.state files.old).reads }
    ensures quiet { OnOk result ((F.state files.new).faults ≡ (F.state files.old).faults) }
    ensures counts { (F.state files.old).faults ≤ (F.state files.new).faults }
{
    write_named(files, Role::Model, arguments.model(), &texts.model)?;
    write_named(files, Role::Answers, arguments.answers(), &texts.answers)
}

/// Puts the model's text to `out`, where no file is named for it.
fn put_model<O: Sink>(out: &mut O, file: Option<&str>, bytes: &[u8]) -> Result<(), Failed>
    ensures ok { OnOk result (PutsAll (option_map (λ n. n.now) file.entry) bytes.now
        (O.state out.old).taken (O.state out.new).taken) }
    ensures part { PutsSome (option_map (λ n. n.now) file.entry) bytes.now (O.state out.old).taken
        (O.state out.new).taken }
    ensures quiet { OnOk result ((O.state out.new).faults ≡ (O.state out.old).faults) }
    ensures failed { OnErr result (CountedFault (O.state out.old).faults
        (O.state out.new).faults) }
    ensures counts { (O.state out.old).faults ≤ (O.state out.new).faults }
{
    match file {
        Some(_) => Ok(()),
        None => put_all(out, bytes),
    }
}

/// Puts the line about a model to `err`, where the recorded answers' file didn't fail.
fn put_line<E: Sink>(saved: Saved, line: &[u8], err: &mut E) -> Result<(), TellStop>
    requires memory { ¬ (saved ≡ Was.NoMemory) }
    ensures ok { OnOk result (TakesAll line.now (E.state err.old).taken (E.state err.new).taken) }
    ensures stood { OnOk result (saved ≡ Was.Stand) }
    ensures part { TakesSome line.now (E.state err.old).taken (E.state err.new).taken }
    ensures unsaid { OnErr result (¬ CountedFault (E.state err.old).faults
        (E.state err.new).faults → (E.state err.new).taken ≡ (E.state err.old).taken) }
    ensures stops { IfErr result (λ stop. (stop ≡ Stop.Sink) ⊎ (stop ≡ Stop.File KeptRole)) }
    ensures kept { result ≡ Err (Stop.File KeptRole) → saved ≡ Was.Failed }
    ensures refused { result ≡ Err Stop.Sink → CountedFault (E.state err.old).faults
        (E.state err.new).faults }
    ensures quiet { OnOk result ((E.state err.new).faults ≡ (E.state err.old).faults) }
    ensures counts { (E.state err.old).faults ≤ (E.state err.new).faults }
{
    match saved {
        Saved::Stand => {
            put_all(err, line)?;
            Ok(())
        }
        Saved::Failed => Err(TellStop::File(Role::Kept)),
        Saved::NoMemory => unreachable!(),
    }
}

/// Puts the model's text to `out`, where no file is named for it, then the line to `err`, where the recorded answers'
/// file didn't fail.
fn put_streams<O: Sink, E: Sink>(
    arguments: &LearnArguments,
    texts: &Texts,
    saved: Saved,
    out: &mut O,
    err: &mut E,
) -> Result<(), TellStop>
    requires memory { ¬ (saved ≡ Was.NoMemory) }
    ensures written { OnOk result (PutsAll arguments.now.model texts.now.model.items
        (O.state out.old).taken (O.state out.new).taken) }
    ensures part { PutsSome arguments.now.model texts.now.model.items (O.state out.old).taken
        (O.state out.new).taken }
    ensures whole { OnErr result (¬ CountedFault (O.state out.old).faults
        (O.state out.new).faults → PutsAll arguments.now.model texts.now.model.items
        (O.state out.old).taken (O.state out.new).taken) }
    ensures line { OnOk result (TakesAll texts.now.line.items (E.state err.old).taken
        (E.state err.new).taken) }
    ensures line_part { TakesSome texts.now.line.items (E.state err.old).taken
        (E.state err.new).taken }
    ensures unsaid { OnErr result (¬ CountedFault (E.state err.old).faults
        (E.state err.new).faults → (E.state err.new).taken ≡ (E.state err.old).taken) }
    ensures stood { OnOk result (saved ≡ Was.Stand) }
    ensures behind { result ≡ Err (Stop.File KeptRole) →
        PutsAll arguments.now.model texts.now.model.items (O.state out.old).taken
        (O.state out.new).taken }
    ensures kept { result ≡ Err (Stop.File KeptRole) → saved ≡ Was.Failed }
    ensures refused { result ≡ Err Stop.Sink → CountedFault (O.state out.old).faults
        (O.state out.new).faults ⊎ CountedFault (E.state err.old).faults
        (E.state err.new).faults }
    ensures stops { IfErr result (λ stop. (stop ≡ Stop.Sink) ⊎ (stop ≡ Stop.File KeptRole)) }
    ensures quiet { OnOk result (((O.state out.new).faults ≡ (O.state out.old).faults) ×
        ((E.state err.new).faults ≡ (E.state err.old).faults)) }
    ensures counts { ((O.state out.old).faults ≤ (O.state out.new).faults) ×
        ((E.state err.old).faults ≤ (E.state err.new).faults) }
{
    put_model(out, arguments.model(), &texts.model)?;
    put_line(saved, &texts.line, err)
}

/// Writes a model out, once the recorded answers were saved: the files that are named, the model's text to `out` where
/// none is named for it, and the line about it to `err`, or in place of the line that the recorded answers' file
/// failed. All these texts are made before the first is written.
fn write_model<F: Files, O: Sink, E: Sink>(
    alloc: Global,
    arguments: &LearnArguments,
    model: &NamedModel,
    report: Report,
    files: &mut F,
    out: &mut O,
    err: &mut E,
) -> Result<Outcome, TellStop>
    requires over { AreKeptOver (length model.now.machine.inputs) (length model.now.machine.outputs)
        model.now.kept.answers }
    requires tells { IsLearnedOutcome report.outcome }
    ensures ok { IfOk result (λ o. o ≡ report.outcome) }
    ensures files { WritesFiles arguments.now report.text.items model.now.machine
        model.now.kept.answers (told_outcome report.outcome result) (F.state files.new).holds
        ((F.state files.old).calls, (F.state files.new).calls) }
    ensures out { WritesOut arguments.now.model report.text.items
        (told_outcome report.outcome result)
        ((O.state out.old).taken, (O.state out.new).taken)
        ((O.state out.old).faults, (O.state out.new).faults) }
    ensures beside { StaysBesides arguments.now.model arguments.now.answers None
        (F.state files.old).holds (F.state files.new).holds }
    ensures role { (role : Part) → result ≡ Err (Stop.File role) →
        IsWritable arguments.now role }
    ensures failed { (role : Part) → result ≡ Err (Stop.File role) → role ≢ KeptRole →
        CountedFault (F.state files.old).faults (F.state files.new).faults }
    ensures stood { OnOk result (model.now.saved ≡ Was.Stand) }
    ensures unsaved { result ≡ Err (Stop.File KeptRole) → model.now.saved ≡ Was.Failed }
    ensures wants { model.now.saved ≡ Was.NoMemory → result ≡ Err Stop.NoMemory }
    ensures refused { result ≡ Err Stop.Sink → CountedFault (O.state out.old).faults
        (O.state out.new).faults ⊎ CountedFault (E.state err.old).faults
        (E.state err.new).faults }
    ensures line { OnOk result
        (TakesAll (told_text model.now.machine model.now.kept.answers arguments.now.extra
        report.outcome) (E.state err.old).taken (E.state err.new).taken) }
    ensures line_part { TakesSome (told_text model.now.machine model.now.kept.answers
        arguments.now.extra report.outcome) (E.state err.old).taken (E.state err.new).taken }
    ensures unsaid { OnErr result (¬ CountedFault (E.state err.old).faults
        (E.state err.new).faults → (E.state err.new).taken ≡ (E.state err.old).taken) }
    ensures reads { (F.state files.new).reads ≡ (F.state files.old).reads }
    ensures quiet { OnOk result (CountsStay (F.state files.old) (F.state files.new)
        (O.state out.old) (O.state out.new) (E.state err.old) (E.state err.new)) }
    ensures counts { ((F.state files.old).faults ≤ (F.state files.new).faults) ×
        ((O.state out.old).faults ≤ (O.state out.new).faults) ×
        ((E.state err.old).faults ≤ (E.state err.new).faults) }
{
    model.saved.memory()?;
    let Report { text, outcome } = report;
    let (machine, kept) = (&model.machine, &model.kept);
    let texts = texts_of(alloc, arguments, machine, kept, text, &outcome)?;
    write_files(files, arguments, &texts)?;
    put_streams(arguments, &texts, model.saved, out, err)?;
    Ok(outcome)
}

/// Writes a model out, or says to `err` why that was not done.
pub(crate) fn tell_model<F: Files, O: Sink, E: Sink>(
    alloc: Global,
    arguments: &LearnArguments,
    model: &NamedModel,
    report: Report,
    files: &mut F,
    out: &mut O,
    err: &mut E,
) -> Outcome
    requires over { AreKeptOver (length model.now.machine.inputs) (length model.now.machine.outputs)
        model.now.kept.answers }
    requires tells { IsLearnedOutcome report.outcome }
    ensures outcome { ReportIsTold report.outcome result }
    ensures files { WritesFiles arguments.now report.text.items model.now.machine
        model.now.kept.answers result (F.state files.new).holds
        ((F.state files.old).calls, (F.state files.new).calls) }
    ensures out { WritesOut arguments.now.model report.text.items result
        ((O.state out.old).taken, (O.state out.new).taken)
        ((O.state out.old).faults, (O.state out.new).faults) }
    ensures beside { StaysBesides arguments.now.model arguments.now.answers None
        (F.state files.old).holds (F.state files.new).holds }
    ensures role { (role : Part) → result ≡ Came.FileFault role →
        IsWritable arguments.now role }
    ensures failed { (role : Part) → result ≡ Came.FileFault role → role ≢ KeptRole →
        CountedFault (F.state files.old).faults (F.state files.new).faults }
    ensures may { MayTell model.now.saved result }
    ensures refused { result ≡ Came.SinkFault → CountedFault (O.state out.old).faults
        (O.state out.new).faults ⊎ CountedFault (E.state err.old).faults
        (E.state err.new).faults }
    ensures said { ¬ CountedFault (E.state err.old).faults (E.state err.new).faults →
        TakesAll (told_text model.now.machine model.now.kept.answers arguments.now.extra result)
        (E.state err.old).taken (E.state err.new).taken }
    ensures part { TakesInTurn
        (told_text model.now.machine model.now.kept.answers arguments.now.extra report.outcome)
        (told_text model.now.machine model.now.kept.answers arguments.now.extra result)
        (E.state err.old).taken (E.state err.new).taken }
    ensures reads { (F.state files.new).reads ≡ (F.state files.old).reads }
    ensures quiet { IsLearnedOutcome result →
        CountsStay (F.state files.old) (F.state files.new) (O.state out.old) (O.state out.new)
        (E.state err.old) (E.state err.new) }
    ensures counts { ((F.state files.old).faults ≤ (F.state files.new).faults) ×
        ((O.state out.old).faults ≤ (O.state out.new).faults) ×
        ((E.state err.old).faults ≤ (E.state err.new).faults) }
{
    match write_model(alloc, arguments, model, report, files, out, err) {
        Ok(outcome) => outcome,
        Err(stop) => {
            let said = Said {
                inputs: Some(&model.machine.inputs),
                outputs: Some(&model.machine.outputs),
            };
            let extra = arguments.extra();
            say(alloc, Outcome::from(stop), said, &model.kept, extra, err)
        }
    }
}
