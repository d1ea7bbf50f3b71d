//! The whole program, from the arguments after its name to its exit status.
ghost use Rattle.std.specs.Prelude.{◌≡◌, ◌⊎◌, ◌≤◌, ◌∷◌, [], ℕ, List, Err, Ok, OnErr, codes, false, true, map};
ghost use Rattle.std.specs.Str.{bytes_eq};
ghost use Rattle.command_line.specs.Lines.{Given, IsCommandLine, NoCommandLine, given, texts};
ghost use Rattle.command_line.specs.declared.prose.Command.TheVariants as the;
ghost use Rattle.cli.specs.Json.{is_json as is_asked};
ghost use Rattle.cli.specs.Parts.{native_of, parts_of as parts_in, read};
ghost use Rattle.cli.specs.Dispatch.{Answers, AnswersCheck, AnswersExport, AnswersRead, AnswersRun, AnswersVerdict};
ghost use Rattle.cli.specs.Dispatch.{AnswersObjects, AskedChanges, AskedRefusal, DoesAsked, DoesObjects, OfInner};
ghost use Rattle.cli.specs.Dispatch.{Does, DoesWith, ExplainsBy, ExplainsWhy, IsMisuse, TellsChanges, TellsMisuse, TellsRefusal, asks_but, leave_of};
ghost use Rattle.cli.specs.Statuses.{AreRight, AreRightAtLeast, AreRightBehind, HasRun};
ghost use Rattle.cli.specs.Stop.{ends_told};

use crate::adapting::adapted;
use crate::certifying::certify;
use crate::combining::{combined, stacked};
use crate::ending::status_on;
use crate::explaining::explain;
use crate::exporting::export_for;
use crate::files::{
    Files, read_bundles, read_certificate, read_document, read_filter, read_little_filter,
    read_record,
};
use crate::flattening::flattened;
use crate::logs::{learned, replayed};
use crate::manual::{manual, version};
use crate::objects::{is_json, write_answer};
use crate::parts::{Form, Parts, form_of, parts_of};
use crate::recovering::recovered;
use crate::remarking::remark_on;
use crate::reviewing::review_as;
use crate::run::run_bundles;
use crate::showing::{annotated, describe, drawn, rules};
use crate::stops::Stop;
use crate::text_commands::{assembled, compare_as, linted, record, tell, tell_both};
use command_line::{Command, CommandLine, read_arguments};
use machines::Arch;
use maker::{check_line, verdict_line};
use std::alloc::Global;
use texts::{Sink, Source, ToWrite};
use together::Way;

// Answers a filter to a record.
fn verdict<'a, F: Files, O: Sink>(
    alloc: Global,
    filter: &'a str,
    rec: &'a str,
    files: &mut F,
    out: &mut O,
) -> Result<bool, Stop<'a>>
    ensures { AnswersVerdict O.held O.failures (F.folder files.old) out.old out.new filter.entry.now rec.entry.now result }
{
    let program = read_little_filter(alloc, files, filter)?;
    let call = read_record(alloc, files, rec)?;
    Ok(verdict_line(&program, &call, out)?)
}

// Says whether a certificate shows that a filter answers what a bundle says.
fn check<'a, F: Files, O: Sink>(
    alloc: Global,
    native: Arch,
    bundle: &'a str,
    filter: &'a str,
    certificate: &'a str,
    files: &mut F,
    out: &mut O,
) -> Result<bool, Stop<'a>>
    ensures { AnswersCheck O.held O.failures (F.folder files.old) out.old out.new native bundle.entry.now filter.entry.now certificate.entry.now result }
{
    let document = read_document(alloc, native, files, bundle)?;
    let filter = read_filter(alloc, native, files, filter)?;
    let certificate = read_certificate(alloc, files, certificate)?;
    Ok(check_line(alloc, &document, &filter, &certificate, out)?)
}

// Writes the filter of a bundle in a form, once it is checked, or why it has none.
fn export<'a, F: Files, O: Sink>(
    alloc: Global,
    native: Arch,
    bundle: &'a str,
    form: Form,
    files: &mut F,
    out: &mut O,
) -> Result<bool, Stop<'a>>
    ensures { AnswersExport O.held O.failures (F.folder files.old) out.old out.new native bundle.entry.now form result }
{
    let document = read_document(alloc, native, files, bundle)?;
    export_for(alloc, &document, form, out)
}

// Answers a script with the filters of bundles, once they are checked, or says why the first without one has none.
fn run<'a, F: Files, I: Source, O: Sink>(
    alloc: Global,
    native: Arch,
    bundles: &'a [&'a str],
    files: &mut F,
    input: &mut I,
    out: &mut O,
) -> Result<bool, Stop<'a>>
    ensures { AnswersRun I.left I.failures O.held O.failures (F.folder files.old) input.old input.new out.old out.new
        native (map (λ b. b.now) bundles.entry.now) result }
{
    let texts = read_bundles(alloc, native, files, bundles)?;
    run_bundles(alloc, native, &texts, input, out)
}

// Tells what a bundle means, as the word behind the file asks.
fn read_as<'a, F: Files, O: Sink>(
    alloc: Global,
    parts: Parts<'a>,
    files: &mut F,
    out: &mut O,
) -> Result<bool, Stop<'a>>
    ensures { AnswersRead O.held O.failures (F.folder files.old) out.old out.new (bytes_eq parts.entry.three.now (codes "rules")) (read parts.entry) result }
{
    if parts.three == "rules" {
        return tell(rules(alloc, parts.native, parts.two, files), out);
    }
    tell(describe(alloc, parts.native, parts.two, files), out)
}

// Carries a command out: true where it answered a verdict or yes, wrote what was asked for or ran a script, false where it
// refused.
fn obey<'a, F: Files, I: Source, O: Sink, E: Sink>(
    alloc: Global,
    command: Command,
    parts: Parts<'a>,
    files: &mut F,
    input: &mut I,
    out: &mut O,
    err: &mut E,
) -> Result<bool, Stop<'a>>
    ensures does { DoesWith I.left I.failures O.held O.failures (F.folder files.old) input.old input.new out.old out.new
        command (read parts.entry) result }
    // Nothing is told on standard error but of a filter that is refuted, of a stub, and of what was changed.
    ensures stopped { OnErr result ((ends_told result ≡ true) ⊎ (err.new ≡ err.old)) }
    ensures quiet { result ≡ Ok true → TellsChanges command (read parts.entry) ⊎ (err.new ≡ err.old) }
    ensures no { result ≡ Ok false → TellsRefusal command (read parts.entry) ⊎ (err.new ≡ err.old) }
    ensures refused { ends_told result ≡ true → TellsRefusal command (read parts.entry) ⊎ (err.new ≡ err.old) }
    // Of a filter that is refuted the record is explained that was told.
    ensures explained { ExplainsBy O.held O.failures E.held E.failures (F.folder files.old) out.old out.new err.old err.new
        command (read parts.entry) result }
{
    let native = parts.native;
    match command {
        Command::Verdict => verdict(alloc, parts.one, parts.two, files, out),
        Command::Check => check(
            alloc,
            native,
            parts.two,
            parts.three,
            parts.four,
            files,
            out,
        ),
        Command::Certify => certify(alloc, parts, files, out, err),
        Command::Export => export(alloc, native, parts.two, form_of(parts.three), files, out),
        Command::Run => run(alloc, native, parts.from_two, files, input, out),
        Command::Explain => {
            tell(
                explain(alloc, native, parts.two, parts.from_three, files, input),
                out,
            )
        }
        Command::Read => read_as(alloc, parts, files, out),
        Command::Record => tell(record(alloc, native, parts.from_two), out),
        Command::Assemble => tell(assembled(alloc, parts.one, files), out),
        Command::Annotate => { tell(annotated(alloc, native, parts.two, parts.three, files), out) }
        Command::Draw => tell(drawn(alloc, native, parts.two, files), out),
        Command::Lint => tell(linted(alloc, native, parts.two, files), out),
        Command::Compare => compare_as(alloc, parts, files, out),
        Command::Adapt => {
            tell_both(
                adapted(alloc, native, parts.two, parts.from_three, files),
                out,
                err,
            )
        }
        Command::Learn => tell_both(learned(alloc, native, parts.from_two, files), out, err),
        Command::Replay => {
            tell(
                replayed(alloc, native, parts.two, parts.from_three, files),
                out,
            )
        }
        Command::Recover => {
            tell_both(
                recovered(alloc, native, parts.from_three, parts.two, files),
                out,
                err,
            )
        }
        Command::Join => {
            tell_both(
                combined(alloc, native, Way::Laxest, parts.from_two, files),
                out,
                err,
            )
        }
        Command::Meet => {
            tell_both(
                combined(alloc, native, Way::Strictest, parts.from_two, files),
                out,
                err,
            )
        }
        Command::Stack => tell_both(stacked(alloc, native, parts.from_two, files), out, err),
        Command::Flatten => tell(flattened(alloc, native, parts.from_two, files), out),
        Command::Review => review_as(alloc, parts, files, out),
        Command::Json => Err(Stop::Usage),
        Command::Manual => tell(manual(alloc, parts.first), out),
        Command::Version => tell(version(alloc), out),
    }
}

// Carries a command out with its answer in memory, and writes the objects of the answer.
fn answer_in_objects<'a, F: Files, I: Source, O: Sink, E: Sink>(
    alloc: Global,
    name: &str,
    line: CommandLine<'a>,
    files: &mut F,
    input: &mut I,
    out: &mut O,
    err: &mut E,
) -> Result<bool, Stop<'a>>
    ensures answers { AnswersObjects I.left I.failures O.held O.failures (F.folder files.old) input.old input.new out.old out.new
        (given line.entry) name.now result }
    ensures stopped { OnErr result ((ends_told result ≡ true) ⊎ (err.new ≡ err.old)) }
    ensures quiet { result ≡ Ok true → TellsChanges (given line.entry).0 (parts_in (given line.entry).1) ⊎ (err.new ≡ err.old) }
    ensures no { result ≡ Ok false → TellsRefusal (given line.entry).0 (parts_in (given line.entry).1) ⊎ (err.new ≡ err.old) }
    ensures refused { ends_told result ≡ true → TellsRefusal (given line.entry).0 (parts_in (given line.entry).1) ⊎ (err.new ≡ err.old) }
{
    let mut answer = ToWrite::new(Vec::new(alloc));
    let mut told = ToWrite::new(Vec::new(alloc));
    let parts = parts_of(line.parts);
    let outcome = obey(
        alloc,
        line.command,
        parts,
        files,
        input,
        &mut answer,
        &mut told,
    );
    write_answer(
        alloc,
        line.command,
        name,
        &answer.writer,
        &told.writer,
        outcome,
        out,
        err,
    )
}

// Carries out the command that the arguments behind `json` are.
fn json<'a, F: Files, I: Source, O: Sink, E: Sink>(
    alloc: Global,
    arguments: &'a [&'a str],
    files: &mut F,
    input: &mut I,
    out: &mut O,
    err: &mut E,
) -> Result<bool, Stop<'a>>
    ensures does { DoesObjects I.left I.failures O.held O.failures (F.folder files.old) input.old input.new out.old out.new
        (texts arguments.entry.now) result }
    ensures stopped { OnErr result ((ends_told result ≡ true) ⊎ (err.new ≡ err.old)) }
    ensures quiet { result ≡ Ok true → OfInner TellsChanges (texts arguments.entry.now) ⊎ (err.new ≡ err.old) }
    ensures no { result ≡ Ok false → OfInner TellsRefusal (texts arguments.entry.now) ⊎ (err.new ≡ err.old) }
    ensures refused { ends_told result ≡ true → OfInner TellsRefusal (texts arguments.entry.now) ⊎ (err.new ≡ err.old) }
{
    match read_arguments(alloc, arguments) {
        Ok(line) => answer_in_objects(alloc, parts_of(arguments).one, line, files, input, out, err),
        Err(misuse) => Err(Stop::from(misuse)),
    }
}

// Carries out a command line: what `json` asks for, or the command itself.
fn obey_line<'a, F: Files, I: Source, O: Sink, E: Sink>(
    alloc: Global,
    line: CommandLine<'a>,
    files: &mut F,
    input: &mut I,
    out: &mut O,
    err: &mut E,
) -> Result<bool, Stop<'a>>
    ensures does { DoesAsked I.left I.failures O.held O.failures (F.folder files.old) input.old input.new out.old out.new
        (is_asked (given line.entry).0) (given line.entry) result }
    ensures stopped { OnErr result ((ends_told result ≡ true) ⊎ (err.new ≡ err.old)) }
    ensures quiet { result ≡ Ok true → AskedChanges (given line.entry) ⊎ (err.new ≡ err.old) }
    ensures no { result ≡ Ok false → AskedRefusal (given line.entry) ⊎ (err.new ≡ err.old) }
    ensures refused { ends_told result ≡ true → AskedRefusal (given line.entry) ⊎ (err.new ≡ err.old) }
    ensures explained { ExplainsBy O.held O.failures E.held E.failures (F.folder files.old) out.old out.new err.old err.new
        (given line.entry).0 (parts_in (given line.entry).1) result }
{
    if is_json(line.command) {
        return json(alloc, line.parts, files, input, out, err);
    }
    obey(
        alloc,
        line.command,
        parts_of(line.parts),
        files,
        input,
        out,
        err,
    )
}

// Carries out the command that the arguments are.
fn carry_out<'a, F: Files, I: Source, O: Sink, E: Sink>(
    alloc: Global,
    arguments: &'a [&'a str],
    files: &mut F,
    input: &mut I,
    out: &mut O,
    err: &mut E,
) -> Result<bool, Stop<'a>>
    ensures does { (command : Given) → IsCommandLine arguments.entry.now command
        → Does I.left I.failures O.held O.failures (F.folder files.old) input.old input.new out.old out.new command result }
    ensures stopped { OnErr result ((ends_told result ≡ true) ⊎ (err.new ≡ err.old)) }
    ensures quiet { (command : Given) → IsCommandLine arguments.entry.now command → result ≡ Ok true
        → AskedChanges command ⊎ (err.new ≡ err.old) }
    ensures no { (command : Given) → IsCommandLine arguments.entry.now command → result ≡ Ok false
        → AskedRefusal command ⊎ (err.new ≡ err.old) }
    ensures refused { (command : Given) → IsCommandLine arguments.entry.now command → ends_told result ≡ true
        → AskedRefusal command ⊎ (err.new ≡ err.old) }
    ensures explained { (command : Given) → IsCommandLine arguments.entry.now command
        → ExplainsWhy O.held O.failures E.held E.failures (F.folder files.old) out.old out.new err.old err.new command.0 (parts_in command.1) result }
    ensures misuse { NoCommandLine arguments.entry.now → IsMisuse result }
    ensures unread { NoCommandLine arguments.entry.now → input.new ≡ input.old }
    ensures unwritten { NoCommandLine arguments.entry.now → out.new ≡ out.old }
    ensures unopened { NoCommandLine arguments.entry.now → files.new ≡ files.old }
{
    match read_arguments(alloc, arguments) {
        Ok(line) => obey_line(alloc, line, files, input, out, err),
        Err(misuse) => Err(Stop::from(misuse)),
    }
}

/// Runs the program on the arguments after its name, and returns the exit status. It is 0 for done, 1 for no, and 2 for a fault of the
/// command line. It is 3 if a file, a stream or memory failed. It is 4 if what was given cannot be read, and 5 if it was done and is
/// doubtful.
pub fn dispatch<F: Files, I: Source, O: Sink, E: Sink>(
    alloc: Global,
    arguments: &[&str],
    files: &mut F,
    input: &mut I,
    out: &mut O,
    err: &mut E,
) -> u8
    ensures status { result ≤ 5 }
    // Arguments that are a command are carried out, on the bytes of the files that they name.
    ensures answers { (command : Given) → IsCommandLine arguments.entry.now command
        → Answers I.left I.failures O.held O.failures E.held E.failures (F.folder files.old) input.old input.new out.old out.new
        err.old err.new (texts arguments.entry.now) command result }
    // `check` ends with 0 only if the filter is right for the bundle, and `run` only if the script was answered.
    ensures check { (machine bundle filter cert : List ℕ) → IsCommandLine arguments.entry.now (the.Check, machine ∷ bundle ∷ filter ∷ cert ∷ [])
        → result ≡ 0 → AreRight (F.folder files.old) (native_of machine) bundle filter }
    // So does `certify`. With `runc`, and with `all` behind it, the filter is right, or is so but for calls that a stub in front of it
    // answers.
    ensures certify { (machine bundle filter : List ℕ) → IsCommandLine arguments.entry.now (the.Certify, machine ∷ bundle ∷ filter ∷ [])
        → result ≡ 0 → AreRight (F.folder files.old) (native_of machine) bundle filter }
    ensures certify_runc { (machine bundle filter : List ℕ)
        → IsCommandLine arguments.entry.now (the.Certify, machine ∷ bundle ∷ filter ∷ codes "runc" ∷ []) → result ≡ 0
        → AreRight (F.folder files.old) (native_of machine) bundle filter ⊎ AreRightBehind (F.folder files.old) (native_of machine) bundle filter }
    ensures certify_runc_all { (machine bundle filter : List ℕ)
        → IsCommandLine arguments.entry.now (the.Certify, machine ∷ bundle ∷ filter ∷ codes "runc" ∷ codes "all" ∷ []) → result ≡ 0
        → AreRight (F.folder files.old) (native_of machine) bundle filter ⊎ AreRightBehind (F.folder files.old) (native_of machine) bundle filter }
    // With `calls` or `without-x32` it is so, or it is so but for calls that are left aside with reason.
    ensures certify_but { (machine bundle filter : List ℕ) (words : List (List ℕ))
        → IsCommandLine arguments.entry.now (the.Certify, machine ∷ bundle ∷ filter ∷ words)
        → asks_but (parts_in (machine ∷ bundle ∷ filter ∷ words)) ≡ true → result ≡ 0
        → AreRightAtLeast (F.folder files.old) (native_of machine) bundle filter (leave_of (parts_in (machine ∷ bundle ∷ filter ∷ words))) }
    ensures run { (machine : List ℕ) (bundles : List (List ℕ)) → IsCommandLine arguments.entry.now (the.Run, machine ∷ bundles) → result ≡ 0
        → HasRun (F.folder files.old) (native_of machine) bundles (I.left input.old) (O.held out.old) (O.held out.new) }
    // Arguments that are no command are a fault of the command line, unless the memory to read them is refused. No file and no input is
    // read, no output is written, and standard error says so.
    ensures misuse { NoCommandLine arguments.entry.now → TellsMisuse E.held E.failures err.old err.new (texts arguments.entry.now) result }
    ensures unopened { NoCommandLine arguments.entry.now → files.new ≡ files.old }
    ensures unread { NoCommandLine arguments.entry.now → input.new ≡ input.old }
    ensures unwritten { NoCommandLine arguments.entry.now → out.new ≡ out.old }
{
    match carry_out(alloc, arguments, files, input, out, err) {
        Ok(true) => 0,
        Ok(false) => {
            remark_on(alloc, arguments, files, err);
            1
        }
        Err(stop) => status_on(alloc, arguments, &stop, files, err),
    }
}
