// The top call: words, files and output to a status.
ghost use Rattle.std.specs.Prelude.{◌≡◌, ◌≢◌, ◌⊎◌, [], false, map, string_bytes, Some, None};
ghost use Rattle.kc_base.specs.Causes.{Rose};
ghost use Rattle.kc_base.specs.Held.{Reported};
ghost use Rattle.kc_trace.specs.Out.{Puts};
ghost use Rattle.kc_trace.specs.Trace.{out_of};
ghost use Rattle.kc_kit_files.specs.declared.status.Status.TheVariants as status;
ghost use Rattle.kc_kit_files.specs.Ended.{Ends, Noted};
ghost use Rattle.kc_kit_files.specs.Diagnostics.{output_diagnostic};
ghost use Rattle.kc_kit_files.specs.Outside.{Prints, Replied, kept, shown_by};
ghost use Rattle.kc_kit_files.specs.Response.{says};
ghost use Rattle.kc_kit_inputs.specs.FaultDiagnostics.{IsFaultDiagnostic};
ghost use Rattle.kc_kit_inputs.specs.Sources.{AnyDiagnostic};
ghost use Rattle.kc_kit_words.specs.Usage.{usage_diagnostic};
ghost use Rattle.kc_kit_words.specs.Words.{command_of};
ghost use Rattle.kc_kit_words.specs.Asked.{asked, IsWithin};
ghost use Rattle.kc_kit_words.specs.Commands.{names_read, names_written};
ghost use Rattle.kc_kit_answer.specs.Answer.{MayAnswerBy, IsAccepted, IsUsage, EndsAccepted, StaysBut};
ghost use Rattle.kc_kit_answer.specs.Jobs.{IsOf, IsReady};
ghost use Rattle.kc_kit_answer.specs.Lines.{usage_line};

use kc_base::{Files, Sink};
use kc_kit_answer::{
    Job, VERSION, explain_code, perform, prepare_assemble, prepare_bound, prepare_check,
    prepare_debug, prepare_dump, prepare_generate, prepare_hex, prepare_link, prepare_list,
    prepare_pack, prepare_profile, prepare_profile_hex, prepare_run, report_help, report_help_on,
};
use kc_kit_files::{Ended, Refusal, Status, refuse, say};
use kc_kit_streams::Streams;
use kc_kit_words::{Command, Generate, put_usage, read_words};
use kc_trace::TraceOut;
use std::alloc::Global;

/// Does what the words ask for: reads the files that they name, prints the text of the answer, writes the files that it
/// has, and gives its status. What is said of a refusal in words goes to `diagnostics`: that a write fails there changes nothing.
pub fn kit<F: Streams, S: Sink, N: Sink>(
    alloc: Global,
    words: &[String],
    files: &mut F,
    out: &mut TraceOut<S>,
    diagnostics: &mut TraceOut<N>,
) -> Status
    requires { out.old.failed ≡ false }

    // The status, what is printed and what the files hold afterwards are the answer, over what the files held, whatever is said of a
    // fault of a source.
    ensures answer { Replied F.held F.write_faults S.written S.faults (MayAnswerBy AnyDiagnostic F.held F.read_faults (command_of (map string_bytes words.now)) files.old files.new)
        files.old out.old.sink result files.new out.new.sink }

    // What is said in words is the diagnostic of the same answer, with that of a fault of a source, or what could not be written, or that memory is wanted, or what is
    // wrong in words that are no command.
    ensures diagnostics { Noted (usage_diagnostic (map string_bytes words.now)) (MayAnswerBy IsFaultDiagnostic F.held F.read_faults (command_of (map string_bytes words.now)) files.old files.new)
        (kept (F.held files.old) (F.write_faults files.old)) (shown_by S.written S.faults out.old.sink) (out_of N.written N.faults diagnostics.old) result
        (kept (F.held files.new) (F.write_faults files.new)) (shown_by S.written S.faults out.new.sink) (out_of N.written N.faults diagnostics.new) }

    // What is accepted, with no fault counted in this call, is done.
    ensures complete { Reported (F.held files.old) (λ held. IsAccepted (command_of (map string_bytes words.now)) (map held (names_read (command_of (map string_bytes words.now))))
        → ¬ Rose (F.read_faults files.old) (F.read_faults files.new) → ¬ Rose (S.faults out.old.sink) (S.faults out.new.sink) → ¬ Rose (F.write_faults files.old) (F.write_faults files.new)
        → EndsAccepted (command_of (map string_bytes words.now)) result) }

    // So are the words answered that are no command, and those that ask for a bound from or to what is no address of the ROM.
    ensures usage { result ≡ Status.Usage → IsUsage (command_of (map string_bytes words.now)) (F.held files.old) }
    ensures no_command { command_of (map string_bytes words.now) ≡ None → (result ≡ Status.Usage) ⊎ (result ≡ Status.WriteFault) }
    ensures read_fault { result ≡ Status.ReadFault → Rose (F.read_faults files.old) (F.read_faults files.new) }
    ensures write_fault { result ≡ Status.WriteFault → Rose (S.faults out.old.sink) (S.faults out.new.sink)
        ⊎ ((names_written (command_of (map string_bytes words.now)) ≢ []) × Rose (F.write_faults files.old) (F.write_faults files.new)) }

    // No name changes but those that the words name as files to be written; without such a name the files stay as they were.
    ensures others { Reported (F.held files.old) (λ before. StaysBut (names_written (command_of (map string_bytes words.now))) before (F.held files.new)) }
    ensures same { names_written (command_of (map string_bytes words.now)) ≡ [] → F.held files.new ≡ F.held files.old }
    ensures no_write { names_written (command_of (map string_bytes words.now)) ≡ [] → F.write_faults files.new ≡ F.write_faults files.old }
{
    answered(alloc, words, files, out, diagnostics)
}

// The answer to some words, with its diagnostic.
fn answered<F: Streams, S: Sink, N: Sink>(
    alloc: Global,
    words: &[String],
    files: &mut F,
    out: &mut TraceOut<S>,
    diagnostics: &mut TraceOut<N>,
) -> Status
    requires { out.old.failed ≡ false }
    ensures answer { Replied F.held F.write_faults S.written S.faults (MayAnswerBy AnyDiagnostic F.held F.read_faults (command_of (map string_bytes words.now)) files.old files.new)
        files.old out.old.sink result files.new out.new.sink }
    ensures diagnostics { Noted (usage_diagnostic (map string_bytes words.now)) (MayAnswerBy IsFaultDiagnostic F.held F.read_faults (command_of (map string_bytes words.now)) files.old files.new)
        (kept (F.held files.old) (F.write_faults files.old)) (shown_by S.written S.faults out.old.sink) (out_of N.written N.faults diagnostics.old) result
        (kept (F.held files.new) (F.write_faults files.new)) (shown_by S.written S.faults out.new.sink) (out_of N.written N.faults diagnostics.new) }
    ensures no_command { command_of (map string_bytes words.now) ≡ None → (result ≡ Status.Usage) ⊎ (result ≡ Status.WriteFault) }
{
    match read_words(words) {
        None => refuse_words(words, out, diagnostics),
        Some(command) => {
            let ended = done(alloc, &command, files, out);
            ended.put_diagnostic(diagnostics);
            ended.status
        }
    }
}

// The answer to words that are no command, with what is wrong in them. It takes no memory.
fn refuse_words<S: Sink, N: Sink>(
    words: &[String],
    out: &mut TraceOut<S>,
    diagnostics: &mut TraceOut<N>,
) -> Status
    requires { out.old.failed ≡ false }
    ensures response { Prints (λ response. response ≡ says status.Usage usage_line) (shown_by S.written S.faults out.old.sink) result (shown_by S.written S.faults out.new.sink) }
    ensures status { (result ≡ Status.Usage) ⊎ (result ≡ Status.WriteFault) }
    ensures usage { result ≡ Status.Usage → Puts (out_of N.written N.faults diagnostics.old) (usage_diagnostic (map string_bytes words.now)) (out_of N.written N.faults diagnostics.new) }
    ensures output { result ≡ Status.WriteFault → Puts (out_of N.written N.faults diagnostics.old) output_diagnostic (out_of N.written N.faults diagnostics.new) }
{
    let status = say(out, b"usage\n", Status::Usage);
    if status == Status::Usage {
        put_usage(words, diagnostics);
    } else {
        Ended::by(status).put_diagnostic(diagnostics);
    }
    status
}

// Does a command.
fn done<'a, F: Streams, S: Sink>(
    alloc: Global,
    command: &Command<'a>,
    files: &mut F,
    out: &mut TraceOut<S>,
) -> Ended<'a>
    requires ready { out.old.failed ≡ false }
    requires within { IsWithin command.now }
    ensures { Ends F.held F.write_faults S.written S.faults (MayAnswerBy IsFaultDiagnostic F.held F.read_faults (Some (asked command.now)) files.old files.new)
        files.old out.old.sink result files.new out.new.sink }
{
    match command {
        Command::Help => Ended::by(report_help(alloc, out)),
        Command::HelpOn(help) => Ended::by(report_help_on(alloc, help.verb, out)),
        Command::Version => Ended::by(say(out, VERSION.as_bytes(), Status::Done)),
        Command::Run(run) => finish(alloc, prepare_run(alloc, run, files), files, out),
        Command::Profile(run) => finish(alloc, prepare_profile(alloc, run, files), files, out),
        Command::Assemble(assemble) => {
            finish(alloc, prepare_assemble(alloc, assemble, files), files, out)
        }
        Command::Pack(pack) => finish(alloc, prepare_pack(alloc, pack, files), files, out),
        Command::Link(link) => finish(alloc, prepare_link(alloc, link, files), files, out),
        Command::RunHex(run) => finish(alloc, prepare_hex(alloc, run, files), files, out),
        Command::ProfileHex(run) => {
            finish(alloc, prepare_profile_hex(alloc, run, files), files, out)
        }
        Command::List(list) => finish(alloc, prepare_list(alloc, list, files), files, out),
        Command::Debug(debug) => finish(alloc, prepare_debug(alloc, debug, files), files, out),
        Command::Generate(generate) => generated(alloc, generate, files, out),
        Command::Dump(dump) => finish(alloc, prepare_dump(alloc, dump, files), files, out),
        Command::Check(check) => finish(alloc, prepare_check(alloc, check, files), files, out),
        Command::Bound(bound) => finish(alloc, prepare_bound(alloc, bound, files), files, out),
        Command::Explain(explain) => explain_code(alloc, explain.code, out),
    }
}

// Does the command that makes an input of its number: it reads no file.
fn generated<F: Files, S: Sink>(
    alloc: Global,
    generate: &Generate,
    files: &mut F,
    out: &mut TraceOut<S>,
) -> Ended<'static>
    requires { out.old.failed ≡ false }
    ensures { Ends F.held F.write_faults S.written S.faults (MayAnswerBy IsFaultDiagnostic F.held F.read_faults (Some (asked (Command.Generate generate.now))) files.old files.new)
        files.old out.old.sink result files.new out.new.sink }
{
    finish(alloc, prepare_generate(alloc, generate.number), files, out)
}

// Does what is prepared, or prints its refusal.
fn finish<'a, F: Files, S: Sink>(
    alloc: Global,
    prepared: Result<Job<'a>, Refusal>,
    files: &mut F,
    out: &mut TraceOut<S>,
) -> Ended<'a>
    requires ready { out.old.failed ≡ false }
    requires doable { IsReady prepared }
    ensures answer { Ends F.held F.write_faults S.written S.faults (IsOf prepared.entry) files.old out.old.sink result files.new out.new.sink }
    ensures no_read { F.read_faults files.new ≡ F.read_faults files.old }
{
    match prepared {
        Ok(job) => perform(alloc, job, files, out),
        Err(refusal) => refuse(out, refusal),
    }
}
