// What is left to do once a command's files are read and checked.
ghost use Rattle.std.specs.Prelude.{◌≡◌, ◌≤◌, ◌∷◌, ◌++◌, false};
ghost use Rattle.kc_base.specs.Limits.{image_start};
ghost use Rattle.kc_kit_files.specs.Ended.{Ends, EndsPrinting};
ghost use Rattle.kc_kit_files.specs.Outside.{kept, shown_by};
ghost use Rattle.kc_kit_files.specs.Response.{reports};
ghost use Rattle.kc_kit_words.specs.Asked.{behind_in, AreLives, IsBounded};
ghost use Rattle.kc_kit_running.specs.Lives.{board_response};
ghost use Rattle.kc_kit_running.specs.Profiled.{known, profile_response};
ghost use Rattle.kc_kit_running.specs.Scripted.{debugger_response};
ghost use Rattle.kc_kit_running.specs.Sources.{ArePlacedIn, lines_in};
ghost use Rattle.kc_kit_running.specs.Writing.{AreWritten, written};
ghost use Rattle.kc_kit_answer.specs.Hex.{ListingOf};
ghost use Rattle.kc_kit_answer.specs.Jobs.{IsDoable, does, maybe_written, status_of};

use crate::list::list_image;
use kc_base::{Files, Image, Sink};
use kc_debug_script::{LineMap, Script};
use kc_kit_files::{Ended, Status, report};
use kc_kit_running::{
    Board, Lines, Output, Sources, count_board, debug_board, profile_board, run_board, write_output,
};
use kc_kit_verdict::Verdict;
use kc_kit_words::{Behind, Extent};
use kc_trace::TraceOut;
use std::alloc::Global;
use std::marker::Brand;
use std::sync::ledger::Blank;

/// What is left to do: a run of a board that is printed, with the sources of its image where they are known, with or without a profile that is written, or of which the lines are counted, a listing of an image, a script
/// over a board, a verdict to be printed, or files to write: a first one, and
/// others beside it: a line map, and a map of pieces and names or the listing of a source.
#[derive(Drop)]
pub enum Job<'a> {
    Run {
        board: Board,
        sources: Option<Sources<'a>>,
        extent: Extent,
    },
    Profile {
        board: Board,
        extent: Extent,
        lines: Lines<'a>,
        behind: Behind<'a>,
    },
    Count {
        board: Board,
        number: u16,
    },
    List {
        image: Image,
        first: u16,
        last: u16,
    },
    Debug {
        board: Board,
        lives: Option<u16>,
        script: Script,
        lines: LineMap,
    },
    Report {
        verdict: Verdict,
    },
    Write {
        file: Output<'a>,
        lines: Option<Output<'a>>,
        map: Option<Output<'a>>,
    },
}

/// Does a job, and gives how it has ended.
pub fn perform<'a, F: Files, S: Sink>(
    alloc: Global,
    job: Job<'a>,
    files: &mut F,
    out: &mut TraceOut<S>,
) -> Ended<'a>
    requires ready { out.old.failed ≡ false }
    requires doable { IsDoable job }
    ensures answer { Ends F.held F.write_faults S.written S.faults (λ response. response ≡ does job.entry) files.old out.old.sink result files.new out.new.sink }
    ensures no_read { F.read_faults files.new ≡ F.read_faults files.old }
{
    match job {
        Job::Run {
            board,
            sources,
            extent,
        } => run_of_board(alloc, board, sources, extent, out),
        Job::Profile {
            board,
            extent,
            lines,
            behind,
        } => profile_of_board(alloc, board, extent, lines, behind, files, out),
        Job::Count { board, number } => {
            count_board::<S, Brand>(alloc, board, number, Blank::new(1), out)
        }
        Job::List { image, first, last } => listing_of_image(image, first, last, out),
        Job::Debug {
            board,
            lives,
            script,
            lines,
        } => script_of_board(alloc, board, lives, script, lines, out),
        Job::Report { verdict } => report_verdict(out, verdict),
        Job::Write { file, lines, map } => write_files(alloc, &file, &lines, &map, files),
    }
}

// Runs a board, with the sources of its image where they are known.
fn run_of_board<S: Sink>(
    alloc: Global,
    board: Board,
    sources: Option<Sources<'_>>,
    extent: Extent,
    out: &mut TraceOut<S>,
) -> Ended<'static>
    requires ready { out.old.failed ≡ false }
    requires bounded { IsBounded extent }
    requires placed { ArePlacedIn sources }
    ensures { EndsPrinting (λ response. response ≡ board_response (lines_in sources.entry) extent board.driving board.image) (shown_by S.written S.faults out.old.sink) result (shown_by S.written S.faults out.new.sink) }
{
    run_board::<S, Brand>(alloc, board, &sources, extent, Blank::new(1), out)
}

// Runs a board, and writes the files that are asked for behind the run.
fn profile_of_board<'a, F: Files, S: Sink>(
    alloc: Global,
    board: Board,
    extent: Extent,
    lines: Lines<'_>,
    behind: Behind<'a>,
    files: &mut F,
    out: &mut TraceOut<S>,
) -> Ended<'a>
    requires ready { out.old.failed ≡ false }
    requires bounded { IsBounded extent }
    requires placed { ArePlacedIn lines.linked }
    ensures response { Ends F.held F.write_faults S.written S.faults (λ response. response ≡ profile_response extent (behind_in behind.entry) (known lines.entry) board.driving board.image) files.old out.old.sink result files.new out.new.sink }
    ensures no_read { F.read_faults files.new ≡ F.read_faults files.old }
{
    let blank = Blank::new(1);
    profile_board::<F, S, Brand>(alloc, board, extent, &lines, behind, blank, files, out)
}

// Lists an image.
fn listing_of_image<S: Sink>(
    image: Image,
    first: u16,
    last: u16,
    out: &mut TraceOut<S>,
) -> Ended<'static>
    requires ready { out.old.failed ≡ false }
    requires first { image_start ≤ first }
    requires order { first ≤ last }
    ensures { EndsPrinting (ListingOf first last image) (shown_by S.written S.faults out.old.sink) result (shown_by S.written S.faults out.new.sink) }
{
    Ended::by(list_image(&image, first, last, out))
}

// Carries out a script over a board, over at most so many lives where their number is given.
fn script_of_board<S: Sink>(
    alloc: Global,
    board: Board,
    lives: Option<u16>,
    script: Script,
    lines: LineMap,
    out: &mut TraceOut<S>,
) -> Ended<'static>
    requires ready { out.old.failed ≡ false }
    requires lives { AreLives lives }
    ensures { EndsPrinting (λ response. response ≡ debugger_response lives lines script board.driving board.image) (shown_by S.written S.faults out.old.sink) result (shown_by S.written S.faults out.new.sink) }
{
    debug_board::<S, Brand>(alloc, board, lives, &script, lines, Blank::new(1), out)
}

// Prints a verdict, with what is said of it.
fn report_verdict<S: Sink>(out: &mut TraceOut<S>, verdict: Verdict) -> Ended<'static>
    requires { out.old.failed ≡ false }
    ensures { EndsPrinting (λ response. response ≡ reports (status_of verdict.is_broken) verdict.text.items verdict.diagnostic.items) (shown_by S.written S.faults out.old.sink) result (shown_by S.written S.faults out.new.sink) }
{
    let Verdict {
        text,
        diagnostic,
        is_broken,
    } = verdict;
    let status = if is_broken {
        Status::Broken
    } else {
        Status::Done
    };
    report(out, &text, status, diagnostic)
}

// Writes a file, if there is one.
fn write_some<'a, F: Files>(alloc: Global, file: &Option<Output<'a>>, files: &mut F) -> Ended<'a>
    ensures written { AreWritten (kept (F.held files.old) (F.write_faults files.old)) (maybe_written file.now) result (kept (F.held files.new) (F.write_faults files.new)) }
    ensures later { F.write_faults files.old ≤ F.write_faults files.new }
    ensures no_read { F.read_faults files.new ≡ F.read_faults files.old }
{
    match file {
        None => Ended::by(Status::Done),
        Some(file) => write_output(alloc, file, files),
    }
}

// Writes the files beside a first one, those that there are.
fn write_beside<'a, F: Files>(
    alloc: Global,
    lines: &Option<Output<'a>>,
    map: &Option<Output<'a>>,
    files: &mut F,
) -> Ended<'a>
    ensures written { AreWritten (kept (F.held files.old) (F.write_faults files.old)) (maybe_written lines.now ++ maybe_written map.now) result (kept (F.held files.new) (F.write_faults files.new)) }
    ensures no_read { F.read_faults files.new ≡ F.read_faults files.old }
{
    let second = write_some(alloc, lines, files);
    match second.status {
        Status::Done => write_some(alloc, map, files),
        _ => second,
    }
}

// Writes a file, and those beside it.
fn write_files<'a, F: Files>(
    alloc: Global,
    file: &Output<'a>,
    lines: &Option<Output<'a>>,
    map: &Option<Output<'a>>,
    files: &mut F,
) -> Ended<'a>
    ensures written { AreWritten (kept (F.held files.old) (F.write_faults files.old)) (written file.now ∷ maybe_written lines.now ++ maybe_written map.now) result (kept (F.held files.new) (F.write_faults files.new)) }
    ensures no_read { F.read_faults files.new ≡ F.read_faults files.old }
{
    let first = write_output(alloc, file, files);
    match first.status {
        Status::Done => write_beside(alloc, lines, map, files),
        _ => first,
    }
}
