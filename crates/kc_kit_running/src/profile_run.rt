// A run of an image whose states are counted.
ghost use Rattle.std.specs.Prelude.{◌≡◌, ◌≤◌, false, None, IfOk, IfErr};
ghost use Rattle.kc_base.specs.Fresh.{IsFresh};
ghost use Rattle.kc_trace.specs.Trace.{out_of};
ghost use Rattle.kc_profile.specs.declared.statistics_text.Scope.TheVariants as scopes;
ghost use Rattle.kc_profile.specs.Cover.{cover_text};
ghost use Rattle.kc_kit_files.specs.Ended.{Ends};
ghost use Rattle.kc_kit_files.specs.Outside.{kept};
ghost use Rattle.kc_kit_words.specs.Asked.{behind_in, IsBounded};
ghost use Rattle.kc_kit_words.specs.Values.{max_states};
ghost use Rattle.kc_kit_running.specs.Passing.{HasFailed, HasFinished, HasPassed};
ghost use Rattle.kc_kit_running.specs.Sources.{ArePlacedIn, lines_in};
ghost use Rattle.kc_kit_running.specs.Profiled.{counted_text, known, once, profile_response, run_over, writes_of};

use crate::accounts::{Account, Accounts, Lines, Watched};
use crate::board::Board;
use crate::fitted::fitted_machine;
use crate::image_run::ended_run;
use crate::profile_lives::watch_lives;
use kc_base::{Files, NoMemory, Sink, Steps};
use kc_cycles::LivesFault;
use kc_kit_files::{Ended, Status};
use kc_kit_words::{Behind, Extent};
use kc_profile::run_profiled;
use kc_trace::TraceOut;
use std::alloc::Global;
use std::sync::ledger::{Blank, Ledger};

/// Runs a board so far, prints its trace, and then writes the files that are asked for: where its states went, with its statistics
/// besides, by what is known of its sources, and which of their lines have run.
pub fn profile_board<'a, F: Files, S: Sink, L: Ledger>(
    alloc: Global,
    board: Board,
    extent: Extent,
    lines: &Lines<'_>,
    behind: Behind<'a>,
    blank: Blank,
    files: &mut F,
    out: &mut TraceOut<S>,
) -> Ended<'a>
    requires ready { out.old.failed ≡ false }
    requires bounded { IsBounded extent }
    requires placed { ArePlacedIn lines.now.linked }
    requires fresh { IsFresh blank L.name L.parts }
    requires whole { blank.parts ≡ 1 }
    ensures response { Ends F.held F.write_faults S.written S.faults (λ response. response ≡ profile_response extent (behind_in behind.entry) (known lines.now) board.driving board.image) files.old out.old.sink result files.new out.new.sink }
    ensures no_read { F.read_faults files.new ≡ F.read_faults files.old }
{
    let mut steps = Steps::<L>::new(blank);
    match watch(alloc, board, extent, lines, out, &mut steps) {
        Ok(watched) => finish(alloc, watched, lines, behind, files),
        Err(LivesFault::WriteFault) => Ended::by(Status::WriteFault),
        Err(LivesFault::NoMemory) => Ended::by(Status::NoMemory),
    }
}

// Runs a board so far, prints its trace, and gives what is written behind it.
fn watch<S: Sink, L: Ledger>(
    alloc: Global,
    board: Board,
    extent: Extent,
    lines: &Lines<'_>,
    out: &mut TraceOut<S>,
    steps: &mut Steps<L>,
) -> Result<Watched, LivesFault>
    requires ready { out.old.failed ≡ false }
    requires bounded { IsBounded extent }
    ensures passed { IfOk result (λ watched. HasPassed (run_over extent.lives extent.states (known lines.now) board.driving board.image) (out_of S.written S.faults out.old) watched.how (record { profile = watched.accounts.profile.items; cover = watched.accounts.cover.items }) (out_of S.written S.faults out.new)) }
    ensures failed { IfErr result (λ fault. HasFailed (run_over extent.lives extent.states (known lines.now) board.driving board.image) (out_of S.written S.faults out.old) fault (out_of S.written S.faults out.new)) }
{
    match extent.lives {
        None => watch_once(alloc, board, extent.states, lines, out, steps),
        Some(most) => watch_lives(alloc, board, extent.states, most, lines, out, steps),
    }
}

// The same of a run up to a reset at most.
fn watch_once<S: Sink, L: Ledger>(
    alloc: Global,
    board: Board,
    states: u64,
    lines: &Lines<'_>,
    out: &mut TraceOut<S>,
    steps: &mut Steps<L>,
) -> Result<Watched, LivesFault>
    requires ready { out.old.failed ≡ false }
    requires states { states ≤ max_states }
    ensures passed { IfOk result (λ watched. HasPassed (once states (known lines.now) board.driving board.image) (out_of S.written S.faults out.old) watched.how (record { profile = watched.accounts.profile.items; cover = watched.accounts.cover.items }) (out_of S.written S.faults out.new)) }
    ensures failed { IfErr result (λ fault. HasFailed (once states (known lines.now) board.driving board.image) (out_of S.written S.faults out.old) fault (out_of S.written S.faults out.new)) }
{
    let Ok(mut account) = Account::new(alloc, 1) else {
        return Err(LivesFault::NoMemory);
    };
    let Ok(mut machine) = fitted_machine(alloc, board) else {
        return Err(LivesFault::NoMemory);
    };
    let Ok(how) = run_profiled(
        &mut machine,
        &mut account.profile,
        &mut account.statistics,
        states,
        out,
        steps,
    ) else {
        return Err(LivesFault::WriteFault);
    };
    match machine.write_finals(how, out) {
        Ok(()) => match accounts_of_run(alloc, &account, lines) {
            Ok(accounts) => Ok(Watched { how, accounts }),
            Err(NoMemory) => Err(LivesFault::NoMemory),
        },
        Err(_) => Err(LivesFault::WriteFault),
    }
}

// The texts that are written behind a run of one life.
fn accounts_of_run(
    alloc: Global,
    account: &Account,
    lines: &Lines<'_>,
) -> Result<Accounts, NoMemory>
    ensures profile { IfOk result (λ accounts. accounts.profile.items ≡ counted_text scopes.Life lines.now.entries.items account.now.profile account.now.statistics) }
    ensures cover { IfOk result (λ accounts. accounts.cover.items ≡ cover_text None account.now.statistics lines.now.sources.items) }
{
    let mut accounts = Accounts::new(alloc);
    accounts.put_run(alloc, account, lines)?;
    Ok(accounts)
}

// Writes the files that are asked for, and gives how the command has ended.
fn finish<'a, F: Files>(
    alloc: Global,
    watched: Watched,
    lines: &Lines<'_>,
    behind: Behind<'a>,
    files: &mut F,
) -> Ended<'a>
    requires { ArePlacedIn lines.now.linked }
    ensures finished { HasFinished (lines_in lines.now.linked) watched.how (writes_of (behind_in behind.entry) (record { profile = watched.accounts.profile.items; cover = watched.accounts.cover.items })) (kept (F.held files.old) (F.write_faults files.old)) result (kept (F.held files.new) (F.write_faults files.new)) }
    ensures no_read { F.read_faults files.new ≡ F.read_faults files.old }
{
    let Watched { how, accounts } = watched;
    let wrote = accounts.write(alloc, behind, files);
    match wrote.status {
        Status::Done => ended_run(alloc, &lines.linked, how),
        _ => wrote,
    }
}
