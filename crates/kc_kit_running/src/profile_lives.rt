// A run of an image that goes on after a reset and whose states are counted, each life apart.
ghost use Rattle.std.specs.Prelude.{◌≡◌, ◌≤◌, ◌<◌, ◌+◌, ◌-◌, ◌^◌, ◌==◌, ◌&&◌, ◌||◌, ◌++◌, ◌∷◌, [], List, codes, length, is_some, nat_lt, Some, None, false, IfOk, IfErr, OnOk, OnErr};
ghost use Rattle.kc_trace.specs.Trace.{out_of};
ghost use Rattle.kc_profile.specs.Sights.{history, Begins};
ghost use Rattle.kc_profile.specs.Spots.{spots_for};
ghost use Rattle.kc_cycles.specs.Lives.{is_reset};
ghost use Rattle.kc_cycles.specs.Making.{deadline_of};
ghost use Rattle.kc_kit_words.specs.Values.{max_states, max_lives};
ghost use Rattle.kc_profile.specs.Cover.{cover_text};
ghost use Rattle.kc_profile.specs.declared.statistics_text.Scope.TheVariants as scopes;
ghost use Rattle.kc_profile.specs.Statistics.{AreAllFew};
ghost use Rattle.kc_profile.specs.Tally.{total};
ghost use Rattle.kc_kit_running.specs.Counting.{IsCount, IsSum};
ghost use Rattle.kc_kit_running.specs.Lives.{board_lives};
ghost use Rattle.kc_kit_running.specs.Passing.{HasBroken, HasFailed, HasLived, HasPassed};
ghost use Rattle.kc_kit_running.specs.Profiled.{Counted, counted_text, heading, known, lives_cover, lives_profile, lives_texts, over_lives};
ghost use Rattle.kc_kit_running.specs.Watched.{watched_further};

use crate::accounts::{Account, Accounts, Lines, Watched};
use crate::board::Board;
use crate::fitted::FittedUnit;
use crate::fitting::Fitting;
use kc_base::{NoMemory, Sink, StateTime, Steps};
use kc_cycles::{LivesFault, Watchdog, born, deadline_in, has_come, put_restart, span_end};
use kc_extra::Pair;
use kc_kit_inputs::Driving;
use kc_machine::{End, Machine, WriteFault};
use kc_profile::run_profiled;
use kc_trace::TraceOut;
use std::alloc::Global;
use std::sync::ledger::Ledger;

type WatchedMachine = Machine<Pair<FittedUnit, Watchdog>>;

// How a life has ended.
#[derive(Drop)]
struct Ending {
    how: End,
    by_watchdog: bool,
}

// Whether a life goes no further than to this state.
fn is_over(ended: Option<End>, stop: StateTime, until: StateTime) -> bool
    ensures { result ≡ (is_some ended || (stop == until)) }
{
    ended.is_some() || stop == until
}

// Runs a machine up to an end, to its deadline or to the state `until`, and counts its states.
fn live<S: Sink, L: Ledger>(
    machine: &mut WatchedMachine,
    account: &mut Account,
    until: StateTime,
    out: &mut TraceOut<S>,
    steps: &mut Steps<L>,
) -> Result<Ending, WriteFault>
    requires until { until ≤ max_states }
    requires begins { Begins machine.old.machine }
    requires lives { machine.old.machine.ended ≡ None }
    requires unfed { deadline_of machine.old.machine.board.units.further ≡ None }
    requires unbroken { out.old.failed ≡ false }
    requires none { IsCount account.old.statistics.life [] [] account.old.profile account.old.statistics }
    ensures lived { IfOk result (λ ending. HasLived until machine.old.machine (out_of S.written S.faults out.old) ending.how ending.by_watchdog machine.new.machine (out_of S.written S.faults out.new)) }
    ensures counted { OnOk result (IsCount account.old.statistics.life (spots_for watched_further machine.new.machine.time machine.old.machine) (history watched_further machine.new.machine.time machine.old.machine) account.new.profile account.new.statistics) }
    ensures broken { OnErr result (HasBroken until machine.old.machine (out_of S.written S.faults out.old) (out_of S.written S.faults out.new)) }
{
    'spans: loop {
        let stop = span_end(machine.now(), deadline_in(machine), until);
        let how = run_profiled(
            machine,
            &mut account.profile,
            &mut account.statistics,
            stop,
            out,
            steps,
        )?;
        if is_over(machine.ended(), stop, until) {
            return Ok(Ending {
                how,
                by_watchdog: false,
            });
        }
        if has_come(deadline_in(machine), stop) {
            return Ok(Ending {
                how: End::Reset,
                by_watchdog: true,
            });
        }
    }
}

// Whether another life follows.
fn is_followed(ending: &Ending, left: u16) -> bool
    ensures { result ≡ (is_reset ending.now.how && nat_lt 1 left) }
{
    matches!(ending.how, End::Reset) && left > 1
}

// Adds what was counted of the life with a number to the accounts, and to the sums.
fn account_for(
    alloc: Global,
    life: u16,
    account: &Account,
    lines: &Lines<'_>,
    accounts: &mut Accounts,
    sums: &mut Account,
) -> Result<(), NoMemory>
    requires room { total sums.old.profile + total account.now.profile < 2 ^ 64 }
    requires few { AreAllFew (2 ^ 63 - 1) sums.old.statistics }
    requires later { AreAllFew (2 ^ 63 - 1) account.now.statistics }
    ensures profile { OnOk result (accounts.new.profile.items ≡ accounts.old.profile.items ++ (heading (codes "life ") life ++ counted_text scopes.Life lines.now.entries.items account.now.profile account.now.statistics)) }
    ensures cover { OnOk result (accounts.new.cover.items ≡ accounts.old.cover.items ++ cover_text (Some life) account.now.statistics lines.now.sources.items) }
    ensures sums { OnOk result ((lives : List Counted) (c : Counted) → life ≡ 1 + length lives → IsSum lives sums.old.profile sums.old.statistics → IsCount life c.spots c.sights account.now.profile account.now.statistics → IsSum (lives ++ c ∷ []) sums.new.profile sums.new.statistics) }
{
    accounts.put_life(alloc, life, account, lines)?;
    sums.add(account);
    Ok(())
}

/// Runs a board over several lives, prints their traces, and gives what is written behind them: each life under its heading, and the
/// sums behind them.
pub(crate) fn watch_lives<S: Sink, L: Ledger>(
    alloc: Global,
    board: Board,
    states: u64,
    most: u16,
    lines: &Lines<'_>,
    out: &mut TraceOut<S>,
    steps: &mut Steps<L>,
) -> Result<Watched, LivesFault>
    requires ready { out.old.failed ≡ false }
    requires states { states ≤ max_states }
    requires some { 1 ≤ most }
    requires few { most ≤ max_lives }
    ensures passed { IfOk result (λ watched. HasPassed (over_lives (board_lives most states board.driving board.image) (known lines.now) board.driving board.image) (out_of S.written S.faults out.old) watched.how (record { profile = watched.accounts.profile.items; cover = watched.accounts.cover.items }) (out_of S.written S.faults out.new)) }
    ensures failed { IfErr result (λ fault. HasFailed (over_lives (board_lives most states board.driving board.image) (known lines.now) board.driving board.image) (out_of S.written S.faults out.old) fault (out_of S.written S.faults out.new)) }
{
    let Board { image, driving } = board;
    let Driving { stimuli, values } = driving;
    let fitting = Fitting { values };
    let mut accounts = Accounts::new(alloc);
    let Ok(mut sums) = Account::new(alloc, 1) else {
        return Err(LivesFault::NoMemory);
    };
    let mut from = 0;
    let mut left = most;
    let mut life = 1u16;
    'lives: loop {
        let Ok(mut account) = Account::new(alloc, life) else {
            return Err(LivesFault::NoMemory);
        };
        let Ok(mut machine) = born(alloc, &image, &stimuli, &fitting, from) else {
            return Err(LivesFault::NoMemory);
        };
        let Ok(ending) = live(&mut machine, &mut account, states - from, out, steps) else {
            return Err(LivesFault::WriteFault);
        };
        if !is_followed(&ending, left) {
            let Ok(()) = machine.write_finals(ending.how, out) else {
                return Err(LivesFault::WriteFault);
            };
            let Ok(accounts) = last_accounts(alloc, life, &account, lines, accounts, sums) else {
                return Err(LivesFault::NoMemory);
            };
            return Ok(Watched {
                how: ending.how,
                accounts,
            });
        }
        put_restart(machine.now() - 1, ending.by_watchdog, out);
        if out.failed() {
            return Err(LivesFault::WriteFault);
        }
        let Ok(()) = account_for(alloc, life, &account, lines, &mut accounts, &mut sums) else {
            return Err(LivesFault::NoMemory);
        };
        from += machine.now();
        left -= 1;
        life += 1;
    }
}

// The accounts of all lives, of which the last has this number, with the sums behind them.
fn last_accounts(
    alloc: Global,
    life: u16,
    account: &Account,
    lines: &Lines<'_>,
    accounts: Accounts,
    sums: Account,
) -> Result<Accounts, NoMemory>
    requires room { total sums.profile + total account.now.profile < 2 ^ 64 }
    requires few { AreAllFew (2 ^ 63 - 1) sums.statistics }
    requires later { AreAllFew (2 ^ 63 - 1) account.now.statistics }
    ensures { IfOk result (λ all. (lives : List Counted) (c : Counted) → life ≡ 1 + length lives → IsSum lives sums.profile sums.statistics → IsCount life c.spots c.sights account.now.profile account.now.statistics
        → accounts.profile.items ≡ lives_profile (known lines.now) 1 lives → accounts.cover.items ≡ lives_cover (known lines.now) 1 lives
        → record { profile = all.profile.items; cover = all.cover.items } ≡ lives_texts (known lines.now) (lives ++ c ∷ [])) }
{
    let mut all = accounts;
    let mut sum = sums;
    account_for(alloc, life, account, lines, &mut all, &mut sum)?;
    all.put_sums(alloc, life, &sum, lines)?;
    Ok(all)
}
