//! Reads of the special function registers.
ghost use Rattle.std.specs.Prelude.{◌≡◌, ℕ, ◌+◌, ◌-◌, ◌*◌, ◌≤◌, ◌<◌, true, None, Ok, OnOk, OnErr};
ghost use Rattle.kc_base.specs.Limits.{max_states};
ghost use Rattle.kc_exec_spec.specs.Window.{is_wsr};
ghost use Rattle.kc_block_spec.specs.Units.{Units};
ghost use Rattle.kc_block_spec.specs.Registers.{row_at, words_read};
ghost use Rattle.kc_block_spec.specs.Reading.{byte_value, after_byte, word_value, after_word};
ghost use Rattle.kc_block_spec.specs.Accesses.{byte_read, after_byte_read, even_word_read, after_even_word_read, word_read, after_word_read};
ghost use Rattle.kc_block_spec.specs.RegisterLaws.{refusal};
ghost use Rattle.kc_block_units.specs.Scheduler.{shown_units, IsScheduled, IsLeft, IsPresent};
ghost use Rattle.kc_block_units.specs.Standing.{standing, moves_of};
ghost use Rattle.kc_block_spec.specs.Costs.{CostsAtMost, RefusesFreely};
ghost use Rattle.kc_block_sfr.specs.Costs.{read_calls, word_read_calls};

use crate::acting::{clear_ios1, read_further, take_hsi_time};
use crate::registers::{is_half_read, number};
use crate::seeing::{byte_at, word_at};
use crate::values::state_before;
use kc_base::{Kind, StateTime, Steps};
use kc_block_spec::{ReadableByte, ReadableWord, Window, readable_byte, readable_word};
use kc_block_units::Scheduler;
use kc_extra::Extra;
use std::sync::ledger::Ledger;

/// Why a byte read is refused in the state before `now`, if it is: this is the same whatever the units are.
fn read_refusal<X: Extra>(
    scheduler: &Scheduler<X>,
    now: StateTime,
    window: Window,
    sfr: u8,
) -> Option<Kind>
    requires { now ≤ 3 * max_states }
    ensures { (t : ℕ) (u : Units X) → result ≡ refusal (byte_read X.further t window u sfr) }
{
    if readable_byte(window, sfr).is_some() {
        return None;
    }
    if is_half_read(window, sfr) {
        return Some(Kind::ByteAccess);
    }
    match scheduler.further.unit.look(number(window), sfr, now) {
        Some(_) => None,
        None => Some(Kind::NoRegister),
    }
}

// What a byte read of a register leaves.
fn take_byte<X: Extra>(scheduler: &mut Scheduler<X>, now: StateTime, register: ReadableByte)
    requires present { IsPresent X.further X.agrees (standing X.plain scheduler.old) now }
    ensures left { IsLeft X.further X.agrees now (standing X.plain scheduler.new) (after_byte (shown_units X.further (standing X.plain scheduler.old) now) register) }
    ensures moves { moves_of X.moved scheduler.new ≡ moves_of X.moved scheduler.old }
{
    match register {
        ReadableByte::Ios1 => clear_ios1(scheduler, now),
        ReadableByte::Ios2 => scheduler.board_registers.ios2 = 0,
        _ => {}
    }
}

fn read_named<X: Extra>(scheduler: &mut Scheduler<X>, now: StateTime, register: ReadableByte) -> u8
    requires present { IsPresent X.further X.agrees (standing X.plain scheduler.old) now }
    ensures value { result ≡ byte_value (shown_units X.further (standing X.plain scheduler.old) now) register }
    ensures left { IsLeft X.further X.agrees now (standing X.plain scheduler.new) (after_byte (shown_units X.further (standing X.plain scheduler.old) now) register) }
    ensures moves { moves_of X.moved scheduler.new ≡ moves_of X.moved scheduler.old }
{
    let board_registers = scheduler.board_registers;
    let value = byte_at(scheduler, &board_registers, now, register);
    take_byte(scheduler, now, register);
    value
}

// A byte read that is not refused.
fn read_byte<X: Extra, L: Ledger>(
    scheduler: &mut Scheduler<X>,
    now: StateTime,
    window: Window,
    sfr: u8,
    steps: &mut Steps<L>,
) -> u8
    requires present { IsPresent X.further X.agrees (standing X.plain scheduler.old) now }
    requires defined { refusal (byte_read X.further (now - 1) window (shown_units X.further (standing X.plain scheduler.old) now) sfr) ≡ None }
    ensures value { byte_read X.further (now - 1) window (shown_units X.further (standing X.plain scheduler.old) now) sfr ≡ Ok result }
    ensures left { IsLeft X.further X.agrees now (standing X.plain scheduler.new)
        (after_byte_read X.further (now - 1) window (shown_units X.further (standing X.plain scheduler.old) now) sfr) }
    ensures costs { CostsAtMost (read_calls sfr) steps.old steps.new (moves_of X.moved scheduler.old) (moves_of X.moved scheduler.new) }
{
    match readable_byte(window, sfr) {
        Some(register) => read_named(scheduler, now, register),
        None => read_further(scheduler, now, window, sfr, steps).unwrap_or(0),
    }
}

/// A byte read of a register below 0018H in the state before `now`, after its Tick. The refusals: ByteAccess, a half of a word
/// register of the window; NoRegister, where neither the window nor the further unit has such a register. A refused read
/// changes nothing and makes no call of a unit that counts.
pub fn read8<X: Extra, L: Ledger>(
    scheduler: &mut Scheduler<X>,
    now: StateTime,
    window: Window,
    sfr: u8,
    steps: &mut Steps<L>,
) -> Result<u8, Kind>
    requires present { IsPresent X.further X.agrees (standing X.plain scheduler.old) now }
    requires profile { is_wsr scheduler.old.board_registers.wsr ≡ true }
    ensures answer { result ≡ byte_read X.further (now - 1) window (shown_units X.further (standing X.plain scheduler.old) now) sfr }
    ensures scheduled { IsScheduled X.further X.agrees (standing X.plain scheduler.new) now }
    ensures profile { is_wsr scheduler.new.board_registers.wsr ≡ true }
    ensures units { OnOk result (shown_units X.further (standing X.plain scheduler.new) now
        ≡ after_byte_read X.further (now - 1) window (shown_units X.further (standing X.plain scheduler.old) now) sfr) }
    ensures refused { RefusesFreely result scheduler.old scheduler.new steps.old steps.new }
    ensures costs { CostsAtMost (read_calls sfr) steps.old steps.new (moves_of X.moved scheduler.old) (moves_of X.moved scheduler.new) }
{
    if let Some(kind) = read_refusal(scheduler, now, window, sfr) {
        return Err(kind);
    }
    Ok(read_byte(scheduler, now, window, sfr, steps))
}

// A read of a word register.
fn read_word<X: Extra, L: Ledger>(
    scheduler: &mut Scheduler<X>,
    now: StateTime,
    register: ReadableWord,
    steps: &mut Steps<L>,
) -> u16
    requires present { IsPresent X.further X.agrees (standing X.plain scheduler.old) now }
    ensures value { result ≡ word_value (now - 1) (shown_units X.further (standing X.plain scheduler.old) now) register }
    ensures left { IsLeft X.further X.agrees now (standing X.plain scheduler.new) (after_word (shown_units X.further (standing X.plain scheduler.old) now) register) }
    ensures steps { steps.new ≤ steps.old + 2 }
    ensures moves { moves_of X.moved scheduler.new ≤ moves_of X.moved scheduler.old + 1 }
{
    match register {
        ReadableWord::HsiTime => take_hsi_time(scheduler, now, steps),
        _ => word_at(scheduler, now, state_before(now), register),
    }
}

// A word that is no word register is read as two bytes, which are both asked before either is read.
fn read_two<X: Extra, L: Ledger>(
    scheduler: &mut Scheduler<X>,
    now: StateTime,
    window: Window,
    sfr: u8,
    steps: &mut Steps<L>,
) -> Result<u16, Kind>
    requires present { IsPresent X.further X.agrees (standing X.plain scheduler.old) now }
    requires byte { sfr < 24 }
    requires two { row_at (words_read window) sfr ≡ None }
    ensures answer { result ≡ even_word_read X.further (now - 1) window (shown_units X.further (standing X.plain scheduler.old) now) sfr }
    ensures left { OnOk result (IsLeft X.further X.agrees now (standing X.plain scheduler.new)
        (after_even_word_read X.further (now - 1) window (shown_units X.further (standing X.plain scheduler.old) now) sfr)) }
    ensures refused { RefusesFreely result scheduler.old scheduler.new steps.old steps.new }
    ensures costs { CostsAtMost (word_read_calls sfr) steps.old steps.new (moves_of X.moved scheduler.old) (moves_of X.moved scheduler.new) }
{
    if let Some(kind) = read_refusal(scheduler, now, window, sfr) {
        return Err(kind);
    }
    if let Some(kind) = read_refusal(scheduler, now, window, sfr + 1) {
        return Err(kind);
    }
    let low = read_byte(scheduler, now, window, sfr, steps);
    let high = read_byte(scheduler, now, window, sfr + 1, steps);
    Ok(u16::from(low) + 256 * u16::from(high))
}

// A word read at an even address.
fn read_even<X: Extra, L: Ledger>(
    scheduler: &mut Scheduler<X>,
    now: StateTime,
    window: Window,
    sfr: u8,
    steps: &mut Steps<L>,
) -> Result<u16, Kind>
    requires present { IsPresent X.further X.agrees (standing X.plain scheduler.old) now }
    requires byte { sfr < 24 }
    requires profile { is_wsr scheduler.old.board_registers.wsr ≡ true }
    ensures answer { result ≡ even_word_read X.further (now - 1) window (shown_units X.further (standing X.plain scheduler.old) now) sfr }
    ensures scheduled { IsScheduled X.further X.agrees (standing X.plain scheduler.new) now }
    ensures profile { is_wsr scheduler.new.board_registers.wsr ≡ true }
    ensures units { OnOk result (shown_units X.further (standing X.plain scheduler.new) now
        ≡ after_even_word_read X.further (now - 1) window (shown_units X.further (standing X.plain scheduler.old) now) sfr) }
    ensures refused { RefusesFreely result scheduler.old scheduler.new steps.old steps.new }
    ensures costs { CostsAtMost (word_read_calls sfr) steps.old steps.new (moves_of X.moved scheduler.old) (moves_of X.moved scheduler.new) }
{
    match readable_word(window, sfr) {
        Some(register) => Ok(read_word(scheduler, now, register, steps)),
        None => read_two(scheduler, now, window, sfr, steps),
    }
}

/// A word read at an address below 0018H in the state before `now`, after its Tick: of a word register of the window, else of
/// two bytes, the low one first. It is refused with OddWord at an odd address, else as the low byte is, else as the high byte
/// is; a refused read changes nothing and makes no call of a unit that counts.
pub fn read16<X: Extra, L: Ledger>(
    scheduler: &mut Scheduler<X>,
    now: StateTime,
    window: Window,
    sfr: u8,
    steps: &mut Steps<L>,
) -> Result<u16, Kind>
    requires present { IsPresent X.further X.agrees (standing X.plain scheduler.old) now }
    requires byte { sfr < 24 }
    requires profile { is_wsr scheduler.old.board_registers.wsr ≡ true }
    ensures answer { result ≡ word_read X.further (now - 1) window (shown_units X.further (standing X.plain scheduler.old) now) sfr }
    ensures scheduled { IsScheduled X.further X.agrees (standing X.plain scheduler.new) now }
    ensures profile { is_wsr scheduler.new.board_registers.wsr ≡ true }
    ensures units { OnOk result (shown_units X.further (standing X.plain scheduler.new) now
        ≡ after_word_read X.further (now - 1) window (shown_units X.further (standing X.plain scheduler.old) now) sfr) }
    ensures refused { RefusesFreely result scheduler.old scheduler.new steps.old steps.new }
    ensures costs { CostsAtMost (word_read_calls sfr) steps.old steps.new (moves_of X.moved scheduler.old) (moves_of X.moved scheduler.new) }
{
    if sfr % 2 == 1 {
        return Err(Kind::OddWord);
    }
    read_even(scheduler, now, window, sfr, steps)
}
