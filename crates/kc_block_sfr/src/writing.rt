//! Writes of the special function registers.
ghost use Rattle.std.specs.Prelude.{◌≡◌, ℕ, ◌+◌, ◌-◌, ◌*◌, ◌≤◌, ◌<◌, ◌^◌, true, Some, None, IfOk, OnErr, ◌&&◌, if◌then◌else◌};
ghost use Rattle.kc_base.specs.Bits.{bit as bit_of};
ghost use Rattle.kc_hso.specs.Cam.{has_timer2_of};
ghost use Rattle.kc_exec_spec.specs.Window.{is_wsr as in_profile};
ghost use Rattle.kc_block_spec.specs.Registers.{row_at, words_written};
ghost use Rattle.kc_block_spec.specs.Writing.{with_byte, with_word};
ghost use Rattle.kc_block_spec.specs.Accesses.{byte_written, even_word_written, word_written};
ghost use Rattle.kc_block_spec.specs.RegisterLaws.{refusal};
ghost use Rattle.kc_block_units.specs.Scheduler.{shown_units, IsScheduled, IsLeft, IsPresent};
ghost use Rattle.kc_block_units.specs.Standing.{standing, moves_of};
ghost use Rattle.kc_block_spec.specs.Costs.{CostsAtMost, RefusesFreely};
ghost use Rattle.kc_block_sfr.specs.Costs.{is_plain as has_no_unit, named_calls, write_calls, word_write_calls};

use crate::acting::{
    load_hso, write_further, write_hsi_mode, write_hso_command, write_ioc0, write_ioc1, write_ioc2,
    write_ioc3, write_timer2,
};
use crate::keeping_registers::board_registers_with;
use crate::registers::{is_half_written, number};
use kc_base::{Kind, StateTime, Steps, bit};
use kc_block_spec::{Window, WritableByte, WritableWord, writable_byte, writable_word};
use kc_block_units::Scheduler;
use kc_bus::is_known;
use kc_extra::Extra;
use std::sync::ledger::Ledger;

fn wsr_refusal(value: u8) -> Option<Kind>
    ensures { result ≡ (if in_profile value then None else Some Kind.BadWindow) }
{
    if is_known(value) {
        None
    } else {
        Some(Kind::BadWindow)
    }
}

fn has_timer2<X: Extra>(scheduler: &Scheduler<X>, now: StateTime) -> bool
    requires { IsScheduled X.further X.agrees (standing X.plain scheduler.now) now }
    ensures { result ≡ has_timer2_of (shown_units X.further (standing X.plain scheduler.now) now).hso }
{
    scheduler.hso.unit.has_timer2()
}

fn ioc2_refusal<X: Extra>(scheduler: &Scheduler<X>, now: StateTime, value: u8) -> Option<Kind>
    requires { IsScheduled X.further X.agrees (standing X.plain scheduler.now) now }
    ensures { result ≡ (if bit_of value 0 && has_timer2_of (shown_units X.further (standing X.plain scheduler.now) now).hso then Some Kind.FastTimer2 else None) }
{
    let refuses = bit(value, 0) & has_timer2(scheduler, now);
    if refuses {
        Some(Kind::FastTimer2)
    } else {
        None
    }
}

/// Why a register refuses a byte, if it does.
fn byte_refusal<X: Extra>(
    scheduler: &Scheduler<X>,
    now: StateTime,
    register: WritableByte,
    value: u8,
) -> Option<Kind>
    requires { IsScheduled X.further X.agrees (standing X.plain scheduler.now) now }
    ensures { result ≡ refusal (with_byte (shown_units X.further (standing X.plain scheduler.now) now) register value) }
{
    match register {
        WritableByte::Wsr => wsr_refusal(value),
        WritableByte::Ioc2 => ioc2_refusal(scheduler, now, value),
        _ => None,
    }
}

/// Why a byte write is refused in the state before `now`, if it is.
fn write_refusal<X: Extra>(
    scheduler: &Scheduler<X>,
    now: StateTime,
    window: Window,
    sfr: u8,
    value: u8,
) -> Option<Kind>
    requires { IsScheduled X.further X.agrees (standing X.plain scheduler.now) now }
    ensures { (t : ℕ) → result ≡ refusal (byte_written X.further t window (shown_units X.further (standing X.plain scheduler.now) now) sfr value) }
{
    if let Some(register) = writable_byte(window, sfr) {
        return byte_refusal(scheduler, now, register, value);
    }
    if is_half_written(window, sfr) {
        return Some(Kind::ByteAccess);
    }
    if scheduler.further.unit.takes(number(window), sfr) {
        None
    } else {
        Some(Kind::NoRegister)
    }
}

// A write of a register that no unit holds.
fn write_plain<X: Extra>(
    scheduler: &mut Scheduler<X>,
    now: StateTime,
    register: WritableByte,
    value: u8,
)
    requires scheduled { IsScheduled X.further X.agrees (standing X.plain scheduler.old) now }
    requires plain { has_no_unit register ≡ true }
    ensures left { IfOk (with_byte (shown_units X.further (standing X.plain scheduler.old) now) register value)
        (IsLeft X.further X.agrees now (standing X.plain scheduler.new)) }
    ensures moves { moves_of X.moved scheduler.new ≡ moves_of X.moved scheduler.old }
{
    scheduler.board_registers = board_registers_with(&scheduler.board_registers, register, value);
}

// A write of a register that does not refuse the byte.
fn write_named<X: Extra, L: Ledger>(
    scheduler: &mut Scheduler<X>,
    now: StateTime,
    register: WritableByte,
    value: u8,
    steps: &mut Steps<L>,
)
    requires present { IsPresent X.further X.agrees (standing X.plain scheduler.old) now }
    ensures left { IfOk (with_byte (shown_units X.further (standing X.plain scheduler.old) now) register value)
        (IsLeft X.further X.agrees now (standing X.plain scheduler.new)) }
    ensures costs { CostsAtMost (named_calls register) steps.old steps.new (moves_of X.moved scheduler.old) (moves_of X.moved scheduler.new) }
{
    match register {
        WritableByte::HsiMode => write_hsi_mode(scheduler, now, value, steps),
        WritableByte::HsoCommand => write_hso_command(scheduler, now, value),
        WritableByte::Ioc0 => write_ioc0(scheduler, now, value, steps),
        WritableByte::Ioc1 => write_ioc1(scheduler, now, value),
        WritableByte::Ioc2 => write_ioc2(scheduler, now, value, steps),
        WritableByte::Ioc3 => write_ioc3(scheduler, now, value, steps),
        _ => write_plain(scheduler, now, register, value),
    }
}

// A byte write that is not refused.
fn write_byte<X: Extra, L: Ledger>(
    scheduler: &mut Scheduler<X>,
    now: StateTime,
    window: Window,
    sfr: u8,
    value: u8,
    steps: &mut Steps<L>,
)
    requires present { IsPresent X.further X.agrees (standing X.plain scheduler.old) now }
    ensures left { IfOk (byte_written X.further (now - 1) window (shown_units X.further (standing X.plain scheduler.old) now) sfr value)
        (IsLeft X.further X.agrees now (standing X.plain scheduler.new)) }
    ensures costs { CostsAtMost (write_calls sfr) steps.old steps.new (moves_of X.moved scheduler.old) (moves_of X.moved scheduler.new) }
{
    match writable_byte(window, sfr) {
        Some(register) => write_named(scheduler, now, register, value, steps),
        None => write_further(scheduler, now, window, sfr, value, steps),
    }
}

/// A byte write of a register below 0018H in the state before `now`, after its Tick. The refusals: BadWindow, a value of WSR
/// outside the profile; FastTimer2, IOC2.0 while an entry of HSO is on Timer 2; ByteAccess, a half of a word register of the
/// window; NoRegister, where neither the window nor the further unit has such a register. A refused write changes nothing and
/// makes no call of a unit that counts. The edges of printed pins are those between before and after.
pub fn write8<X: Extra, L: Ledger>(
    scheduler: &mut Scheduler<X>,
    now: StateTime,
    window: Window,
    sfr: u8,
    value: u8,
    steps: &mut Steps<L>,
) -> Result<(), Kind>
    requires present { IsPresent X.further X.agrees (standing X.plain scheduler.old) now }
    requires profile { in_profile scheduler.old.board_registers.wsr ≡ true }
    ensures answer { refusal result
        ≡ refusal (byte_written X.further (now - 1) window (shown_units X.further (standing X.plain scheduler.old) now) sfr value) }
    ensures units { IfOk (byte_written X.further (now - 1) window (shown_units X.further (standing X.plain scheduler.old) now) sfr value)
        (λ units. shown_units X.further (standing X.plain scheduler.new) now ≡ units) }
    ensures scheduled { IsScheduled X.further X.agrees (standing X.plain scheduler.new) now }
    ensures profile { in_profile scheduler.new.board_registers.wsr ≡ true }
    ensures refused { RefusesFreely result scheduler.old scheduler.new steps.old steps.new }
    ensures costs { CostsAtMost (write_calls sfr) steps.old steps.new (moves_of X.moved scheduler.old) (moves_of X.moved scheduler.new) }
{
    if let Some(kind) = write_refusal(scheduler, now, window, sfr, value) {
        return Err(kind);
    }
    write_byte(scheduler, now, window, sfr, value, steps);
    Ok(())
}

/// Why a word register refuses a word, if it does.
fn word_refusal<X: Extra>(
    scheduler: &Scheduler<X>,
    now: StateTime,
    register: WritableWord,
    value: u16,
) -> Option<Kind>
    requires { IsScheduled X.further X.agrees (standing X.plain scheduler.now) now }
    ensures { result ≡ refusal (with_word (shown_units X.further (standing X.plain scheduler.now) now) register value) }
{
    match register {
        WritableWord::HsoTime => scheduler
            .hso
            .unit
            .refusal(bit(scheduler.board_registers.ioc2, 0)),
        _ => None,
    }
}

// A write of a word register that does not refuse the word.
fn write_word<X: Extra, L: Ledger>(
    scheduler: &mut Scheduler<X>,
    now: StateTime,
    register: WritableWord,
    value: u16,
    steps: &mut Steps<L>,
)
    requires present { IsPresent X.further X.agrees (standing X.plain scheduler.old) now }
    requires defined { refusal (with_word (shown_units X.further (standing X.plain scheduler.old) now) register value) ≡ None }
    ensures left { IfOk (with_word (shown_units X.further (standing X.plain scheduler.old) now) register value)
        (IsLeft X.further X.agrees now (standing X.plain scheduler.new)) }
    ensures steps { steps.new ≤ steps.old + 4 }
    ensures moves { moves_of X.moved scheduler.new ≤ moves_of X.moved scheduler.old + 2 }
{
    match register {
        WritableWord::HsoTime => load_hso(scheduler, now, value, steps),
        WritableWord::Timer2 => write_timer2(scheduler, now, value, steps),
        WritableWord::PtsSelect => scheduler.board_registers.requests.select = value,
        WritableWord::PtsService => scheduler.board_registers.requests.service = value,
    }
}

// A word register of the window is written, or refuses.
fn write_one<X: Extra, L: Ledger>(
    scheduler: &mut Scheduler<X>,
    now: StateTime,
    register: WritableWord,
    value: u16,
    steps: &mut Steps<L>,
) -> Result<(), Kind>
    requires present { IsPresent X.further X.agrees (standing X.plain scheduler.old) now }
    ensures answer { refusal result ≡ refusal (with_word (shown_units X.further (standing X.plain scheduler.old) now) register value) }
    ensures left { IfOk (with_word (shown_units X.further (standing X.plain scheduler.old) now) register value)
        (IsLeft X.further X.agrees now (standing X.plain scheduler.new)) }
    ensures refused { RefusesFreely result scheduler.old scheduler.new steps.old steps.new }
    ensures steps { steps.new ≤ steps.old + 4 }
    ensures moves { moves_of X.moved scheduler.new ≤ moves_of X.moved scheduler.old + 2 }
{
    if let Some(kind) = word_refusal(scheduler, now, register, value) {
        return Err(kind);
    }
    write_word(scheduler, now, register, value, steps);
    Ok(())
}

// A word that is no word register is written as two bytes, which are both asked before either is written.
fn write_two<X: Extra, L: Ledger>(
    scheduler: &mut Scheduler<X>,
    now: StateTime,
    window: Window,
    sfr: u8,
    value: u16,
    steps: &mut Steps<L>,
) -> Result<(), Kind>
    requires present { IsPresent X.further X.agrees (standing X.plain scheduler.old) now }
    requires byte { sfr < 24 }
    requires two { row_at (words_written window) sfr ≡ None }
    ensures answer { refusal result
        ≡ refusal (even_word_written X.further (now - 1) window (shown_units X.further (standing X.plain scheduler.old) now) sfr value) }
    ensures left { IfOk (even_word_written X.further (now - 1) window (shown_units X.further (standing X.plain scheduler.old) now) sfr value)
        (IsLeft X.further X.agrees now (standing X.plain scheduler.new)) }
    ensures refused { RefusesFreely result scheduler.old scheduler.new steps.old steps.new }
    ensures costs { CostsAtMost (word_write_calls sfr) steps.old steps.new (moves_of X.moved scheduler.old) (moves_of X.moved scheduler.new) }
{
    let low = (value % 256) as u8;
    let high = (value / 256) as u8;
    if let Some(kind) = write_refusal(scheduler, now, window, sfr, low) {
        return Err(kind);
    }
    if let Some(kind) = write_refusal(scheduler, now, window, sfr + 1, high) {
        return Err(kind);
    }
    write_byte(scheduler, now, window, sfr, low, steps);
    write_byte(scheduler, now, window, sfr + 1, high, steps);
    Ok(())
}

// A word write at an even address.
fn write_even<X: Extra, L: Ledger>(
    scheduler: &mut Scheduler<X>,
    now: StateTime,
    window: Window,
    sfr: u8,
    value: u16,
    steps: &mut Steps<L>,
) -> Result<(), Kind>
    requires present { IsPresent X.further X.agrees (standing X.plain scheduler.old) now }
    requires byte { sfr < 24 }
    requires profile { in_profile scheduler.old.board_registers.wsr ≡ true }
    ensures answer { refusal result
        ≡ refusal (even_word_written X.further (now - 1) window (shown_units X.further (standing X.plain scheduler.old) now) sfr value) }
    ensures units { IfOk (even_word_written X.further (now - 1) window (shown_units X.further (standing X.plain scheduler.old) now) sfr value)
        (λ units. shown_units X.further (standing X.plain scheduler.new) now ≡ units) }
    ensures scheduled { IsScheduled X.further X.agrees (standing X.plain scheduler.new) now }
    ensures profile { in_profile scheduler.new.board_registers.wsr ≡ true }
    ensures refused { RefusesFreely result scheduler.old scheduler.new steps.old steps.new }
    ensures costs { CostsAtMost (word_write_calls sfr) steps.old steps.new (moves_of X.moved scheduler.old) (moves_of X.moved scheduler.new) }
{
    match writable_word(window, sfr) {
        Some(register) => write_one(scheduler, now, register, value, steps),
        None => write_two(scheduler, now, window, sfr, value, steps),
    }
}

/// A word write at an address below 0018H in the state before `now`, after its Tick: of a word register of the window, else of
/// two bytes, the low one first. An odd address is refused with OddWord. HSO_TIME refuses with HoldingFull, Channel or
/// FastTimer2, asked in this order; two bytes are refused as the low one is, else as the high one is. A refused write changes
/// nothing and makes no call of a unit that counts. The edges of printed pins are those between before and after.
pub fn write16<X: Extra, L: Ledger>(
    scheduler: &mut Scheduler<X>,
    now: StateTime,
    window: Window,
    sfr: u8,
    value: u16,
    steps: &mut Steps<L>,
) -> Result<(), Kind>
    requires present { IsPresent X.further X.agrees (standing X.plain scheduler.old) now }
    requires byte { sfr < 24 }
    requires profile { in_profile scheduler.old.board_registers.wsr ≡ true }
    ensures answer { refusal result
        ≡ refusal (word_written X.further (now - 1) window (shown_units X.further (standing X.plain scheduler.old) now) sfr value) }
    ensures units { IfOk (word_written X.further (now - 1) window (shown_units X.further (standing X.plain scheduler.old) now) sfr value)
        (λ units. shown_units X.further (standing X.plain scheduler.new) now ≡ units) }
    ensures scheduled { IsScheduled X.further X.agrees (standing X.plain scheduler.new) now }
    ensures profile { in_profile scheduler.new.board_registers.wsr ≡ true }
    ensures refused { RefusesFreely result scheduler.old scheduler.new steps.old steps.new }
    ensures costs { CostsAtMost (word_write_calls sfr) steps.old steps.new (moves_of X.moved scheduler.old) (moves_of X.moved scheduler.new) }
{
    if sfr % 2 == 1 {
        return Err(Kind::OddWord);
    }
    write_even(scheduler, now, window, sfr, value, steps)
}
