//! What accesses do to the units that they concern: those are caught up to the present state, changed, and rescheduled when they
//! are due.
ghost use Rattle.std.specs.Prelude.{◌≡◌, ◌≢◌, ℕ, ◌+◌, ◌-◌, ◌*◌, ◌≤◌, ◌<◌, ◌^◌, false, None};
ghost use Rattle.kc_base.specs.Bits.{bit as bit_of};
ghost use Rattle.kc_span.specs.Span.{least_of};
ghost use Rattle.kc_due.specs.Due.{at_slot};
ghost use Rattle.kc_hso.specs.Cam.{load_refusal, with_load};
ghost use Rattle.kc_block_spec.specs.Costs.{Costs};
ghost use Rattle.kc_block_spec.specs.Registers.{window_number};
ghost use Rattle.kc_block_spec.specs.Writing.{reset_by as reset_when, emptied_by as emptied_when, board_registers_with as board_registers_after};
ghost use Rattle.kc_block_units.specs.Scheduler.{shown_units, IsScheduled, IsLeft, IsPresent};
ghost use Rattle.kc_block_units.specs.Standing.{standing, moves_of};

use crate::keeping_registers::board_registers_with;
use crate::registers::number;
use crate::values::state_before;
use kc_base::{StateTime, Steps, bit};
use kc_block_spec::{Window, WritableByte};
use kc_block_units::Scheduler;
use kc_due::DueList;
use kc_extra::Extra;
use kc_hso::Hso;
use kc_span::earlier;
use kc_timers::Timer2;
use std::sync::ledger::Ledger;

/// A read of IOS1 clears its bits 0 to 5.
pub(crate) fn clear_ios1<X: Extra>(scheduler: &mut Scheduler<X>, now: StateTime)
    requires present { IsPresent X.further X.agrees (standing X.plain scheduler.old) now }
    ensures left { let u = shown_units X.further (standing X.plain scheduler.old) now in
        IsLeft X.further X.agrees now (standing X.plain scheduler.new) (record u { board_registers = record u.board_registers { ios1 = 0 }; overflowed = false }) }
    ensures moves { moves_of X.moved scheduler.new ≡ moves_of X.moved scheduler.old }
{
    scheduler.catch_up_flag(now);
    scheduler.flag.unit = false;
    scheduler.board_registers.ios1 = 0;
    scheduler.ask_flag(now);
}

/// A write of IOC1 gates outputs, and says whether Timer 1's overflow is a request.
pub(crate) fn write_ioc1<X: Extra>(scheduler: &mut Scheduler<X>, now: StateTime, value: u8)
    requires present { IsPresent X.further X.agrees (standing X.plain scheduler.old) now }
    ensures left { let u = shown_units X.further (standing X.plain scheduler.old) now in
        IsLeft X.further X.agrees now (standing X.plain scheduler.new) (record u { board_registers = board_registers_after u.board_registers WritableByte.Ioc1 value }) }
    ensures moves { moves_of X.moved scheduler.new ≡ moves_of X.moved scheduler.old }
{
    scheduler.catch_up_flag(now);
    scheduler.board_registers = board_registers_with(
        &scheduler.board_registers,
        WritableByte::Ioc1,
        value,
    );
    scheduler.ask_flag(now);
    scheduler.set_wires(now);
}

/// A write of TIMER2.
pub(crate) fn write_timer2<X: Extra, L: Ledger>(
    scheduler: &mut Scheduler<X>,
    now: StateTime,
    value: u16,
    steps: &mut Steps<L>,
)
    requires present { IsPresent X.further X.agrees (standing X.plain scheduler.old) now }
    ensures left { let u = shown_units X.further (standing X.plain scheduler.old) now in
        IsLeft X.further X.agrees now (standing X.plain scheduler.new) (record u { timer2 = record u.timer2 { value = value } }) }
    ensures costs { Costs 4 2 steps.old steps.new (moves_of X.moved scheduler.old) (moves_of X.moved scheduler.new) }
{
    scheduler.catch_up_timers(now, steps);
    scheduler.timer2.unit.write(value);
    scheduler.ask_timers(now, steps);
}

/// Bit 1 of a write of IOC0 resets Timer 2.
fn reset_by(timer: &mut Timer2, value: u8)
    ensures { timer.new ≡ record timer.old { inner = reset_when value timer.old.inner } }
{
    if bit(value, 1) {
        timer.write(0);
    }
}

/// A write of IOC0.
pub(crate) fn write_ioc0<X: Extra, L: Ledger>(
    scheduler: &mut Scheduler<X>,
    now: StateTime,
    value: u8,
    steps: &mut Steps<L>,
)
    requires present { IsPresent X.further X.agrees (standing X.plain scheduler.old) now }
    ensures left { let u = shown_units X.further (standing X.plain scheduler.old) now in
        IsLeft X.further X.agrees now (standing X.plain scheduler.new)
        (record u { board_registers = board_registers_after u.board_registers WritableByte.Ioc0 value; timer2 = reset_when value u.timer2 }) }
    ensures costs { Costs 4 2 steps.old steps.new (moves_of X.moved scheduler.old) (moves_of X.moved scheduler.new) }
{
    scheduler.catch_up_timers(now, steps);
    scheduler.board_registers = board_registers_with(
        &scheduler.board_registers,
        WritableByte::Ioc0,
        value,
    );
    reset_by(&mut scheduler.timer2.unit, value);
    scheduler.ask_timers(now, steps);
}

/// Bit 7 of a write of IOC2 empties HSO's entries and holding register.
fn empty_by(hso: &mut Hso, value: u8)
    ensures { hso.new ≡ record hso.old { inner = emptied_when value hso.old.inner } }
{
    if bit(value, 7) {
        hso.clear();
    }
}

/// A write of IOC2, which was found to be no fast Timer 2 with entries on it.
pub(crate) fn write_ioc2<X: Extra, L: Ledger>(
    scheduler: &mut Scheduler<X>,
    now: StateTime,
    value: u8,
    steps: &mut Steps<L>,
)
    requires present { IsPresent X.further X.agrees (standing X.plain scheduler.old) now }
    ensures left { let u = shown_units X.further (standing X.plain scheduler.old) now in
        IsLeft X.further X.agrees now (standing X.plain scheduler.new)
        (record u { board_registers = board_registers_after u.board_registers WritableByte.Ioc2 value; hso = emptied_when value u.hso }) }
    ensures costs { Costs 4 2 steps.old steps.new (moves_of X.moved scheduler.old) (moves_of X.moved scheduler.new) }
{
    scheduler.catch_up_timers(now, steps);
    scheduler.board_registers = board_registers_with(
        &scheduler.board_registers,
        WritableByte::Ioc2,
        value,
    );
    empty_by(&mut scheduler.hso.unit, value);
    scheduler.ask_timers(now, steps);
}

/// A write of IOC3.
pub(crate) fn write_ioc3<X: Extra, L: Ledger>(
    scheduler: &mut Scheduler<X>,
    now: StateTime,
    value: u8,
    steps: &mut Steps<L>,
)
    requires present { IsPresent X.further X.agrees (standing X.plain scheduler.old) now }
    ensures left { let u = shown_units X.further (standing X.plain scheduler.old) now in
        IsLeft X.further X.agrees now (standing X.plain scheduler.new) (record u { board_registers = board_registers_after u.board_registers WritableByte.Ioc3 value }) }
    ensures costs { Costs 4 2 steps.old steps.new (moves_of X.moved scheduler.old) (moves_of X.moved scheduler.new) }
{
    scheduler.catch_up_timers(now, steps);
    scheduler.board_registers = board_registers_with(
        &scheduler.board_registers,
        WritableByte::Ioc3,
        value,
    );
    scheduler.ask_timers(now, steps);
}

/// A write of HSO_COMMAND, which no Tick reads: HSO stays in the state where it stands, and is due as before.
pub(crate) fn write_hso_command<X: Extra>(scheduler: &mut Scheduler<X>, now: StateTime, value: u8)
    requires { IsScheduled X.further X.agrees (standing X.plain scheduler.old) now }
    ensures left { let u = shown_units X.further (standing X.plain scheduler.old) now in
        IsLeft X.further X.agrees now (standing X.plain scheduler.new) (record u { hso = record u.hso { command = value } }) }
    ensures moves { moves_of X.moved scheduler.new ≡ moves_of X.moved scheduler.old }
{
    scheduler.hso.unit.command(value);
}

/// HSO is due where it was, or at this state, if that is earlier.
fn reschedule_hso(due: &mut DueList, visit: Option<StateTime>)
    ensures here { at_slot due.new 1 ≡ least_of (at_slot due.old 1) visit }
    ensures others { (k : ℕ) → k ≢ 1 → at_slot due.new k ≡ at_slot due.old k }
{
    if let Some(at) = earlier(due.time_of(1), visit) {
        due.set(1, at);
    }
}

/// A write of HSO_TIME, which was found to load: HSO is due as before, or where an empty slot takes what was loaded.
pub(crate) fn load_hso<X: Extra, L: Ledger>(
    scheduler: &mut Scheduler<X>,
    now: StateTime,
    time: u16,
    steps: &mut Steps<L>,
)
    requires present { IsPresent X.further X.agrees (standing X.plain scheduler.old) now }
    requires loads { load_refusal (shown_units X.further (standing X.plain scheduler.old) now).hso (bit_of scheduler.old.board_registers.ioc2 0) ≡ None }
    ensures left { let u = shown_units X.further (standing X.plain scheduler.old) now in
        IsLeft X.further X.agrees now (standing X.plain scheduler.new) (record u { hso = with_load time u.hso }) }
    ensures costs { Costs 2 1 steps.old steps.new (moves_of X.moved scheduler.old) (moves_of X.moved scheduler.new) }
{
    scheduler.catch_up_hso(now, steps);
    let fast = bit(scheduler.board_registers.ioc2, 0);
    let visit = scheduler.hso.unit.first_empty(now, steps);
    let _ = scheduler.hso.unit.load_time(time, fast);
    reschedule_hso(&mut scheduler.due, visit);
}

/// A write of HSI_MODE.
pub(crate) fn write_hsi_mode<X: Extra, L: Ledger>(
    scheduler: &mut Scheduler<X>,
    now: StateTime,
    value: u8,
    steps: &mut Steps<L>,
)
    requires present { IsPresent X.further X.agrees (standing X.plain scheduler.old) now }
    ensures left { let u = shown_units X.further (standing X.plain scheduler.old) now in
        IsLeft X.further X.agrees now (standing X.plain scheduler.new) (record u { hsi = record u.hsi { mode = value } }) }
    ensures costs { Costs 2 1 steps.old steps.new (moves_of X.moved scheduler.old) (moves_of X.moved scheduler.new) }
{
    scheduler.catch_up_hsi(now, steps);
    scheduler.hsi.unit.set_mode(value);
    scheduler.ask_hsi(now, steps);
}

/// A read of HSI_TIME empties the holding register.
pub(crate) fn take_hsi_time<X: Extra, L: Ledger>(
    scheduler: &mut Scheduler<X>,
    now: StateTime,
    steps: &mut Steps<L>,
) -> u16
    requires present { IsPresent X.further X.agrees (standing X.plain scheduler.old) now }
    ensures time { result ≡ (shown_units X.further (standing X.plain scheduler.old) now).hsi.held.time }
    ensures left { let u = shown_units X.further (standing X.plain scheduler.old) now in
        IsLeft X.further X.agrees now (standing X.plain scheduler.new) (record u { hsi = record u.hsi { loaded = false } }) }
    ensures costs { Costs 2 1 steps.old steps.new (moves_of X.moved scheduler.old) (moves_of X.moved scheduler.new) }
{
    scheduler.catch_up_hsi(now, steps);
    let time = scheduler.hsi.unit.read_time();
    scheduler.ask_hsi(now, steps);
    time
}

/// A byte read of the further unit, in the state before `now`.
pub(crate) fn read_further<X: Extra, L: Ledger>(
    scheduler: &mut Scheduler<X>,
    now: StateTime,
    window: Window,
    sfr: u8,
    steps: &mut Steps<L>,
) -> Option<u8>
    requires present { IsPresent X.further X.agrees (standing X.plain scheduler.old) now }
    ensures answer { let u = shown_units X.further (standing X.plain scheduler.old) now in
        result ≡ X.further.answer (window_number window) sfr (now - 1) u.further }
    ensures left { let u = shown_units X.further (standing X.plain scheduler.old) now in
        IsLeft X.further X.agrees now (standing X.plain scheduler.new)
        (record u { further = X.further.after_read (window_number window) sfr (now - 1) u.further }) }
    ensures costs { Costs 2 1 steps.old steps.new (moves_of X.moved scheduler.old) (moves_of X.moved scheduler.new) }
{
    scheduler.catch_up_further(now, steps);
    let answer = scheduler
        .further
        .unit
        .read(number(window), sfr, state_before(now));
    scheduler.ask_further(now, steps);
    answer
}

/// A byte write of the further unit, in the state before `now`.
pub(crate) fn write_further<X: Extra, L: Ledger>(
    scheduler: &mut Scheduler<X>,
    now: StateTime,
    window: Window,
    sfr: u8,
    value: u8,
    steps: &mut Steps<L>,
)
    requires present { IsPresent X.further X.agrees (standing X.plain scheduler.old) now }
    ensures left { let u = shown_units X.further (standing X.plain scheduler.old) now in
        IsLeft X.further X.agrees now (standing X.plain scheduler.new)
        (record u { further = X.further.after_write (window_number window) sfr value (now - 1) u.further }) }
    ensures costs { Costs 2 1 steps.old steps.new (moves_of X.moved scheduler.old) (moves_of X.moved scheduler.new) }
{
    scheduler.catch_up_further(now, steps);
    let _ = scheduler
        .further
        .unit
        .write(number(window), sfr, value, state_before(now));
    scheduler.ask_further(now, steps);
}
