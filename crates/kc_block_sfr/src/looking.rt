//! What a register shows at the start of the present state.
ghost use Rattle.std.specs.Prelude.{◌≡◌, ◌+◌, ◌*◌, ◌≤◌, ◌^◌};
ghost use Rattle.std.specs.Option.{unwrap_or};
ghost use Rattle.kc_base.specs.Fresh.{IsFresh};
ghost use Rattle.kc_block_spec.specs.Registers.{window_number};
ghost use Rattle.kc_block_spec.specs.Looking.{half_at, looked};
ghost use Rattle.kc_block_units.specs.Scheduler.{shown_units, IsScheduled, IsPresent};
ghost use Rattle.kc_block_units.specs.Standing.{standing, moves_of};

use crate::registers::number;
use crate::seeing::{byte_at, seen_at, word_at};
use kc_base::{StateTime, Steps};
use kc_block_spec::{Window, readable_byte, readable_word};
use kc_block_units::Scheduler;
use kc_extra::Extra;
use std::marker::Brand;
use std::sync::ledger::{Blank, Ledger};

/// The byte of a word that stands at an address.
fn half(sfr: u8, word: u16) -> u8
    ensures { result ≡ half_at sfr word }
{
    if sfr % 2 == 0 {
        (word % 256) as u8
    } else {
        (word / 256) as u8
    }
}

// Catches the further unit up to the present state, with a counter of its own.
fn catch_up_further<X: Extra, L: Ledger>(scheduler: &mut Scheduler<X>, now: StateTime, blank: Blank)
    requires present { IsPresent X.further X.agrees (standing X.plain scheduler.old) now }
    requires fresh { IsFresh blank L.name L.parts }
    ensures scheduled { IsScheduled X.further X.agrees (standing X.plain scheduler.new) now }
    ensures shows { shown_units X.further (standing X.plain scheduler.new) now ≡ shown_units X.further (standing X.plain scheduler.old) now }
    ensures there { X.plain scheduler.new.further.unit ≡ (shown_units X.further (standing X.plain scheduler.old) now).further }
    ensures moves { moves_of X.moved scheduler.new ≤ moves_of X.moved scheduler.old + 1 }
{
    let mut own = Steps::<L>::new(blank);
    scheduler.catch_up_further(now, &mut own);
}

// What the further unit shows, 0 where it has no such register.
fn look_further<X: Extra>(
    scheduler: &mut Scheduler<X>,
    now: StateTime,
    window: Window,
    sfr: u8,
) -> u8
    requires present { IsPresent X.further X.agrees (standing X.plain scheduler.old) now }
    ensures value { let u = shown_units X.further (standing X.plain scheduler.old) now in
        result ≡ unwrap_or (X.further.answer (window_number window) sfr now u.further) 0 }
    ensures scheduled { IsScheduled X.further X.agrees (standing X.plain scheduler.new) now }
    ensures shows { shown_units X.further (standing X.plain scheduler.new) now ≡ shown_units X.further (standing X.plain scheduler.old) now }
    ensures moves { moves_of X.moved scheduler.new ≤ moves_of X.moved scheduler.old + 1 }
{
    catch_up_further::<X, Brand>(scheduler, now, Blank::new(1));
    scheduler
        .further
        .unit
        .look(number(window), sfr, now)
        .unwrap_or(0)
}

/// What a byte read at the start of state `now` would give, without its effect: of a half of a word register that half, and 0
/// where the read is undefined. An input without a wire shows its stimuli in `now`, a wired one its level in the state before.
/// It counts no call; the further unit may be moved.
pub fn look<X: Extra>(scheduler: &mut Scheduler<X>, now: StateTime, window: Window, sfr: u8) -> u8
    requires present { IsPresent X.further X.agrees (standing X.plain scheduler.old) now }
    ensures value { result ≡ looked X.further now window (shown_units X.further (standing X.plain scheduler.old) now) sfr }
    ensures scheduled { IsScheduled X.further X.agrees (standing X.plain scheduler.new) now }
    ensures shows { shown_units X.further (standing X.plain scheduler.new) now ≡ shown_units X.further (standing X.plain scheduler.old) now }
    ensures moves { moves_of X.moved scheduler.new ≤ moves_of X.moved scheduler.old + 1 }
{
    if let Some(register) = readable_byte(window, sfr) {
        let seen = seen_at(scheduler, now);
        return byte_at(scheduler, &seen, now, register);
    }
    match readable_word(window, sfr - sfr % 2) {
        Some(register) => half(sfr, word_at(scheduler, now, now, register)),
        None => look_further(scheduler, now, window, sfr),
    }
}
