// The units at the start of state 0.
ghost use Rattle.std.specs.Prelude.{◌≡◌, ◌≢◌, ℕ, ◌<◌, ◌≤◌, IfOk, None, bit_xor};
ghost use Rattle.kc_base.specs.Fresh.{IsFresh};
ghost use Rattle.kc_span.specs.Span.{IsDue};
ghost use Rattle.kc_due.specs.Due.{at_slot};
ghost use Rattle.kc_block_spec.specs.Levels.{stimulated_before};
ghost use Rattle.kc_block_spec.specs.Start.{first_units};
ghost use Rattle.kc_block_units.specs.Scheduler.{shown_units, IsScheduled};
ghost use Rattle.kc_block_units.specs.Standing.{standing, moves_of};

use crate::scheduler::{DeferredUnit, Scheduler};
use crate::start_levels;
use kc_base::{NoMemory, Steps};
use kc_block_spec::BoardRegisters;
use kc_due::DueList;
use kc_extra::Extra;
use kc_hsi::Hsi;
use kc_hso::Hso;
use kc_intc::Requests;
use kc_stim::Stimuli;
use kc_timers::Timer2;
use std::alloc::Global;
use std::marker::Brand;
use std::sync::ledger::{Blank, Ledger};

/// The data beside the units at the start.
fn first_board_registers(stimuli: &Stimuli) -> BoardRegisters
    ensures { result ≡ board_registers_at_start stimuli.now }
{
    BoardRegisters {
        levels: start_levels(stimuli),
        ios1: 0,
        ios2: 0,
        ioc0: 0,
        ioc1: 0,
        ioc2: 0,
        ioc3: 0,
        requests: Requests::default(),
        wsr: 0,
        port1: 0xFF,
        port2: 0xE1,
    }
}

ghost use Rattle.kc_block_spec.specs.Start.{first_board_registers as board_registers_at_start};

/// Schedules all units from state 0 on, with a counter of its own.
fn ask_all<X: Extra, L: Ledger>(scheduler: &mut Scheduler<X>, blank: Blank)
    requires fresh { IsFresh blank L.name L.parts }
    requires timer2 { scheduler.old.timer2.at ≡ 0 }
    requires levels { scheduler.old.board_registers.levels ≡ stimulated_before scheduler.old.stimuli 0 }
    requires empty { (slot : ℕ) → slot < 16 → at_slot scheduler.old.due slot ≡ None }
    ensures rest { scheduler.new ≡ record scheduler.old { due = scheduler.new.due } }
    ensures asked { AreAsked X.further (standing X.plain scheduler.new) 0 }
{
    let mut steps = Steps::<L>::new(blank);
    scheduler.ask_timers(0, &mut steps);
    scheduler.ask_hsi(0, &mut steps);
    scheduler.ask_further(0, &mut steps);
    scheduler.ask_flag(0);
    scheduler.set_stimuli(0);
    scheduler.set_wires(0);
}

ghost use Rattle.kc_block_units.specs.Asked.{AreAsked};

impl<X: Extra + Drop> Scheduler<X> {
    /// All units at the start of state 0. The further unit has to keep the levels that the inputs have before state 0.
    pub fn new(alloc: Global, stimuli: Stimuli, extra: X) -> Result<Scheduler<X>, NoMemory>
        requires { (m : ℕ) → X.agrees m (bit_xor (stimulated_before stimuli 0) m) (X.plain extra) }
        ensures scheduled { IfOk result (λ scheduler. IsScheduled X.further X.agrees (standing X.plain scheduler) 0) }
        ensures units { IfOk result (λ scheduler. shown_units X.further (standing X.plain scheduler) 0 ≡ first_units stimuli (X.plain extra)) }
        ensures moves { IfOk result (λ scheduler. moves_of X.moved scheduler ≡ X.moved extra) }
    {
        let hsi = Hsi::new(alloc)?;
        let mut scheduler = Scheduler {
            board_registers: first_board_registers(&stimuli),
            stimuli,
            due: DueList::new(),
            flag: DeferredUnit { unit: false, at: 0 },
            timer2: DeferredUnit {
                unit: Timer2::new(),
                at: 0,
            },
            hso: DeferredUnit {
                unit: Hso::new(),
                at: 0,
            },
            hsi: DeferredUnit { unit: hsi, at: 0 },
            further: DeferredUnit { unit: extra, at: 0 },
        };
        ask_all::<X, Brand>(&mut scheduler, Blank::new(1));
        Ok(scheduler)
    }
}
