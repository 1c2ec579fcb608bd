ghost use Rattle.std.specs.Prelude.{◌≡◌, ℕ, ◌+◌, ◌-◌, ◌*◌, ◌≤◌, ◌<◌, IsTrue, IfOk, Option, Some, None, bit_xor};
ghost use Rattle.kc_base.specs.Limits.{max_states};
ghost use Rattle.kc_span.specs.Span.{after, IsDue};
ghost use Rattle.kc_exec_spec.specs.Window.{is_wsr};
ghost use Rattle.kc_block_spec.specs.Levels.{stimulated_before};
ghost use Rattle.kc_block_spec.specs.Touch.{block_rule, touch, edges_of};
ghost use Rattle.kc_block_spec.specs.Start.{first_units};
ghost use Rattle.kc_block_spec.specs.Leading.{Leads};
ghost use Rattle.kc_block_spec.specs.Writing.{with_board_registers};
ghost use Rattle.kc_block_units.specs.Next.{IsDueOrLast};

use kc_base::{EdgeOut, NoMemory, StateTime, Steps};
use kc_block_tick::advance;
use kc_block_units::Scheduler;
use kc_extra::Extra;
use kc_intc::Requests;
use kc_stim::Stimuli;
use std::alloc::Global;
use std::marker::Model;
use std::sync::ledger::Ledger;

/// The peripheral units of a board at the start of a state, with a further unit `X`. State times are at most 3 * 10^15.
#[derive(Drop)]
pub struct Block<X: Extra + Drop> {
    pub(crate) scheduler: Scheduler<X>,
    pub(crate) time: StateTime,
}

impl<X: Extra + Drop> Model for Block<X> {
    ghost use Rattle.kc_block.specs.Seen.{Seen};

    ghost Value = { Seen X };

    ghost use Rattle.kc_block_units.specs.Standing.{standing, moves_of};
    ghost use Rattle.kc_block_units.specs.Scheduler.{shown_units};
    ghost use Rattle.kc_block.specs.Sound.{IsSound};

    ghost view = { λ b. record {
      time = b.time;
      units = shown_units X.further (standing X.plain b.scheduler) b.time;
      held = standing X.plain b.scheduler;
      moves = moves_of X.moved b.scheduler;
    } };

    ghost invariant = { λ b. IsSound X.further X.agrees (standing X.plain b.scheduler) b.time };
}

impl<X: Extra + Drop> Block<X> {
    /// The units at the start of state 0, with these stimuli and wires and this further unit, which has to keep the levels
    /// before state 0.
    pub fn new(alloc: Global, stimuli: Stimuli, extra: X) -> Result<Block<X>, NoMemory>
        requires { (m : ℕ) → X.agrees m (bit_xor (stimulated_before stimuli 0) m) (X.plain extra) }
        ensures time { IfOk result (λ block. block.time ≡ 0) }
        ensures units { IfOk result (λ block. block.units ≡ first_units stimuli (X.plain extra)) }
        ensures moves { IfOk result (λ block. block.moves ≡ X.moved extra) }
    {
        let scheduler = Scheduler::new(alloc, stimuli, extra)?;
        Ok(Block { scheduler, time: 0 })
    }

    /// The present state.
    pub fn time(&self) -> StateTime
        ensures value { result ≡ self.now.time }
        ensures bound { result ≤ 3 * max_states }
    {
        self.time
    }

    /// The next state from the present one on whose Tick does something, if no access comes before it; the last value of
    /// a state time where there is none.
    pub fn due(&self) -> StateTime
        ensures due { IsDueOrLast (block_rule X.further) self.now.time self.now.units result }
        ensures later { self.now.time ≤ result }
    {
        self.scheduler.next()
    }

    /// Goes on to the start of state `to`, and hands out the edges of the printed pins in order.
    pub fn advance<O: EdgeOut, L: Ledger>(
        &mut self,
        to: StateTime,
        out: &mut O,
        steps: &mut Steps<L>,
    )
        requires order { self.old.time ≤ to }
        requires bound { to ≤ 3 * max_states }
        ensures time { self.new.time ≡ to }
        ensures units { self.new.units ≡ after (block_rule X.further) self.old.time (to - self.old.time) self.old.units }
        ensures edges { Leads O.led out.old (edges_of X.further self.old.time (to - self.old.time) self.old.units) out.new }
        ensures steps { steps.new ≤ steps.old + 4 * touch X.further self.old.time (to - self.old.time) self.old.units }
        ensures moves { self.new.moves ≤ self.old.moves + 4 * touch X.further self.old.time (to - self.old.time) self.old.units }
    {
        advance(&mut self.scheduler, self.time, to, out, steps);
        self.time = to;
    }

    /// The pending, mask, select and service sets.
    pub fn requests(&self) -> Requests
        ensures { result ≡ self.now.units.board_registers.requests }
    {
        self.scheduler.board_registers.requests
    }

    /// Puts these four sets in place of the present ones, and changes nothing else. No unit is called.
    pub fn set_requests(&mut self, requests: Requests)
        ensures time { self.new.time ≡ self.old.time }
        ensures units { self.new.units ≡ with_board_registers self.old.units (record self.old.units.board_registers { requests = requests }) }
        ensures moves { self.new.moves ≡ self.old.moves }
    {
        self.scheduler.board_registers.requests = requests;
    }

    /// WSR, a value of the profile.
    pub fn wsr(&self) -> u8
        ensures value { result ≡ self.now.units.board_registers.wsr }
        ensures window { IsTrue (is_wsr result) }
    {
        self.scheduler.board_registers.wsr
    }

    /// Puts a value of the profile into WSR, and changes nothing else. No unit is called.
    pub fn set_wsr(&mut self, wsr: u8)
        requires { IsTrue (is_wsr wsr) }
        ensures time { self.new.time ≡ self.old.time }
        ensures units { self.new.units ≡ with_board_registers self.old.units (record self.old.units.board_registers { wsr = wsr }) }
        ensures moves { self.new.moves ≡ self.old.moves }
    {
        self.scheduler.board_registers.wsr = wsr;
    }
}
