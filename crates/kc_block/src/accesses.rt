ghost use Rattle.std.specs.Prelude.{◌≡◌, ℕ, ◌+◌, ◌-◌, ◌*◌, ◌≤◌, ◌<◌, ◌^◌, OnOk, OnErr, IfOk, IfErr, Ok, Err, is_some, true};
ghost use Rattle.kc_block_spec.specs.Registers.{row_at, bytes_read_everywhere, bytes_written_everywhere};
ghost use Rattle.kc_block_spec.specs.Touch.{in_state};
ghost use Rattle.kc_block_spec.specs.Leading.{Leads};
ghost use Rattle.kc_block_spec.specs.Accesses.{byte_read, after_byte_read, byte_written, word_read, after_word_read, word_written, latch_edges};
ghost use Rattle.kc_block_spec.specs.Looking.{looked};
ghost use Rattle.kc_block_spec.specs.Levels.{printed as printed_of};
ghost use Rattle.kc_block_units.specs.Scheduler.{shown_units, IsScheduled};
ghost use Rattle.kc_block_units.specs.Standing.{standing};

use crate::block::Block;
use kc_base::{EdgeOut, Kind, StateTime, Steps};
use kc_block_sfr as access;
use kc_block_spec::Window;
use kc_block_units::{Scheduler, lead_edges, printed};
use kc_extra::Extra;
use std::sync::ledger::Ledger;

/// The state whose Tick was the last before the present one.
fn state_before(time: StateTime) -> StateTime
    ensures { result ≡ time - 1 }
{
    time.saturating_sub(1)
}

/// The printed pins that are high at the start of a state.
pub(crate) fn printed_at<X: Extra>(scheduler: &Scheduler<X>, time: StateTime) -> u64
    requires { IsScheduled X.further X.agrees (standing X.plain scheduler.now) time }
    ensures { result ≡ printed_of (shown_units X.further (standing X.plain scheduler.now) time).board_registers
        (shown_units X.further (standing X.plain scheduler.now) time).hso }
{
    printed(&scheduler.board_registers, &scheduler.hso.unit)
}

impl<X: Extra + Drop> Block<X> {
    /// Reads a byte below 0018H in the state before the present one, after its Tick. A refusal changes nothing.
    pub fn read8_here<L: Ledger>(
        &mut self,
        window: Window,
        sfr: u8,
        steps: &mut Steps<L>,
    ) -> Result<u8, Kind>
        requires register { sfr < 24 }
        ensures answer { result ≡ byte_read X.further (self.old.time - 1) window self.old.units sfr }
        ensures ok { OnOk result (self.new.units ≡ after_byte_read X.further (self.old.time - 1) window self.old.units sfr) }
        ensures refused { OnErr result (self.new ≡ self.old) }
        ensures unspent { OnErr result (steps.new ≡ steps.old) }
        ensures free { is_some (row_at bytes_read_everywhere sfr) ≡ true → steps.new ≤ steps.old }
        ensures free_moves { is_some (row_at bytes_read_everywhere sfr) ≡ true → self.new.moves ≤ self.old.moves }
        ensures time { self.new.time ≡ self.old.time }
        ensures steps { steps.new ≤ steps.old + 4 }
        ensures moves { self.new.moves ≤ self.old.moves + 4 }
    {
        access::read8(&mut self.scheduler, self.time, window, sfr, steps)
    }

    /// Reads a word below 0018H in the state before the present one, after its Tick. A refusal changes nothing; an odd address is
    /// refused with `OddWord`.
    pub fn read16_here<L: Ledger>(
        &mut self,
        window: Window,
        sfr: u8,
        steps: &mut Steps<L>,
    ) -> Result<u16, Kind>
        requires register { sfr < 24 }
        ensures answer { result ≡ word_read X.further (self.old.time - 1) window self.old.units sfr }
        ensures ok { OnOk result (self.new.units ≡ after_word_read X.further (self.old.time - 1) window self.old.units sfr) }
        ensures refused { OnErr result (self.new ≡ self.old) }
        ensures unspent { OnErr result (steps.new ≡ steps.old) }
        ensures time { self.new.time ≡ self.old.time }
        ensures steps { steps.new ≤ steps.old + 8 }
        ensures moves { self.new.moves ≤ self.old.moves + 8 }
    {
        access::read16(&mut self.scheduler, self.time, window, sfr, steps)
    }

    /// Writes a byte below 0018H in the state before the present one, after its Tick, and hands out the edges of the
    /// printed pins. A refusal changes nothing.
    pub fn write8_here<O: EdgeOut, L: Ledger>(
        &mut self,
        window: Window,
        sfr: u8,
        value: u8,
        out: &mut O,
        steps: &mut Steps<L>,
    ) -> Result<(), Kind>
        requires register { sfr < 24 }
        ensures ok { OnOk result (byte_written X.further (self.old.time - 1) window self.old.units sfr value ≡ Ok self.new.units) }
        ensures kind { IfErr result (λ kind. byte_written X.further (self.old.time - 1) window self.old.units sfr value ≡ Err kind) }
        ensures refused { OnErr result (self.new ≡ self.old) }
        ensures unspent { OnErr result (steps.new ≡ steps.old) }
        ensures free { is_some (row_at bytes_written_everywhere sfr) ≡ true → steps.new ≤ steps.old }
        ensures free_moves { is_some (row_at bytes_written_everywhere sfr) ≡ true → self.new.moves ≤ self.old.moves }
        ensures time { self.new.time ≡ self.old.time }
        ensures edges { Leads O.led out.old (in_state (self.old.time - 1) (latch_edges self.old.units self.new.units)) out.new }
        ensures steps { steps.new ≤ steps.old + 4 }
        ensures moves { self.new.moves ≤ self.old.moves + 4 }
    {
        let before = printed_at(&self.scheduler, self.time);
        let written = access::write8(&mut self.scheduler, self.time, window, sfr, value, steps);
        lead_edges(
            before,
            printed_at(&self.scheduler, self.time),
            state_before(self.time),
            out,
        );
        written
    }

    /// Writes a word below 0018H in the state before the present one, after its Tick, and hands out the edges of the printed
    /// pins. A refusal changes nothing; an odd address is refused with `OddWord`.
    pub fn write16_here<O: EdgeOut, L: Ledger>(
        &mut self,
        window: Window,
        sfr: u8,
        value: u16,
        out: &mut O,
        steps: &mut Steps<L>,
    ) -> Result<(), Kind>
        requires register { sfr < 24 }
        ensures ok { OnOk result (word_written X.further (self.old.time - 1) window self.old.units sfr value ≡ Ok self.new.units) }
        ensures kind { IfErr result (λ kind. word_written X.further (self.old.time - 1) window self.old.units sfr value ≡ Err kind) }
        ensures refused { OnErr result (self.new ≡ self.old) }
        ensures unspent { OnErr result (steps.new ≡ steps.old) }
        ensures time { self.new.time ≡ self.old.time }
        ensures edges { Leads O.led out.old (in_state (self.old.time - 1) (latch_edges self.old.units self.new.units)) out.new }
        ensures steps { steps.new ≤ steps.old + 8 }
        ensures moves { self.new.moves ≤ self.old.moves + 8 }
    {
        let before = printed_at(&self.scheduler, self.time);
        let written = access::write16(&mut self.scheduler, self.time, window, sfr, value, steps);
        lead_edges(
            before,
            printed_at(&self.scheduler, self.time),
            state_before(self.time),
            out,
        );
        written
    }

    /// What a byte read at the start of the present state would give, without its effect: each half of a word register, and
    /// 0 where the read is undefined. The further unit may be moved for it, once.
    pub fn look(&mut self, window: Window, sfr: u8) -> u8
        requires { sfr < 24 }
        ensures value { result ≡ looked X.further self.old.time window self.old.units sfr }
        ensures time { self.new.time ≡ self.old.time }
        ensures units { self.new.units ≡ self.old.units }
        ensures moves { self.new.moves ≤ self.old.moves + 1 }
    {
        access::look(&mut self.scheduler, self.time, window, sfr)
    }
}
