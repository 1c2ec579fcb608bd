ghost use Rattle.std.specs.Prelude.{◌≡◌, ℕ, ◌+◌, ◌*◌, ◌≤◌, ◌<◌, OnOk, OnErr, IfErr, Ok, Err, is_some, true};
ghost use Rattle.kc_base.specs.Limits.{max_states};
ghost use Rattle.kc_block_spec.specs.Registers.{row_at, bytes_read_everywhere, bytes_written_everywhere};
ghost use Rattle.kc_block_spec.specs.Leading.{Leads};
ghost use Rattle.kc_block_spec.specs.Accesses.{byte_read, after_byte_read, byte_written, word_read, after_word_read, word_written};
ghost use Rattle.kc_block.specs.Accessed.{units_past, edges_past, edges_with, calls_past};

use crate::block::Block;
use kc_base::{EdgeOut, Kind, StateTime, Steps};
use kc_block_spec::Window;
use kc_extra::Extra;
use std::sync::ledger::Ledger;

/// Accesses at a state that may be later than the present one. Each goes on past the Tick of that state, `at`, and hands
/// out the edges of the printed pins on the way; the present state is then the next one. A refused access leaves what the
/// Ticks alone leave.
impl<X: Extra + Drop> Block<X> {
    // Goes on past the Tick of state `at`.
    fn go_past<O: EdgeOut, L: Ledger>(&mut self, at: StateTime, out: &mut O, steps: &mut Steps<L>)
        requires order { self.old.time ≤ at + 1 }
        requires bound { at < 3 * max_states }
        ensures time { self.new.time ≡ at + 1 }
        ensures units { self.new.units ≡ units_past X.further self.old at }
        ensures edges { Leads O.led out.old (edges_past X.further self.old at) out.new }
        ensures steps { steps.new ≤ steps.old + calls_past X.further self.old at }
        ensures moves { self.new.moves ≤ self.old.moves + calls_past X.further self.old at }
    {
        self.advance(at + 1, out, steps);
    }

    /// Reads a byte below 0018H at state `at`, after its Tick. A read gives no edge.
    pub fn read8<O: EdgeOut, L: Ledger>(
        &mut self,
        window: Window,
        sfr: u8,
        at: StateTime,
        out: &mut O,
        steps: &mut Steps<L>,
    ) -> Result<u8, Kind>
        requires register { sfr < 24 }
        requires order { self.old.time ≤ at + 1 }
        requires bound { at < 3 * max_states }
        ensures answer { result ≡ byte_read X.further at window (units_past X.further self.old at) sfr }
        ensures ok { OnOk result (self.new.units ≡ after_byte_read X.further at window (units_past X.further self.old at) sfr) }
        ensures refused { OnErr result (self.new.units ≡ units_past X.further self.old at) }
        ensures time { self.new.time ≡ at + 1 }
        ensures edges { Leads O.led out.old (edges_past X.further self.old at) out.new }
        ensures steps { steps.new ≤ steps.old + (calls_past X.further self.old at + 4) }
        ensures refused_steps { OnErr result (steps.new ≤ steps.old + calls_past X.further self.old at) }
        ensures free_steps { is_some (row_at bytes_read_everywhere sfr) ≡ true → steps.new ≤ steps.old + calls_past X.further self.old at }
        ensures moves { self.new.moves ≤ self.old.moves + (calls_past X.further self.old at + 4) }
        ensures refused_moves { OnErr result (self.new.moves ≤ self.old.moves + calls_past X.further self.old at) }
        ensures free_moves { is_some (row_at bytes_read_everywhere sfr) ≡ true → self.new.moves ≤ self.old.moves + calls_past X.further self.old at }
    {
        self.go_past(at, out, steps);
        self.read8_here(window, sfr, steps)
    }

    /// Reads a word below 0018H at state `at`, after its Tick. A read gives no edge; an odd address is refused with `OddWord`.
    pub fn read16<O: EdgeOut, L: Ledger>(
        &mut self,
        window: Window,
        sfr: u8,
        at: StateTime,
        out: &mut O,
        steps: &mut Steps<L>,
    ) -> Result<u16, Kind>
        requires register { sfr < 24 }
        requires order { self.old.time ≤ at + 1 }
        requires bound { at < 3 * max_states }
        ensures answer { result ≡ word_read X.further at window (units_past X.further self.old at) sfr }
        ensures ok { OnOk result (self.new.units ≡ after_word_read X.further at window (units_past X.further self.old at) sfr) }
        ensures refused { OnErr result (self.new.units ≡ units_past X.further self.old at) }
        ensures time { self.new.time ≡ at + 1 }
        ensures edges { Leads O.led out.old (edges_past X.further self.old at) out.new }
        ensures steps { steps.new ≤ steps.old + (calls_past X.further self.old at + 8) }
        ensures refused_steps { OnErr result (steps.new ≤ steps.old + calls_past X.further self.old at) }
        ensures moves { self.new.moves ≤ self.old.moves + (calls_past X.further self.old at + 8) }
        ensures refused_moves { OnErr result (self.new.moves ≤ self.old.moves + calls_past X.further self.old at) }
    {
        self.go_past(at, out, steps);
        self.read16_here(window, sfr, steps)
    }

    /// Writes a byte below 0018H at state `at`, after its Tick, and hands out the edges that the write gives.
    pub fn write8<O: EdgeOut, L: Ledger>(
        &mut self,
        window: Window,
        sfr: u8,
        value: u8,
        at: StateTime,
        out: &mut O,
        steps: &mut Steps<L>,
    ) -> Result<(), Kind>
        requires register { sfr < 24 }
        requires order { self.old.time ≤ at + 1 }
        requires bound { at < 3 * max_states }
        ensures ok { OnOk result (byte_written X.further at window (units_past X.further self.old at) sfr value ≡ Ok self.new.units) }
        ensures kind { IfErr result (λ kind. byte_written X.further at window (units_past X.further self.old at) sfr value ≡ Err kind) }
        ensures refused { OnErr result (self.new.units ≡ units_past X.further self.old at) }
        ensures time { self.new.time ≡ at + 1 }
        ensures edges { Leads O.led out.old (edges_with X.further self.old at self.new.units) out.new }
        ensures steps { steps.new ≤ steps.old + (calls_past X.further self.old at + 4) }
        ensures refused_steps { OnErr result (steps.new ≤ steps.old + calls_past X.further self.old at) }
        ensures free_steps { is_some (row_at bytes_written_everywhere sfr) ≡ true → steps.new ≤ steps.old + calls_past X.further self.old at }
        ensures moves { self.new.moves ≤ self.old.moves + (calls_past X.further self.old at + 4) }
        ensures refused_moves { OnErr result (self.new.moves ≤ self.old.moves + calls_past X.further self.old at) }
        ensures free_moves { is_some (row_at bytes_written_everywhere sfr) ≡ true → self.new.moves ≤ self.old.moves + calls_past X.further self.old at }
    {
        self.go_past(at, out, steps);
        self.write8_here(window, sfr, value, out, steps)
    }

    /// Writes a word below 0018H at state `at`, after its Tick, and hands out the edges that the write gives. An odd address is
    /// refused with `OddWord`.
    pub fn write16<O: EdgeOut, L: Ledger>(
        &mut self,
        window: Window,
        sfr: u8,
        value: u16,
        at: StateTime,
        out: &mut O,
        steps: &mut Steps<L>,
    ) -> Result<(), Kind>
        requires register { sfr < 24 }
        requires order { self.old.time ≤ at + 1 }
        requires bound { at < 3 * max_states }
        ensures ok { OnOk result (word_written X.further at window (units_past X.further self.old at) sfr value ≡ Ok self.new.units) }
        ensures kind { IfErr result (λ kind. word_written X.further at window (units_past X.further self.old at) sfr value ≡ Err kind) }
        ensures refused { OnErr result (self.new.units ≡ units_past X.further self.old at) }
        ensures time { self.new.time ≡ at + 1 }
        ensures edges { Leads O.led out.old (edges_with X.further self.old at self.new.units) out.new }
        ensures steps { steps.new ≤ steps.old + (calls_past X.further self.old at + 8) }
        ensures refused_steps { OnErr result (steps.new ≤ steps.old + calls_past X.further self.old at) }
        ensures moves { self.new.moves ≤ self.old.moves + (calls_past X.further self.old at + 8) }
        ensures refused_moves { OnErr result (self.new.moves ≤ self.old.moves + calls_past X.further self.old at) }
    {
        self.go_past(at, out, steps);
        self.write16_here(window, sfr, value, out, steps)
    }
}
