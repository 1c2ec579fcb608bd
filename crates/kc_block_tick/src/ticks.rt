// The Tick of all units.
ghost use Rattle.std.specs.Prelude.{◌≡◌, ℕ, ◌+◌, ◌*◌, ◌≤◌, ◌^◌};
ghost use Rattle.kc_block_spec.specs.Costs.{Costs};
ghost use Rattle.kc_block_spec.specs.Tick.{tick};
ghost use Rattle.kc_block_spec.specs.Touch.{in_state, touched as touched_in};
ghost use Rattle.kc_block_spec.specs.Leading.{Leads};
ghost use Rattle.kc_block_units.specs.Scheduler.{shown_units, IsScheduled, IsPresent};
ghost use Rattle.kc_block_units.specs.Events.{ticked_scheduler};
ghost use Rattle.kc_block_units.specs.Standing.{standing, moves_of};
ghost use Rattle.kc_block_tick.specs.Ticking.{inputs_at, touched_by, given_in};

use crate::asks::Touched;
use crate::commands::{ios1_bits, ios2_bits, resets, starts};
use crate::pins::{Inputs, has_hsi_edge, has_timer2_edge, hsi_edges, timer2_inputs};
use crate::raised::{overflow_bit, passes, raised, set_board_registers};
use crate::units::{tick_flag, tick_further, tick_hsi, tick_hso, tick_timer2};
use kc_base::{EdgeOut, IntSet, StateTime, Steps};
use kc_block_units::{Scheduler, control, is_due};
use kc_extra::Extra;
use kc_hsi::HsiOut;
use kc_timers::T2Out;
use std::sync::ledger::Ledger;

/// What the units give in a Tick: which of them it touches, the command that fired, what Timer 2 and HSI report, and what the
/// further unit raises.
#[derive(Clone, Copy)]
pub(crate) struct Given {
    pub touched: Touched,
    pub fired: Option<u8>,
    pub counted: T2Out,
    pub queued: HsiOut,
    pub others: IntSet,
}

fn inputs_in<X: Extra>(scheduler: &Scheduler<X>, now: StateTime) -> Inputs
    requires { IsScheduled X.further X.agrees (standing X.plain scheduler.now) now }
    ensures { result ≡ inputs_at now (shown_units X.further (standing X.plain scheduler.now) now) }
{
    let levels = scheduler.levels(now);
    let edges = levels ^ scheduler.board_registers.levels;
    Inputs {
        levels,
        edges,
        rise: edges & levels,
        fall: edges & scheduler.board_registers.levels,
    }
}

/// The Tick of state `now` of all units that it touches. The data beside them stay.
fn tick_scheduler<X: Extra, O: EdgeOut, L: Ledger>(
    scheduler: &mut Scheduler<X>,
    inputs: Inputs,
    now: StateTime,
    out: &mut O,
    steps: &mut Steps<L>,
) -> Given
    requires present { IsPresent X.further X.agrees (standing X.plain scheduler.old) now }
    requires inputs { inputs ≡ inputs_at now (shown_units X.further (standing X.plain scheduler.old) now) }
    ensures scheduler { standing X.plain scheduler.new ≡ record (ticked_scheduler X.further (standing X.plain scheduler.old) now) { board_registers = scheduler.old.board_registers } }
    ensures given { result ≡ given_in X.further (standing X.plain scheduler.old) now }
    ensures edges { Leads O.led out.old (in_state now (tick X.further now (shown_units X.further (standing X.plain scheduler.old) now)).edges) out.new }
    ensures costs { Costs (2 * touched_in X.further now (shown_units X.further (standing X.plain scheduler.old) now)) (2 * touched_in X.further now (shown_units X.further (standing X.plain scheduler.old) now)) steps.old steps.new (moves_of X.moved scheduler.old) (moves_of X.moved scheduler.new) }
{
    let Inputs { levels, edges, .. } = inputs;
    let before = control(&scheduler.board_registers, scheduler.board_registers.levels);
    let after = control(&scheduler.board_registers, levels);
    let reached = has_timer2_edge(edges);
    let overflows = is_due(&scheduler.due, 0, now);
    let hso = is_due(&scheduler.due, 1, now) | (reached | overflows);
    let seen = scheduler.view(scheduler.hso.at);
    let value = scheduler.view(now).value;
    let board_registers = &scheduler.board_registers;
    let fired = tick_hso(
        &mut scheduler.hso,
        board_registers,
        seen,
        value,
        hso,
        now,
        out,
        steps,
    );
    let timer2 = reached | (overflows | resets(fired));
    let given = timer2_inputs(after, inputs, fired);
    let counted = tick_timer2(
        &mut scheduler.timer2,
        before,
        after,
        given,
        timer2,
        now,
        steps,
    );
    let hsi = has_hsi_edge(edges) | is_due(&scheduler.due, 2, now);
    let queued = tick_hsi(
        &mut scheduler.hsi,
        hsi_edges(board_registers, inputs),
        hsi,
        now,
        steps,
    );
    let starts = starts(fired);
    let further = (edges != 0) | (is_due(&scheduler.due, 3, now) | starts);
    let others = tick_further(
        &mut scheduler.further,
        levels,
        edges,
        starts,
        further,
        now,
        out,
        steps,
    );
    let flag = is_due(&scheduler.due, 4, now);
    tick_flag(&mut scheduler.flag, flag, now);
    let stimuli = is_due(&scheduler.due, 5, now);
    Given {
        touched: Touched {
            flag,
            timer2,
            hso,
            hsi,
            further,
            stimuli,
        },
        fired,
        counted,
        queued,
        others,
    }
}

/// The Tick of state `now` of all units that it touches, and of the data beside them; no unit is asked yet. Reports what it
/// touches.
pub(crate) fn tick_all<X: Extra, O: EdgeOut, L: Ledger>(
    scheduler: &mut Scheduler<X>,
    now: StateTime,
    out: &mut O,
    steps: &mut Steps<L>,
) -> Touched
    requires present { IsPresent X.further X.agrees (standing X.plain scheduler.old) now }
    ensures scheduler { standing X.plain scheduler.new ≡ ticked_scheduler X.further (standing X.plain scheduler.old) now }
    ensures touched { result ≡ touched_by X.further (standing X.plain scheduler.old) now }
    ensures edges { Leads O.led out.old (in_state now (tick X.further now (shown_units X.further (standing X.plain scheduler.old) now)).edges) out.new }
    ensures costs { Costs (2 * touched_in X.further now (shown_units X.further (standing X.plain scheduler.old) now)) (2 * touched_in X.further now (shown_units X.further (standing X.plain scheduler.old) now)) steps.old steps.new (moves_of X.moved scheduler.old) (moves_of X.moved scheduler.new) }
{
    let inputs = inputs_in(scheduler, now);
    let given = tick_scheduler(scheduler, inputs, now, out, steps);
    let Given {
        touched,
        fired,
        counted,
        queued,
        others,
    } = given;
    let raised = raised(
        &scheduler.board_registers,
        inputs.rise,
        passes(now),
        counted,
        queued,
        fired,
    );
    let ios1 = ios1_bits(fired) | overflow_bit(counted);
    set_board_registers(
        &mut scheduler.board_registers,
        inputs.levels,
        ios1,
        ios2_bits(fired),
        raised | others.0,
    );
    touched
}
