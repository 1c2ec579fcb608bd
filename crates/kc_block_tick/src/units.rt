// The Tick of each unit, where it is touched: it is caught up to the state, and ticked.
ghost use Rattle.std.specs.Prelude.{◌≡◌, ℕ, ◌+◌, ◌-◌, ◌*◌, ◌≤◌, if◌then◌else◌, None, [], false};
ghost use Rattle.kc_base.specs.Limits.{max_states};
ghost use Rattle.kc_base.specs.Bits.{bit};
ghost use Rattle.kc_span.specs.Span.{QuietFor};
ghost use Rattle.kc_timers.specs.T2.{timer2_rule, tick_of as timer2_tick_of, out_of as timer2_out_of};
ghost use Rattle.kc_hso.specs.Cam.{hso_rule, tick_of as hso_tick_of, out_of as hso_out_of};
ghost use Rattle.kc_hsi.specs.Input.{hsi_rule, tick_of as hsi_tick_of, out_of as hsi_out_of};
ghost use Rattle.kc_span.specs.DeferredUnit.{deferred_at, shown};
ghost use Rattle.kc_block_spec.specs.Costs.{Costs};
ghost use Rattle.kc_block_spec.specs.Levels.{printed as printed_of, edges_between};
ghost use Rattle.kc_block_spec.specs.Touch.{in_state};
ghost use Rattle.kc_block_spec.specs.Leading.{Leads};
ghost use Rattle.kc_block_units.specs.Scheduler.{further_goes};
ghost use Rattle.kc_block_units.specs.Events.{moved_deferred};

use kc_base::{EdgeOut, IntSet, StateTime, Steps};
use kc_block_spec::BoardRegisters;
use kc_block_units::{DeferredUnit, has_pin, lead_all, lead_edges, printed};
use kc_extra::Extra;
use kc_hsi::{Hsi, HsiOut, PinEdges};
use kc_hso::Hso;
use kc_timers::{T2Control, T2Inputs, T2Out, T2View, Timer2};
use std::sync::ledger::Ledger;

/// HSO's Tick of state `now`: `seen` is the view of Timer 2 where HSO stands, `value` that of state `now`. Gives the command
/// that fired, and hands out the edges of the outputs.
pub(crate) fn tick_hso<O: EdgeOut, L: Ledger>(
    deferred: &mut DeferredUnit<Hso>,
    board_registers: &BoardRegisters,
    seen: T2View,
    value: u16,
    touched: bool,
    now: StateTime,
    out: &mut O,
    steps: &mut Steps<L>,
) -> Option<u8>
    requires bound { now ≤ 3 * max_states }
    requires order { deferred.old.at ≤ now }
    requires quiet { QuietFor (hso_rule seen deferred.old.at) deferred.old.at (now - deferred.old.at) deferred.old.unit.inner }
    ensures deferred { let old = deferred_at deferred.old.at deferred.old.unit.inner in
        deferred_at deferred.new.at deferred.new.unit.inner
        ≡ moved_deferred touched now (hso_tick_of (bit board_registers.now.ioc2 6) now value (shown (hso_rule seen deferred.old.at) old now)) old }
    ensures fired { let old = deferred_at deferred.old.at deferred.old.unit.inner in
        result ≡ (if touched then (hso_out_of now value (shown (hso_rule seen deferred.old.at) old now)).command else None) }
    ensures edges { let d = shown (hso_rule seen deferred.old.at) (deferred_at deferred.old.at deferred.old.unit.inner) now in
        Leads O.led out.old (if touched then in_state now (edges_between (printed_of board_registers.now d) (printed_of board_registers.now (hso_tick_of (bit board_registers.now.ioc2 6) now value d))) else []) out.new }
    ensures costs { Costs (if touched then 2 else 0) (if touched then 2 else 0) steps.old steps.new (deferred.old.unit.moves) (deferred.new.unit.moves) }
{
    if !touched {
        return None;
    }
    let keep = has_pin(u64::from(board_registers.ioc2), 6);
    deferred.unit.quiet_to(deferred.at, now, seen, steps);
    let before = printed(board_registers, &deferred.unit);
    let fired = deferred.unit.tick(now, value, keep, steps);
    deferred.at = now + 1;
    lead_edges(before, printed(board_registers, &deferred.unit), now, out);
    fired.command
}

/// Timer 2's Tick of state `now`: `before` is its control in the states before, `control` that of the state.
pub(crate) fn tick_timer2<L: Ledger>(
    deferred: &mut DeferredUnit<Timer2>,
    before: T2Control,
    control: T2Control,
    inputs: T2Inputs,
    touched: bool,
    now: StateTime,
    steps: &mut Steps<L>,
) -> T2Out
    requires bound { now ≤ 3 * max_states }
    requires order { deferred.old.at ≤ now }
    requires quiet { QuietFor (timer2_rule before) deferred.old.at (now - deferred.old.at) deferred.old.unit.inner }
    ensures deferred { let old = deferred_at deferred.old.at deferred.old.unit.inner in
        deferred_at deferred.new.at deferred.new.unit.inner ≡ moved_deferred touched now (timer2_tick_of control inputs now (shown (timer2_rule before) old now)) old }
    ensures out { let old = deferred_at deferred.old.at deferred.old.unit.inner in
        result ≡ (if touched then timer2_out_of control inputs now (shown (timer2_rule before) old now) else record { overflow = false; captured = false }) }
    ensures costs { Costs (if touched then 2 else 0) (if touched then 2 else 0) steps.old steps.new (deferred.old.unit.moves) (deferred.new.unit.moves) }
{
    if !touched {
        return T2Out {
            overflow: false,
            captured: false,
        };
    }
    deferred.unit.quiet_to(deferred.at, now, before, steps);
    deferred.at = now + 1;
    deferred.unit.tick(now, control, inputs, steps)
}

/// HSI's Tick of state `now`.
pub(crate) fn tick_hsi<L: Ledger>(
    deferred: &mut DeferredUnit<Hsi>,
    edges: PinEdges,
    touched: bool,
    now: StateTime,
    steps: &mut Steps<L>,
) -> HsiOut
    requires bound { now ≤ 3 * max_states }
    requires order { deferred.old.at ≤ now }
    requires quiet { QuietFor hsi_rule deferred.old.at (now - deferred.old.at) deferred.old.unit.inner }
    ensures deferred { let old = deferred_at deferred.old.at deferred.old.unit.inner in
        deferred_at deferred.new.at deferred.new.unit.inner ≡ moved_deferred touched now (hsi_tick_of edges now (shown hsi_rule old now)) old }
    ensures out { let old = deferred_at deferred.old.at deferred.old.unit.inner in
        result ≡ (if touched then hsi_out_of edges now (shown hsi_rule old now) else record { loaded = false; fourth = false; sixth = false }) }
    ensures costs { Costs (if touched then 2 else 0) (if touched then 2 else 0) steps.old steps.new (deferred.old.unit.moves) (deferred.new.unit.moves) }
{
    if !touched {
        return HsiOut {
            loaded: false,
            fourth: false,
            sixth: false,
        };
    }
    deferred.unit.quiet_to(deferred.at, now, steps);
    deferred.at = now + 1;
    let PinEdges {
        rising,
        falling,
        enabled,
    } = edges;
    deferred.unit.tick(now, rising, falling, enabled, steps)
}

/// The further unit's Tick of state `now`, and its start. Gives the requests that it raises, and hands out its edges.
pub(crate) fn tick_further<X: Extra, O: EdgeOut, L: Ledger>(
    deferred: &mut DeferredUnit<X>,
    levels: u64,
    edges: u64,
    started: bool,
    touched: bool,
    now: StateTime,
    out: &mut O,
    steps: &mut Steps<L>,
) -> IntSet
    requires bound { now ≤ 3 * max_states }
    requires order { deferred.old.at ≤ now }
    requires quiet { QuietFor (further_goes X.further) deferred.old.at (now - deferred.old.at) (X.plain deferred.old.unit) }
    requires agrees { X.agrees levels edges (shown (further_goes X.further) (deferred_at deferred.old.at (X.plain deferred.old.unit)) now) }
    ensures deferred { let old = deferred_at deferred.old.at (X.plain deferred.old.unit) in
        let ticked = X.further.step now levels edges (shown (further_goes X.further) old now) in
        deferred_at deferred.new.at (X.plain deferred.new.unit) ≡ moved_deferred touched now (if started then X.further.started now ticked else ticked) old }
    ensures raised { let old = deferred_at deferred.old.at (X.plain deferred.old.unit) in
        result ≡ (if touched then (X.further.out now levels edges (shown (further_goes X.further) old now)).raised else record { 0 = 0 }) }
    ensures edges { let old = deferred_at deferred.old.at (X.plain deferred.old.unit) in
        Leads O.led out.old (if touched then in_state now (X.further.out now levels edges (shown (further_goes X.further) old now)).moved else []) out.new }
    ensures costs { Costs (if touched then 2 else 0) (if touched then 2 else 0) steps.old steps.new (X.moved deferred.old.unit) (X.moved deferred.new.unit) }
{
    if !touched {
        return IntSet(0);
    }
    deferred.unit.quiet_to(deferred.at, now, steps);
    let given = deferred.unit.tick(now, levels, edges, steps);
    deferred.at = now + 1;
    start_if(&mut deferred.unit, started, now);
    lead_all(given.moved.as_slice(), now, out);
    given.raised
}

/// Starts the further unit, if a fired command says so.
fn start_if<X: Extra>(unit: &mut X, started: bool, now: StateTime)
    requires { now ≤ 3 * max_states }
    ensures plain { X.plain unit.new ≡ (if started then X.further.started now (X.plain unit.old) else X.plain unit.old) }
    ensures moves { X.moved unit.new ≡ X.moved unit.old }
{
    if started {
        unit.start(now);
    }
}

/// Timer 1's flag, which is set where its overflow raises a request.
pub(crate) fn tick_flag(deferred: &mut DeferredUnit<bool>, touched: bool, now: StateTime)
    requires { now ≤ 3 * max_states }
    ensures { deferred_at deferred.new.at deferred.new.unit ≡ moved_deferred touched now true (deferred_at deferred.old.at deferred.old.unit) }
{
    if touched {
        deferred.unit = true;
        deferred.at = now + 1;
    }
}

ghost use Rattle.std.specs.Prelude.{true};
