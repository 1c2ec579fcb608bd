// Activities over the machine's board.
ghost use Rattle.std.specs.Prelude.{◌≡◌, ◌≤◌, ◌<◌, IsTrue, IfOk, None, true};
ghost use Rattle.kc_base.specs.Limits.{transfer_count};
ghost use Rattle.kc_isa.specs.Formed.{is_formed};
ghost use Rattle.kc_exec_spec.specs.Effect.{Gives, run};
ghost use Rattle.kc_exec_spec.specs.Effects.{effect_of, Performs};
ghost use Rattle.kc_exec_spec.specs.BlockMoves.{moved_word, IsUnderWay, IsOfMove};
ghost use Rattle.kc_exec_spec.specs.Entering.{entry, opcode_trap, Loads};
ghost use Rattle.kc_exec_spec.specs.Places.{place_of};
ghost use Rattle.kc_exec_spec.specs.Plans.{plan_of};
ghost use Rattle.kc_exec_predecode.specs.Predecoding.{is_free, is_simple, time_at, IsPredecoded, GoesOn};
ghost use Rattle.kc_pts.specs.Cycles.{set_up, served, Serves};
ghost use Rattle.kc_machine_spec.specs.Board.{masks_of};
ghost use Rattle.kc_machine_spec.specs.Scene.{byte};
ghost use Rattle.kc_machine.specs.Bus.{held_of, bus_meaning};
ghost use Rattle.kc_machine.specs.Sound.{IsSoundCycle};
ghost use Rattle.kc_machine.specs.Accessing.{BeganAt, WithinState};

use crate::common::Common;
use crate::lent::{Began, Lent};
use kc_base::{Kind, Steps};
use kc_exec::{enter, move_word, perform, place, trap_opcode};
use kc_exec_predecode::{Predecoded, is_known, known_time_of, perform_predecoded, time_of};
use kc_exec_spec::{After, Cpu, Words};
use kc_extra::Extra;
use kc_isa::{Insn, Place};
use kc_pts::{Cycle, serve, setup};
use std::marker::{Brand, PhantomData};
use std::sync::ledger::Ledger;

fn perform_from<X: Extra + Drop, L: Ledger, K: Began>(
    insn: &Insn,
    cpu: &mut Cpu,
    common: &mut Common<X>,
    steps: &mut Steps<L>,
) -> Result<After, Kind>
    requires began { BeganAt K.steps K.moves common.old steps.old }
    requires formed { IsTrue (is_formed insn.now) }
    ensures effect { Performs result cpu.old cpu.new (held_of common.new) (run (bus_meaning X.further) (effect_of insn.now cpu.old) (held_of common.old)) }
    ensures words { IfOk result (λ after. IsOfMove insn.now after) }
    ensures within { WithinState common.old common.new steps.old steps.new }
{
    let mut bus = Lent {
        common,
        steps,
        began: PhantomData::<K>,
    };
    perform(insn, cpu, &mut bus)
}

/// Performs an instruction over the board.
pub(crate) fn perform_over<X: Extra + Drop, L: Ledger>(
    insn: &Insn,
    cpu: &mut Cpu,
    common: &mut Common<X>,
    steps: &mut Steps<L>,
) -> Result<After, Kind>
    requires unreached { common.old.reached ≡ 0 }
    requires formed { IsTrue (is_formed insn.now) }
    ensures effect { Performs result cpu.old cpu.new (held_of common.new) (run (bus_meaning X.further) (effect_of insn.now cpu.old) (held_of common.old)) }
    ensures words { IfOk result (λ after. IsOfMove insn.now after) }
    ensures within { WithinState common.old common.new steps.old steps.new }
{
    perform_from::<X, L, Brand>(insn, cpu, common, steps)
}

fn move_from<X: Extra + Drop, L: Ledger, K: Began>(
    insn: &Insn,
    words: Words,
    cpu: &mut Cpu,
    common: &mut Common<X>,
    steps: &mut Steps<L>,
) -> Result<After, Kind>
    requires began { BeganAt K.steps K.moves common.old steps.old }
    requires formed { IsTrue (is_formed insn.now) }
    requires under_way { IsUnderWay insn.now words }
    ensures effect { Performs result cpu.old cpu.new (held_of common.new) (run (bus_meaning X.further) (moved_word insn.now words cpu.old) (held_of common.old)) }
    ensures words { IfOk result (λ after. IsOfMove insn.now after) }
    ensures within { WithinState common.old common.new steps.old steps.new }
{
    let mut bus = Lent {
        common,
        steps,
        began: PhantomData::<K>,
    };
    move_word(insn, words, cpu, &mut bus)
}

/// Moves a word of a block move over the board.
pub(crate) fn move_over<X: Extra + Drop, L: Ledger>(
    insn: &Insn,
    words: Words,
    cpu: &mut Cpu,
    common: &mut Common<X>,
    steps: &mut Steps<L>,
) -> Result<After, Kind>
    requires unreached { common.old.reached ≡ 0 }
    requires formed { IsTrue (is_formed insn.now) }
    requires under_way { IsUnderWay insn.now words }
    ensures effect { Performs result cpu.old cpu.new (held_of common.new) (run (bus_meaning X.further) (moved_word insn.now words cpu.old) (held_of common.old)) }
    ensures words { IfOk result (λ after. IsOfMove insn.now after) }
    ensures within { WithinState common.old common.new steps.old steps.new }
{
    move_from::<X, L, Brand>(insn, words, cpu, common, steps)
}

fn enter_from<X: Extra + Drop, L: Ledger, K: Began>(
    vector: u16,
    cpu: &mut Cpu,
    common: &mut Common<X>,
    steps: &mut Steps<L>,
) -> Result<(), Kind>
    requires began { BeganAt K.steps K.moves common.old steps.old }
    ensures effect { Loads result cpu.old cpu.new (held_of common.new) (run (bus_meaning X.further) (entry vector cpu.old.pc) (held_of common.old)) }
    ensures within { WithinState common.old common.new steps.old steps.new }
{
    let mut bus = Lent {
        common,
        steps,
        began: PhantomData::<K>,
    };
    enter(vector, cpu, &mut bus)
}

/// Enters through a vector over the board.
pub(crate) fn enter_over<X: Extra + Drop, L: Ledger>(
    vector: u16,
    cpu: &mut Cpu,
    common: &mut Common<X>,
    steps: &mut Steps<L>,
) -> Result<(), Kind>
    requires unreached { common.old.reached ≡ 0 }
    ensures effect { Loads result cpu.old cpu.new (held_of common.new) (run (bus_meaning X.further) (entry vector cpu.old.pc) (held_of common.old)) }
    ensures within { WithinState common.old common.new steps.old steps.new }
{
    enter_from::<X, L, Brand>(vector, cpu, common, steps)
}

fn trap_from<X: Extra + Drop, L: Ledger, K: Began>(
    cpu: &mut Cpu,
    common: &mut Common<X>,
    steps: &mut Steps<L>,
) -> Result<(), Kind>
    requires began { BeganAt K.steps K.moves common.old steps.old }
    ensures effect { Loads result cpu.old cpu.new (held_of common.new) (run (bus_meaning X.further) (opcode_trap cpu.old.pc) (held_of common.old)) }
    ensures within { WithinState common.old common.new steps.old steps.new }
{
    let mut bus = Lent {
        common,
        steps,
        began: PhantomData::<K>,
    };
    trap_opcode(cpu, &mut bus)
}

/// Takes the trap of an opcode that no instruction has over the board.
pub(crate) fn trap_over<X: Extra + Drop, L: Ledger>(
    cpu: &mut Cpu,
    common: &mut Common<X>,
    steps: &mut Steps<L>,
) -> Result<(), Kind>
    requires unreached { common.old.reached ≡ 0 }
    ensures effect { Loads result cpu.old cpu.new (held_of common.new) (run (bus_meaning X.further) (opcode_trap cpu.old.pc) (held_of common.old)) }
    ensures within { WithinState common.old common.new steps.old steps.new }
{
    trap_from::<X, L, Brand>(cpu, common, steps)
}

fn setup_from<X: Extra + Drop, L: Ledger, K: Began>(
    number: u8,
    common: &mut Common<X>,
    steps: &mut Steps<L>,
) -> Result<Cycle, Kind>
    requires began { BeganAt K.steps K.moves common.old steps.old }
    requires number { number < transfer_count }
    ensures gives { Gives (λ x. x) result (held_of common.new) (run (bus_meaning X.further) (set_up number) (held_of common.old)) }
    ensures sound { IfOk result (λ cycle. IsSoundCycle number cycle) }
    ensures within { WithinState common.old common.new steps.old steps.new }
{
    let mut bus = Lent {
        common,
        steps,
        began: PhantomData::<K>,
    };
    setup(number, &mut bus)
}

/// Sets up a cycle of the transfer server over the board.
pub(crate) fn setup_over<X: Extra + Drop, L: Ledger>(
    number: u8,
    common: &mut Common<X>,
    steps: &mut Steps<L>,
) -> Result<Cycle, Kind>
    requires unreached { common.old.reached ≡ 0 }
    requires number { number < transfer_count }
    ensures gives { Gives (λ x. x) result (held_of common.new) (run (bus_meaning X.further) (set_up number) (held_of common.old)) }
    ensures sound { IfOk result (λ cycle. IsSoundCycle number cycle) }
    ensures within { WithinState common.old common.new steps.old steps.new }
{
    setup_from::<X, L, Brand>(number, common, steps)
}

fn serve_from<X: Extra + Drop, L: Ledger, K: Began>(
    number: u8,
    cycle: &mut Cycle,
    common: &mut Common<X>,
    steps: &mut Steps<L>,
) -> Result<Option<u8>, Kind>
    requires began { BeganAt K.steps K.moves common.old steps.old }
    requires sound { IsSoundCycle number cycle.old }
    ensures effect { Serves result cycle.old cycle.new (held_of common.new) (run (bus_meaning X.further) (served cycle.old) (held_of common.old)) }
    ensures sound { IfOk result (λ count. count ≡ None → IsSoundCycle number cycle.new) }
    ensures within { WithinState common.old common.new steps.old steps.new }
{
    let mut bus = Lent {
        common,
        steps,
        began: PhantomData::<K>,
    };
    serve(cycle, &mut bus)
}

/// Makes one transfer of a cycle over the board, and after the last the end of the cycle.
pub(crate) fn serve_over<X: Extra + Drop, L: Ledger>(
    number: u8,
    cycle: &mut Cycle,
    common: &mut Common<X>,
    steps: &mut Steps<L>,
) -> Result<Option<u8>, Kind>
    requires unreached { common.old.reached ≡ 0 }
    requires sound { IsSoundCycle number cycle.old }
    ensures effect { Serves result cycle.old cycle.new (held_of common.new) (run (bus_meaning X.further) (served cycle.old) (held_of common.old)) }
    ensures sound { IfOk result (λ count. count ≡ None → IsSoundCycle number cycle.new) }
    ensures within { WithinState common.old common.new steps.old steps.new }
{
    serve_from::<X, L, Brand>(number, cycle, common, steps)
}

/// The place of an instruction on the board, which stays as it is.
pub(crate) fn place_over<X: Extra + Drop, L: Ledger>(
    insn: &Insn,
    cpu: &Cpu,
    common: &mut Common<X>,
    steps: &mut Steps<L>,
) -> Result<Place, Kind>
    requires { IsTrue (is_formed insn.now) }
    ensures value { result ≡ place_of insn.now cpu.now (masks_of common.old.block.units) (byte (held_of common.old)) }
    ensures shifts { IfOk result (λ at. at.shifts ≤ 31) }
    ensures common { common.new ≡ common.old }
    ensures steps { steps.new ≡ steps.old }
{
    let bus = Lent {
        common,
        steps,
        began: PhantomData::<Brand>,
    };
    place(insn, cpu, &bus)
}

#[inline(always)]
fn predecoded_from<X: Extra + Drop, L: Ledger, K: Began>(
    predecoded: &Predecoded,
    cpu: &mut Cpu,
    common: &mut Common<X>,
    steps: &mut Steps<L>,
) -> Result<bool, Kind>
    requires began { BeganAt K.steps K.moves common.old steps.old }
    requires predecoded { IsPredecoded predecoded.now }
    requires followed { is_free (plan_of predecoded.now.mnemonic) ≡ true }
    ensures effect { GoesOn result cpu.old cpu.new (held_of common.new) (run (bus_meaning X.further) (effect_of predecoded.now.insn cpu.old) (held_of common.old)) }
    ensures within { WithinState common.old common.new steps.old steps.new }
{
    let mut bus = Lent {
        common,
        steps,
        began: PhantomData::<K>,
    };
    perform_predecoded(predecoded, cpu, &mut bus)
}

/// Performs a predecoded instruction over the board; answers whether an instruction has to follow, or any activity may.
#[inline(always)]
pub(crate) fn predecoded_over<X: Extra + Drop, L: Ledger>(
    predecoded: &Predecoded,
    cpu: &mut Cpu,
    common: &mut Common<X>,
    steps: &mut Steps<L>,
) -> Result<bool, Kind>
    requires unreached { common.old.reached ≡ 0 }
    requires predecoded { IsPredecoded predecoded.now }
    requires followed { is_free (plan_of predecoded.now.mnemonic) ≡ true }
    ensures effect { GoesOn result cpu.old cpu.new (held_of common.new) (run (bus_meaning X.further) (effect_of predecoded.now.insn cpu.old) (held_of common.old)) }
    ensures within { WithinState common.old common.new steps.old steps.new }
{
    predecoded_from::<X, L, Brand>(predecoded, cpu, common, steps)
}

/// The states of a predecoded instruction on the board, where its whole place is asked.
#[inline(never)]
#[cold]
fn placed_time_over<X: Extra + Drop, L: Ledger>(
    predecoded: Predecoded,
    cpu: Cpu,
    common: &mut Common<X>,
    steps: &mut Steps<L>,
) -> Result<u8, Kind>
    requires { IsPredecoded predecoded }
    ensures value { result ≡ time_at predecoded.insn cpu (masks_of common.old.block.units) (byte (held_of common.old)) }
    ensures some { IfOk result (λ n. 0 < n) }
    ensures common { common.new ≡ common.old }
    ensures steps { steps.new ≡ steps.old }
{
    let bus = Lent {
        common,
        steps,
        began: PhantomData::<Brand>,
    };
    time_of(&predecoded, cpu, &bus)
}

/// The states of a predecoded instruction on the board, where they depend on one condition at most.
#[inline(always)]
fn known_time_over<X: Extra + Drop, L: Ledger>(
    predecoded: &Predecoded,
    cpu: Cpu,
    common: &mut Common<X>,
    steps: &mut Steps<L>,
) -> Result<u8, Kind>
    requires predecoded { IsPredecoded predecoded.now }
    requires known { is_simple predecoded.now.cost ≡ true }
    ensures value { result ≡ time_at predecoded.now.insn cpu (masks_of common.old.block.units) (byte (held_of common.old)) }
    ensures some { IfOk result (λ n. 0 < n) }
    ensures common { common.new ≡ common.old }
    ensures steps { steps.new ≡ steps.old }
{
    let bus = Lent {
        common,
        steps,
        began: PhantomData::<Brand>,
    };
    known_time_of(predecoded, cpu, &bus)
}

/// The states of a predecoded instruction on the board, which stays as it is.
#[inline(always)]
pub(crate) fn time_over<X: Extra + Drop, L: Ledger>(
    predecoded: &Predecoded,
    cpu: Cpu,
    common: &mut Common<X>,
    steps: &mut Steps<L>,
) -> Result<u8, Kind>
    requires { IsPredecoded predecoded.now }
    ensures value { result ≡ time_at predecoded.now.insn cpu (masks_of common.old.block.units) (byte (held_of common.old)) }
    ensures some { IfOk result (λ n. 0 < n) }
    ensures common { common.new ≡ common.old }
    ensures steps { steps.new ≡ steps.old }
{
    if is_known(predecoded) {
        known_time_over(predecoded, cpu, common, steps)
    } else {
        Ok(placed_time_over(*predecoded, cpu, common, steps)?)
    }
}
