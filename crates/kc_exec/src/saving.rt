ghost use Rattle.std.specs.Prelude.{◌≡◌};
ghost use Rattle.kc_exec_spec.specs.Effect.{Gives, run};
ghost use Rattle.kc_exec_spec.specs.Saving.{push_status, pop_status, push_masks, pop_masks, push_all, pop_all, save};
ghost use Rattle.kc_bus.specs.Counting.{KeepsCount};

use kc_base::Kind;
use kc_bus::{Bus, Masks};
use kc_exec_operands::{pop_word, push_word};
use kc_exec_spec::Saving;

#[tactic(auto, using(kc_exec_spec::proofs::Running::run_bind), unfolding(kc_exec_spec::specs::Saving::push_status))]
fn do_push_status<B: Bus>(bus: &mut B, psw: u8) -> Result<(), Kind>
    ensures gives { Gives (λ x. x) result (B.held bus.new) (run B.meaning (push_status psw) (B.held bus.old)) }
    ensures count { KeepsCount B.spent B.held B.allowed B.lent bus.old bus.new }
{
    let mask = bus.masks().int_mask;
    push_word(bus, 0x100 * u16::from(psw) + u16::from(mask))?;
    let masks = bus.masks();
    bus.set_masks(Masks {
        int_mask: 0,
        int_mask1: masks.int_mask1,
        wsr: masks.wsr,
    })
}

#[tactic(auto, using(kc_exec_spec::proofs::Running::run_bind), unfolding(kc_exec_spec::specs::Saving::pop_status))]
fn do_pop_status<B: Bus>(bus: &mut B) -> Result<u8, Kind>
    ensures gives { Gives (λ x. x) result (B.held bus.new) (run B.meaning (pop_status) (B.held bus.old)) }
    ensures count { KeepsCount B.spent B.held B.allowed B.lent bus.old bus.new }
{
    let n = pop_word(bus)?;
    let masks = bus.masks();
    bus.set_masks(Masks {
        int_mask: (n % 0x100) as u8,
        int_mask1: masks.int_mask1,
        wsr: masks.wsr,
    })?;
    Ok((n / 0x100) as u8)
}

#[tactic(auto, using(kc_exec_spec::proofs::Running::run_bind), unfolding(kc_exec_spec::specs::Saving::push_masks))]
fn do_push_masks<B: Bus>(bus: &mut B) -> Result<(), Kind>
    ensures gives { Gives (λ x. x) result (B.held bus.new) (run B.meaning (push_masks) (B.held bus.old)) }
    ensures count { KeepsCount B.spent B.held B.allowed B.lent bus.old bus.new }
{
    let masks = bus.masks();
    push_word(
        bus,
        0x100 * u16::from(masks.int_mask1) + u16::from(masks.wsr),
    )?;
    let masks = bus.masks();
    bus.set_masks(Masks {
        int_mask: masks.int_mask,
        int_mask1: 0,
        wsr: masks.wsr,
    })
}

#[tactic(auto, using(kc_exec_spec::proofs::Running::run_bind), unfolding(kc_exec_spec::specs::Saving::pop_masks))]
fn do_pop_masks<B: Bus>(bus: &mut B) -> Result<(), Kind>
    ensures gives { Gives (λ x. x) result (B.held bus.new) (run B.meaning (pop_masks) (B.held bus.old)) }
    ensures count { KeepsCount B.spent B.held B.allowed B.lent bus.old bus.new }
{
    let n = pop_word(bus)?;
    let masks = bus.masks();
    bus.set_masks(Masks {
        int_mask: masks.int_mask,
        int_mask1: (n / 0x100) as u8,
        wsr: (n % 0x100) as u8,
    })
}

#[tactic(auto, using(kc_exec_spec::proofs::Running::run_bind), unfolding(kc_exec_spec::specs::Saving::push_all))]
fn do_push_all<B: Bus>(bus: &mut B, psw: u8) -> Result<(), Kind>
    ensures gives { Gives (λ x. x) result (B.held bus.new) (run B.meaning (push_all psw) (B.held bus.old)) }
    ensures count { KeepsCount B.spent B.held B.allowed B.lent bus.old bus.new }
{
    do_push_status(bus, psw)?;
    do_push_masks(bus)
}

#[tactic(auto, using(kc_exec_spec::proofs::Running::run_bind), unfolding(kc_exec_spec::specs::Saving::pop_all))]
fn do_pop_all<B: Bus>(bus: &mut B) -> Result<u8, Kind>
    ensures gives { Gives (λ x. x) result (B.held bus.new) (run B.meaning (pop_all) (B.held bus.old)) }
    ensures count { KeepsCount B.spent B.held B.allowed B.lent bus.old bus.new }
{
    do_pop_masks(bus)?;
    do_pop_status(bus)
}

/// Saves or restores the PSW and more; gives its new high byte.
#[tactic(auto, using(kc_exec_spec::proofs::Running::run_bind), unfolding(kc_exec_spec::specs::Saving::save))]
pub fn do_save<B: Bus>(bus: &mut B, how: Saving, psw: u8) -> Result<u8, Kind>
    ensures gives { Gives (λ x. x) result (B.held bus.new) (run B.meaning (save how psw) (B.held bus.old)) }
    ensures count { KeepsCount B.spent B.held B.allowed B.lent bus.old bus.new }
{
    match how {
        Saving::PushStatus => {
            do_push_status(bus, psw)?;
            Ok(0)
        }
        Saving::PopStatus => do_pop_status(bus),
        Saving::PushAll => {
            do_push_all(bus, psw)?;
            Ok(0)
        }
        Saving::PopAll => do_pop_all(bus),
    }
}
