ghost use Rattle.std.specs.Prelude.{◌≡◌, true, map, IfOk, OnOk};
ghost use Rattle.std.specs.List.{IsDistinct};
ghost use Rattle.std.specs.List.Sorted.{IsPermutation, IsSortedBy};
ghost use Rattle.kc_obj_module.specs.Rules.{publics_in_order};
ghost use Rattle.kc_asm_section.specs.Order as order;
ghost use Rattle.kc_asm_section.specs.Publics as spec;

use crate::kept::{Kept, number_of};
use crate::unlinked::Public;
use kc_base::NoMemory;
use kc_expr::Base;
use kc_obj_module::Given;
use std::alloc::Global;

fn piece_of(kept: Kept, base: Base) -> Option<u16>
    ensures { result ≡ spec.piece_of (order.number_of kept) base }
{
    match base {
        Base::Fixed | Base::Absolute | Base::External(_) => None,
        Base::Piece(part) => Some(number_of(kept, part)),
    }
}

fn given_of(kept: Kept, public: Public) -> Given
    ensures { result ≡ spec.given_of (order.number_of kept) public }
{
    Given {
        name: public.name,
        piece: piece_of(kept, public.value.base),
        value: public.value.number,
    }
}

fn givens_of(alloc: Global, kept: Kept, publics: Vec<Public>) -> Result<Vec<Given>, NoMemory>
    ensures { IfOk result (λ v. v.items ≡ map (spec.given_of (order.number_of kept)) publics.items) }
{
    let givens = publics
        .into_iter()
        .map(|p| given_of(kept, p))
        .collect(alloc)?;
    Ok(givens)
}

fn sort_by_name(givens: &mut Vec<Given>) -> Result<(), NoMemory>
    ensures same { IsPermutation givens.old.items givens.new.items }
    ensures sorted { OnOk result (IsSortedBy spec.is_before givens.new.items) }
{
    givens.sort_by(|a, b| a.name.as_slice().cmp(b.name.as_slice()))?;
    Ok(())
}

// The public names by rising name.
pub(crate) fn publics_of(
    alloc: Global,
    kept: Kept,
    publics: Vec<Public>,
) -> Result<Vec<Given>, NoMemory>
    requires { IsDistinct spec.is_same_name publics.items }
    ensures same { IfOk result (λ v. IsPermutation (map (spec.given_of (order.number_of kept)) publics.items) v.items) }
    ensures sorted { IfOk result (λ v. publics_in_order v.items ≡ true) }
{
    let mut givens = givens_of(alloc, kept, publics)?;
    sort_by_name(&mut givens)?;
    Ok(givens)
}
