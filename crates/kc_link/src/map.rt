ghost use Rattle.std.specs.Prelude.{◌≡◌, ◌≤◌, ◌<◌, ◌++◌, IfOk, OnOk, length, true};
ghost use Rattle.kc_link_place.specs.Ranges.{are_in_bounds};
ghost use Rattle.kc_link_place.specs.Placing.{stack_size as size_of};
ghost use Rattle.kc_link.specs.Map as spec;
ghost use Rattle.kc_link.specs.Map.{IsMap};

use crate::free::{StackAt, put_free};
use crate::modules::{put_all_pieces, put_all_publics};
use crate::taken::taken_by;
use kc_base::{NoMemory, put_address, put_number};
use kc_link_place::{LinkFault, Placed, Ranges, locate, stack_size};
use kc_obj_module::Module;
use std::alloc::Global;

fn stack_of(placed: &Placed, size: u32) -> StackAt
    ensures { (result.first ≡ spec.stack_first placed.now size) × (result.size ≡ size) }
{
    StackAt {
        first: placed.after_stack().wrapping_sub((size % 65_536) as u16),
        size,
    }
}

fn put_stack(text: &mut Vec<u8>, stack: StackAt) -> Result<(), NoMemory>
    ensures { OnOk result (text.new.items ≡ text.old.items ++ spec.stack_line stack.first stack.size) }
{
    text.extend_from_slice(b"stack ")?;
    put_address(text, stack.first)?;
    text.push(b' ')?;
    put_number(text, u128::from(stack.size))?;
    text.push(b'\n')?;
    Ok(())
}

// Puts what is free in each range.
fn put_ranges(
    alloc: Global,
    text: &mut Vec<u8>,
    placed: &Placed,
    modules: &[Module],
    ranges: &Ranges,
    stack: StackAt,
) -> Result<(), NoMemory>
    requires ranges { are_in_bounds ranges.now ≡ true }
    requires stack { stack.size < 16777216 }
    ensures { OnOk result (text.new.items ≡ text.old.items ++ spec.ranges_text modules.now ranges.now placed.now stack.first stack.size) }
{
    let taken = taken_by(alloc, placed, modules)?;
    put_free(text, b"reg", ranges.reg, &taken, stack)?;
    put_free(text, b"code", ranges.code, &taken, stack)?;
    put_free(text, b"data", ranges.ram, &taken, stack)?;
    Ok(())
}

/// The map of at most 64 modules that stand at some places within ranges: what `link_map` reports of modules that it places.
pub fn map_at(
    alloc: Global,
    modules: &[Module],
    placed: &Placed,
    ranges: &Ranges,
) -> Result<Vec<u8>, NoMemory>
    requires few { length modules.now ≤ 64 }
    requires ranges { are_in_bounds ranges.now ≡ true }
    ensures { IfOk result (λ text. text.items ≡ spec.map_text modules.now ranges.now placed.now) }
{
    let mut text = Vec::new(alloc);
    let stack = stack_of(placed, stack_size(ranges, modules));
    put_all_pieces(&mut text, placed, modules)?;
    put_all_publics(&mut text, placed, modules)?;
    put_stack(&mut text, stack)?;
    put_ranges(alloc, &mut text, placed, modules, ranges, stack)?;
    Ok(text)
}

/// The map of 1 to 64 modules that are linked within ranges: a line for each piece, with its kind, its address in hex, its
/// length in bytes and its module; for each public name, with its address or its number in hex and its module; for the
/// stack; and for each run of addresses of a range that nothing has, with its length. It is refused as placing is.
pub fn link_map(alloc: Global, modules: &[Module], ranges: &Ranges) -> Result<Vec<u8>, LinkFault>
    requires some { 0 < length modules.now }
    requires few { length modules.now ≤ 64 }
    requires ranges { are_in_bounds ranges.now ≡ true }
    ensures { IsMap modules.now ranges.now result }
{
    let placed = locate(alloc, modules, ranges)?;
    Ok(map_at(alloc, modules, &placed, ranges)?)
}
