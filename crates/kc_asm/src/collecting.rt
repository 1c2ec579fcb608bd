//! The walk over the statements that writes an unlinked module.

ghost use Rattle.std.specs.Prelude.{◌≡◌, ◌≤◌, ◌<◌, ◌+◌, ◌^◌, [], None, map, length, IfOk, OnOk};
ghost use Rattle.kc_source_statement.specs.Trees.{action_tree};
ghost use Rattle.kc_asm_symbols.specs.Located.{located, first_segment, segment_after};
ghost use Rattle.kc_asm_symbols.specs.Externals.{externals};
ghost use Rattle.kc_asm_check.specs.Checked.{seen_put, IsChecked};
ghost use Rattle.kc_asm_check.specs.Checking.{first_fault, place_at, location_list, standing};
ghost use Rattle.kc_asm_check.specs.Putting.{puts_from};
ghost use Rattle.kc_asm_check.specs.Walk.{stood};
ghost use Rattle.kc_asm_unlinked_laws.specs.Collecting as spec;
ghost use Rattle.kc_asm_unlinked_laws.specs.Writable.{AllWritable, IsWritable};

use crate::naming::name_of;
use crate::pieces::{first_parts, pass};
use crate::publics::publics_of;
use kc_asm_check::{Checked, Put};
use kc_asm_layout::{Location, sizes_have_lengths};
use kc_asm_section::{Part, UnlinkedModule};
use kc_asm_symbols::Segment;
use kc_asm_unlinked_laws::parts_are_writable;
use kc_base::{NoMemory, Text};
use kc_obj_module::Taken;
use kc_source_statement::Stmt;
use std::alloc::Global;

/// The segment at a statement, and the pieces before it.
#[derive(Drop)]
pub(crate) struct Collecting {
    pub segment: Segment,
    pub parts: Vec<Part>,
}

impl Collecting {
    // Writes what the next statement puts.
    fn write(
        &mut self,
        alloc: Global,
        stmt: &Stmt,
        location: &Location,
        what: &Put,
    ) -> Result<(), NoMemory>
        requires writable { IsWritable (seen_put what.now) (stood self.old.segment stmt.now location.now) location.now self.old.parts.items }
        requires pieces { self.old.segment.count + 1 < 2 ^ 64 }
        ensures parts { OnOk result (self.new.parts.items ≡ spec.parts_with (seen_put what.now) (stood self.old.segment stmt.now location.now) location.now self.old.parts.items) }
        ensures segment { OnOk result (self.new.segment ≡ segment_after self.old.segment (action_tree stmt.now.action)) }
    {
        pass(alloc, &mut self.parts, self.segment, stmt, location, what)?;
        self.segment = self.segment.after(&stmt.action);
        Ok(())
    }

    // Writes what all statements put, from before the first of them, where each has its location. What is written is freed.
    fn write_all(
        &mut self,
        alloc: Global,
        stmts: &[Stmt],
        locations: &[Location],
        puts: Vec<Put>,
    ) -> Result<(), NoMemory>
        requires count { length stmts.now ≤ 65536 }
        requires each { length stmts.now ≤ length locations.now }
        requires each_put { length puts.items ≡ length stmts.now }
        requires segment { self.old.segment ≡ first_segment }
        requires puts { map seen_put puts.items ≡ puts_from (located (place_at locations.now) stmts.now) [] (located (place_at locations.now) stmts.now) locations.now }
        requires writable { AllWritable (located (place_at locations.now) stmts.now) [] (located (place_at locations.now) stmts.now) locations.now self.old.parts.items }
        ensures { OnOk result (self.new.parts.items ≡ spec.parts_from (located (place_at locations.now) stmts.now) [] (located (place_at locations.now) stmts.now) locations.now self.old.parts.items) }
    {
        let mut i = 0;
        for what in puts {
            self.write(alloc, &stmts[i], &locations[i], &what)?;
            i += 1;
        }
        Ok(())
    }
}

// The unlinked module, where all that is written has room.
fn collected(
    alloc: Global,
    stmts: &[Stmt],
    locations: &[Location],
    taken: Vec<Taken>,
    checked: Checked,
) -> Result<UnlinkedModule, NoMemory>
    requires count { length stmts.now ≤ 65536 }
    requires locations { locations.now ≡ location_list stmts.now }
    requires taken { taken.items ≡ externals (standing stmts.now) }
    requires checked { IsChecked stmts.now checked }
    requires writable { AllWritable (standing stmts.now) [] (standing stmts.now) (location_list stmts.now) spec.first_parts }
    ensures { IfOk result (λ d. spec.IsUnlinkedModuleOf stmts.now d) }
{
    sizes_have_lengths();
    let Checked {
        puts,
        stack,
        meanings,
    } = checked;
    let name = Text::of(alloc, name_of(stmts))?;
    let publics = publics_of(alloc, stmts, &meanings)?;
    let mut collecting = Collecting {
        segment: Segment::first(),
        parts: first_parts(alloc)?,
    };
    collecting.write_all(alloc, stmts, locations, puts)?;
    let Collecting { parts, .. } = collecting;
    Ok(UnlinkedModule {
        name,
        parts,
        stack,
        externals: taken,
        publics,
    })
}

/// The unlinked module of a module whose statements have no fault, at most 65,536 of them: the bytes that they write, its name, its
/// stack in bytes, and its external and public names.
///
/// `locations` reports where each statement stands, as the layout of their table of sizes does, `taken` the externals in order, which
/// become those of the unlinked module, and `checked` what their check hands on: it is freed as it is written. In code FFH stands where
/// a statement leads on to an even place; elsewhere nothing stands there. A name that PUBLIC gives more than once stands
/// once. (MCS-96 Macro Assembler User's Guide, "Assembler Directives".)
///
/// `NoMemory`: memory ran out. That is the only error.
pub fn unlinked(
    alloc: Global,
    stmts: &[Stmt],
    locations: &[Location],
    taken: Vec<Taken>,
    checked: Checked,
) -> Result<UnlinkedModule, NoMemory>
    requires count { length stmts.now ≤ 65536 }
    requires locations { locations.now ≡ location_list stmts.now }
    requires taken { taken.items ≡ externals (standing stmts.now) }
    requires sound { first_fault stmts.now ≡ None }
    requires checked { IsChecked stmts.now checked }
    ensures { IfOk result (λ d. spec.IsUnlinkedModuleOf stmts.now d) }
{
    parts_are_writable();
    collected(alloc, stmts, locations, taken, checked)
}
