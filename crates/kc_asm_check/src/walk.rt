//! A walk over the statements, which checks each where it stands.

ghost use Rattle.std.specs.Prelude.{◌≡◌, ◌+◌, ◌<◌, ◌≤◌, ◌^◌, List, [], ◌∷◌, ◌++◌, reverse, map, length, IfOk, OnOk};
ghost use Rattle.kc_lex.specs.LineFaults as faults;
ghost use Rattle.kc_source_statement.specs.Trees.{action_tree};
ghost use Rattle.kc_asm_symbols.specs.Located.{Located, located, first_segment, segment_after};
ghost use Rattle.kc_asm_symbols.specs.Meanings.{meaning, in_all};
ghost use Rattle.kc_asm_symbols.specs.Walk.{at_statement, IsBehind, IsAt};
ghost use Rattle.kc_asm_emit.specs.Faults.{least};
ghost use Rattle.kc_asm_check.specs.Checked.{seen_put};
ghost use Rattle.kc_asm_check.specs.Codes.{regions_after as following_regions, stack_after as following_sum};
ghost use Rattle.kc_asm_check.specs.Putting.{put_of as put_there, puts_from, stack_from};
ghost use Rattle.kc_asm_check.specs.Walk.{stood};
ghost use Rattle.kc_asm_check.specs.Checking as spec;

use crate::branches::branch_fault;
use crate::checked::Put;
use crate::locations::value_at;
use crate::module::{public_fault, stack_after, stack_fault};
use crate::places::{place_fault, push_region};
use crate::putting::put_of;
use crate::relocatable_bytes::relocatable_fault;
use kc_asm_emit::fault;
use kc_asm_layout::Location;
use kc_asm_symbols::{Meanings, Segment};
use kc_base::NoMemory;
use kc_lex::LineFault;
use kc_lex::fault::lesser_number;
use kc_lex::line_fault::{at_line, lesser as lesser_fault};
use kc_source_statement::Stmt;
use std::alloc::Global;

/// What names mean and the segment at a statement, the regions of the pieces and the bytes of stack before it, and the
/// first fault and what statements put so far.
#[derive(Drop)]
pub(crate) struct Walk {
    pub meanings: Meanings,
    pub segment: Segment,
    pub regions: Vec<Option<u16>>,
    pub sum: u64,
    pub found: Option<LineFault>,
    pub puts: Vec<Put>,
}

impl Walk {
    // By what names mean at the statement.
    #[tactic(auto, using(kc_asm_emit::proofs::FaultLemmas::least_append))]
    fn own_code(
        &self,
        alloc: Global,
        stmt: &Stmt,
        location: &Location,
        put: &Put,
    ) -> Result<Option<u8>, NoMemory>
        requires sum { self.now.sum + 65536 < 2 ^ 64 }
        requires put { seen_put put.now ≡ put_there (at_statement self.now.meanings) (stood self.now.segment stmt.now location.now) location.now }
        ensures { IfOk result (λ c. c ≡ least (spec.own_codes (at_statement self.now.meanings) self.now.regions.items self.now.sum (stood self.now.segment stmt.now location.now) location.now)) }
    {
        let action = &stmt.action;
        let scope = &self.meanings;
        let values = fault(alloc, action, scope)?;
        let branch = branch_fault(location.body, action, scope);
        let relocatable_bytes = relocatable_fault(
            &put.content,
            action,
            self.segment,
            location,
            scope,
        );
        let regions = self.regions.as_slice();
        let places = place_fault(regions, &stmt.label, action, self.segment, location, scope);
        let stack = stack_fault(self.sum, action, scope);
        Ok(lesser_number(
            values,
            lesser_number(
                branch,
                lesser_number(relocatable_bytes, lesser_number(places, stack)),
            ),
        ))
    }

    // The least code of the statement that the walk is at.
    fn code(
        &self,
        alloc: Global,
        stmt: &Stmt,
        location: &Location,
        put: &Put,
    ) -> Result<Option<u8>, NoMemory>
        requires sum { self.now.sum + 65536 < 2 ^ 64 }
        requires put { seen_put put.now ≡ put_there (at_statement self.now.meanings) (stood self.now.segment stmt.now location.now) location.now }
        ensures { IfOk result (λ c. (all before : List Located) → IsAt self.now.meanings all before (stood self.now.segment stmt.now location.now) → c ≡ least (spec.codes_of (meaning all before (stood self.now.segment stmt.now location.now)) (in_all all) self.now.regions.items self.now.sum (stood self.now.segment stmt.now location.now) location.now)) }
    {
        let own = self.own_code(alloc, stmt, location, put)?;
        let public = public_fault(&stmt.action, &self.meanings);
        Ok(lesser_number(own, public))
    }

    /// Enters the next statement, checks it, and keeps what it puts.
    pub(crate) fn enter(
        &mut self,
        alloc: Global,
        stmt: &Stmt,
        location: &Location,
    ) -> Result<(), NoMemory>
        requires { self.old.sum + 65536 < 2 ^ 64 }
        ensures at { OnOk result ((all before : List Located) → IsBehind self.old.meanings all before → IsAt self.new.meanings all before (stood self.old.segment stmt.now location.now)) }
        ensures found { OnOk result ((all before : List Located) → IsBehind self.old.meanings all before → self.new.found ≡ faults.lesser self.old.found (faults.at_line stmt.now.line (least (spec.codes_of (meaning all before (stood self.old.segment stmt.now location.now)) (in_all all) self.old.regions.items self.old.sum (stood self.old.segment stmt.now location.now) location.now)))) }
        ensures puts { OnOk result (map seen_put self.new.puts.items ≡ map seen_put self.old.puts.items ++ put_there (at_statement self.new.meanings) (stood self.old.segment stmt.now location.now) location.now ∷ []) }
        ensures segment { OnOk result (self.new.segment ≡ self.old.segment) }
        ensures regions { OnOk result (self.new.regions.items ≡ self.old.regions.items) }
        ensures sum { OnOk result (self.new.sum ≡ self.old.sum) }
    {
        let here = value_at(self.segment, location.place);
        self.meanings.enter(stmt, here);
        let put = put_of(alloc, self.segment, stmt, location, &self.meanings)?;
        let code = self.code(alloc, stmt, location, &put)?;
        self.found = lesser_fault(self.found, at_line(stmt.line, code));
        self.puts.push(put)?;
        Ok(())
    }

    /// Leaves the statement that it is at.
    pub(crate) fn leave(&mut self, alloc: Global, stmt: &Stmt) -> Result<(), NoMemory>
        requires sum { self.old.sum + 65536 < 2 ^ 64 }
        requires count { self.old.segment.count + 1 < 2 ^ 64 }
        ensures behind { OnOk result ((all before : List Located) (l : Located) → IsAt self.old.meanings all before l → l.action ≡ action_tree stmt.now.action → IsBehind self.new.meanings all (l ∷ before)) }
        ensures regions { OnOk result (self.new.regions.items ≡ following_regions (at_statement self.old.meanings) self.old.regions.items (action_tree stmt.now.action)) }
        ensures sum { OnOk result (self.new.sum ≡ following_sum (at_statement self.old.meanings) self.old.sum (action_tree stmt.now.action)) }
        ensures segment { OnOk result (self.new.segment ≡ segment_after self.old.segment (action_tree stmt.now.action)) }
        ensures found { OnOk result (self.new.found ≡ self.old.found) }
        ensures puts { OnOk result (self.new.puts.items ≡ self.old.puts.items) }
        ensures few { OnOk result (self.new.sum ≤ self.old.sum + 65535) }
    {
        push_region(&mut self.regions, &stmt.action, &self.meanings)?;
        self.sum = stack_after(self.sum, &stmt.action, &self.meanings);
        self.segment = self.segment.after(&stmt.action);
        self.meanings.leave(alloc, stmt)
    }

    /// Checks all statements, from before the first of them, where each has its location.
    pub(crate) fn pass(
        &mut self,
        alloc: Global,
        stmts: &[Stmt],
        locations: &[Location],
    ) -> Result<(), NoMemory>
        requires count { length stmts.now ≤ 65536 }
        requires each { length stmts.now ≤ length locations.now }
        requires segment { self.old.segment ≡ first_segment }
        requires sum { self.old.sum ≡ 0 }
        requires puts { self.old.puts.items ≡ [] }
        requires behind { IsBehind self.old.meanings (located (spec.place_at locations.now) stmts.now) [] }
        ensures found { OnOk result (self.new.found ≡ faults.lesser self.old.found (faults.least (spec.faults_from (located (spec.place_at locations.now) stmts.now) self.old.regions.items 0 [] (located (spec.place_at locations.now) stmts.now) locations.now))) }
        ensures puts { OnOk result (map seen_put self.new.puts.items ≡ puts_from (located (spec.place_at locations.now) stmts.now) [] (located (spec.place_at locations.now) stmts.now) locations.now) }
        ensures sum { OnOk result (self.new.sum ≡ stack_from (located (spec.place_at locations.now) stmts.now) 0 [] (located (spec.place_at locations.now) stmts.now)) }
        ensures behind { OnOk result (IsBehind self.new.meanings (located (spec.place_at locations.now) stmts.now) (reverse (located (spec.place_at locations.now) stmts.now))) }
    {
        for i in 0..stmts.len() {
            let stmt = &stmts[i];
            self.enter(alloc, stmt, &locations[i])?;
            self.leave(alloc, stmt)?;
        }
        Ok(())
    }
}
