//! The public names of a module, with their values.

ghost use Rattle.std.specs.Prelude.{◌≡◌, ◌++◌, ◌∷◌, [], ℕ, List, IfOk, OnOk};
ghost use Rattle.kc_expr.specs.declared.values.Value.{Value};
ghost use Rattle.kc_source_statement.specs.Formed.{given_names};
ghost use Rattle.kc_source_statement.specs.Trees.{action_tree};
ghost use Rattle.kc_asm_symbols.specs.declared.segments.Segment.{Segment};
ghost use Rattle.kc_asm_symbols.specs.Located.{Located, located_by};
ghost use Rattle.kc_asm_symbols.specs.Meanings.{in_all};
ghost use Rattle.kc_asm_symbols.specs.Tables.{is_marked};
ghost use Rattle.kc_asm_symbols.specs.Walk.{IsBehind};
ghost use Rattle.kc_asm_unlinked_laws.specs.Collecting as spec;
ghost use Rattle.kc_asm.specs.Giving.{given_from};

use kc_asm_section::Public;
use kc_asm_symbols::{Marks, Meanings};
use kc_base::{NoMemory, Text};
use kc_source_statement::{Action, Stmt};
use std::alloc::Global;

// The public names so far, and their marks.
#[derive(Drop)]
struct Publics {
    seen: Marks,
    items: Vec<Public>,
}

impl Publics {
    // A name with its value by all statements, if it has one.
    fn push(&mut self, alloc: Global, name: &[u8], meanings: &Meanings) -> Result<(), NoMemory>
        ensures items { OnOk result ((all before : List Located) → IsBehind meanings.now all before → self.new.items.items ≡ self.old.items.items ++ spec.given_as name.now (in_all all name.now)) }
        ensures seen { OnOk result (self.new.seen ≡ self.old.seen) }
    {
        if let Ok(value) = meanings.last(name) {
            let name = Text::of(alloc, name)?;
            self.items.push(Public { name, value })?;
        }
        Ok(())
    }

    // A name, where it is given first.
    fn give(&mut self, alloc: Global, name: &[u8], meanings: &Meanings) -> Result<(), NoMemory>
        ensures { OnOk result ((all before : List Located) (rest : List (List ℕ)) → IsBehind meanings.now all before → self.new.items.items ++ given_from (in_all all) (is_marked self.new.seen) rest ≡ self.old.items.items ++ given_from (in_all all) (is_marked self.old.seen) (name.now ∷ rest)) }
    {
        if self.seen.has(name) {
            return Ok(());
        }
        self.push(alloc, name, meanings)?;
        self.seen.mark(alloc, name)?;
        Ok(())
    }

    // The names of one statement.
    fn give_all(
        &mut self,
        alloc: Global,
        names: &[Text],
        meanings: &Meanings,
    ) -> Result<(), NoMemory>
        ensures { OnOk result ((all before : List Located) (rest : List (List ℕ)) → IsBehind meanings.now all before → self.new.items.items ++ given_from (in_all all) (is_marked self.new.seen) rest ≡ self.old.items.items ++ given_from (in_all all) (is_marked self.old.seen) (names.now ++ rest)) }
    {
        for name in names {
            self.give(alloc, name.as_slice(), meanings)?;
        }
        Ok(())
    }

    // The names that a statement gives.
    fn give_in(
        &mut self,
        alloc: Global,
        action: &Action,
        meanings: &Meanings,
    ) -> Result<(), NoMemory>
        ensures { OnOk result ((all before : List Located) (rest : List (List ℕ)) → IsBehind meanings.now all before → self.new.items.items ++ given_from (in_all all) (is_marked self.new.seen) rest ≡ self.old.items.items ++ given_from (in_all all) (is_marked self.old.seen) (given_names (action_tree action.now) ++ rest)) }
    {
        match action {
            Action::Public(names) => self.give_all(alloc, names.as_slice(), meanings),
            _ => Ok(()),
        }
    }
}

/// The names that PUBLIC gives, each where it is given first, with their values by all statements.
pub(crate) fn publics_of(
    alloc: Global,
    stmts: &[Stmt],
    meanings: &Meanings,
) -> Result<Vec<Public>, NoMemory>
    ensures { IfOk result (λ publics. (all before : List Located) → IsBehind meanings.now all before → (values : ℕ → Segment → Value) → publics.items ≡ spec.publics_of (in_all all) (spec.distinct_from [] (spec.all_given (located_by values stmts.now)))) }
{
    let mut publics = Publics {
        seen: Marks::new(alloc),
        items: Vec::new(alloc),
    };
    for stmt in stmts {
        publics.give_in(alloc, &stmt.action, meanings)?;
    }
    let Publics { items, .. } = publics;
    Ok(items)
}
