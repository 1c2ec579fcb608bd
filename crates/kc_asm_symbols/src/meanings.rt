ghost use Rattle.std.specs.Prelude.{◌≡◌, ◌≤◌, ℕ, List, [], ◌∷◌, length, reverse, IfOk, OnOk};
ghost use Rattle.kc_expr.specs.Tree.{tree_of};
ghost use Rattle.kc_expr.specs.Meaning.{answer_by};
ghost use Rattle.kc_source_statement.specs.Trees.{action_tree};
ghost use Rattle.kc_expr.specs.declared.values.Value.{Value};
ghost use Rattle.kc_asm_symbols.specs.declared.segments.Segment.{Segment};
ghost use Rattle.kc_asm_symbols.specs.Located.{Located, located_by, located_at, place_values, listed};
ghost use Rattle.kc_asm_symbols.specs.Meanings as spec;
ghost use Rattle.kc_asm_symbols.specs.Walk.{at_statement, AreNamesOf, IsEarlier, IsBehind, IsAt};

use crate::earlier::{Earlier, is_here};
use crate::names::Names;
use crate::numbers::Found;
use crate::table::Table;
use kc_base::NoMemory;
use kc_expr::{Expr, NoValue, Scope, Value, value_over};
use kc_source_statement::{Action, Stmt};
use std::alloc::Global;

fn is_definition(action: &Action) -> bool
    ensures { result ≡ spec.is_definition (action_tree action.now) }
{
    match action {
        Action::Equ(_, _) | Action::Set(_, _) => true,
        _ => false,
    }
}

// What names mean by all statements.
fn through(
    earlier: Earlier,
    alloc: Global,
    stmts: &[Stmt],
    values: &[Value],
) -> Result<Earlier, NoMemory>
    requires values { length values.now ≡ length stmts.now }
    requires earlier { IsEarlier earlier (located_by (listed values.now) stmts.now) [] }
    ensures earlier { IfOk result (λ e. IsEarlier e (located_by (listed values.now) stmts.now) (reverse (located_by (listed values.now) stmts.now))) }
    ensures names { IfOk result (λ e. e.names ≡ earlier.names) }
{
    let mut earlier = earlier;
    for i in 0..stmts.len() {
        let stmt = &stmts[i];
        earlier.enter(values[i]);
        earlier.leave(alloc, &stmt.action)?;
    }
    Ok(earlier)
}

/// What names mean at each statement of a module, in a walk over the statements, which enters each and leaves it. In the
/// statement where it is, a name answers its value, or why it has none: it is not defined where it means nothing there, and
/// the fault is reported elsewhere where its own definition has one. EQU and SET use names of earlier lines and any labels, other
/// statements all names of the module, and of a name that SET defines the latest value before them. (MCS-96 Macro Assembler
/// User's Guide, "EQU and SET".)
#[derive(Drop)]
pub struct Meanings {
    earlier: Earlier,
    last: Table,
    defines: bool,
}

impl Scope for Meanings {
    ghost answers = { at_statement };

    fn look(&self, name: &[u8]) -> Result<Value, NoValue> {
        if is_here(name) {
            return Ok(self.earlier.here);
        }
        let Found { number, is_set } = self.earlier.names.numbers().find(name);
        if self.defines || is_set {
            self.earlier.latest.look(number, name)
        } else {
            self.last.look(number, name)
        }
    }
}

impl Meanings {
    /// Before the first of the statements, whose names are `names`, where the places of all have these values, as
    /// `place_values` gives them.
    pub fn new(
        alloc: Global,
        names: &Names,
        stmts: &[Stmt],
        values: &[Value],
    ) -> Result<Meanings, NoMemory>
        requires names { AreNamesOf names.now stmts.now }
        requires values { length values.now ≡ length stmts.now }
        ensures { IfOk result (λ m. (at : ℕ → Segment → Value) → place_values (located_by at stmts.now) ≡ values.now → IsBehind m (located_by at stmts.now) []) }
    {
        let first = Earlier::new(alloc, names, stmts, values)?;
        let through = through(first, alloc, stmts, values)?;
        let earlier = Earlier::new(alloc, names, stmts, values)?;
        Ok(Meanings {
            earlier,
            last: through.latest,
            defines: false,
        })
    }

    /// Enters the next statement, with the value of its place.
    pub fn enter(&mut self, stmt: &Stmt, value: Value)
        ensures { (all before : List Located) (g : Segment) → IsBehind self.old all before → IsAt self.new all before (located_at g value stmt.now) }
    {
        self.earlier.enter(value);
        self.defines = is_definition(&stmt.action);
    }

    /// Leaves the statement that it is at. After an error it is of no further use.
    pub fn leave(&mut self, alloc: Global, stmt: &Stmt) -> Result<(), NoMemory>
        ensures { OnOk result ((all before : List Located) (l : Located) → IsAt self.old all before l → l.action ≡ action_tree stmt.now.action → IsBehind self.new all (l ∷ before)) }
    {
        self.earlier.leave(alloc, &stmt.action)?;
        Ok(())
    }

    /// The value of an expression of the statement, or the one of its faults that has the least code.
    pub fn value(&self, expr: &Expr) -> Result<Value, NoValue>
        ensures { (all before : List Located) (l : Located) → IsAt self.now all before l → result ≡ answer_by (spec.meaning all before l) (tree_of expr.now) }
    {
        value_over(expr, self)
    }

    /// What a name means by all statements, as a public name does: its value, or that it is not defined, or that its
    /// definition has a fault, which is reported there.
    pub fn last(&self, name: &[u8]) -> Result<Value, NoValue>
        ensures { (all before : List Located) → IsBehind self.now all before → result ≡ spec.in_all all name.now }
    {
        self.last
            .look(self.earlier.names.numbers().number(name), name)
    }
}
