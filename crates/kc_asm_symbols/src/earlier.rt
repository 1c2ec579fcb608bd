ghost use Rattle.std.specs.Prelude.{◌≡◌, ◌≤◌, [], length, IfOk, OnOk};
ghost use Rattle.std.specs.Str.{bytes_eq};
ghost use Rattle.kc_expr.specs.Meaning.{here};
ghost use Rattle.kc_expr.specs.Tree.{tree_of};
ghost use Rattle.kc_source_statement.specs.Trees.{action_tree};
ghost use Rattle.kc_asm_symbols.specs.Located.{located_by, listed};
ghost use Rattle.kc_asm_symbols.specs.declared.numbers.Numbers.{Numbers as NumbersOf};
ghost use Rattle.kc_asm_symbols.specs.Tables.{answers, label_number};
ghost use Rattle.kc_asm_symbols.specs.Meanings.{or_reported, behind, label_answer, with_label, with_taken, with_defined};
ghost use Rattle.kc_asm_symbols.specs.Walk.{at_definition, shared, AreNamesOf, IsEarlier};

use crate::names::Names;
use crate::segments::Segment;
use crate::table::Table;
use kc_base::{NoMemory, Text};
use kc_expr::{Expr, NoValue, Scope, Value, value_over};
use kc_source_statement::{Action, Stmt};
use std::alloc::Global;

pub(crate) fn is_here(name: &[u8]) -> bool
    ensures { result ≡ bytes_eq name.now here }
{
    match name {
        [sign] => *sign == b'$',
        _ => false,
    }
}

/// The names of a module, what they mean by the statements before one, and its place.
#[derive(Drop)]
pub(crate) struct Earlier {
    pub names: Names,
    pub latest: Table,
    pub here: Value,
}

impl Scope for Earlier {
    ghost answers = { at_definition };

    fn look(&self, name: &[u8]) -> Result<Value, NoValue> {
        if is_here(name) {
            Ok(self.here)
        } else {
            self.latest.look(self.names.numbers().number(name), name)
        }
    }
}

// The first label of a name counts.
fn set_label(
    table: &mut Table,
    alloc: Global,
    number: Option<usize>,
    label: &Option<Text>,
    value: Value,
) -> Result<(), NoMemory>
    ensures { OnOk result ((numbers : NumbersOf) → number ≡ label_number numbers label.now → answers numbers table.new ≡ with_label label.now value (answers numbers table.old)) }
{
    match label {
        None => Ok(()),
        Some(name) => match table.look(number, name.as_slice()) {
            Ok(_) => Ok(()),
            Err(_) => {
                table.set(alloc, number, name.as_slice(), Ok(value))?;
                Ok(())
            }
        },
    }
}

fn label_table(
    alloc: Global,
    names: &Names,
    stmts: &[Stmt],
    values: &[Value],
) -> Result<Table, NoMemory>
    requires names { AreNamesOf names.now stmts.now }
    requires values { length values.now ≡ length stmts.now }
    ensures { IfOk result (λ t. answers (shared names.now).numbers t ≡ label_answer (located_by (listed values.now) stmts.now)) }
{
    let mut table = Table::new(alloc, names.numbers().count())?;
    for i in 0..stmts.len() {
        let stmt = &stmts[i];
        set_label(&mut table, alloc, names.label(i), &stmt.label, values[i])?;
    }
    Ok(table)
}

fn reported(answer: Result<Value, NoValue>) -> Result<Value, NoValue>
    ensures { result ≡ or_reported answer }
{
    match answer {
        Ok(value) => Ok(value),
        Err(_) => Err(NoValue::ReportedElsewhere),
    }
}

impl Earlier {
    /// Before the first statement.
    pub(crate) fn new(
        alloc: Global,
        names: &Names,
        stmts: &[Stmt],
        values: &[Value],
    ) -> Result<Earlier, NoMemory>
        requires names { AreNamesOf names.now stmts.now }
        requires values { length values.now ≡ length stmts.now }
        ensures earlier { IfOk result (λ e. IsEarlier e (located_by (listed values.now) stmts.now) []) }
        ensures names { IfOk result (λ e. shared e.names ≡ shared names.now) }
    {
        let mut latest = label_table(alloc, names, stmts, values)?;
        let number = names.numbers().number(b"STACK");
        latest.set(
            alloc,
            number,
            b"STACK",
            names.taken().look(number, b"STACK"),
        )?;
        Ok(Earlier {
            names: names.copy()?,
            latest,
            here: Segment::first().value_at(0),
        })
    }

    /// At a statement, with the value of its place.
    pub(crate) fn enter(&mut self, value: Value)
        ensures here { self.new.here ≡ value }
        ensures names { self.new.names ≡ self.old.names }
        ensures latest { self.new.latest ≡ self.old.latest }
    {
        self.here = value;
    }

    fn take(&mut self, alloc: Global, names: &[Text]) -> Result<(), NoMemory>
        ensures latest { OnOk result (answers (shared self.new.names).numbers self.new.latest ≡ with_taken (answers (shared self.old.names).numbers (shared self.old.names).taken) names.now (answers (shared self.old.names).numbers self.old.latest)) }
        ensures names { OnOk result (self.new.names ≡ self.old.names) }
        ensures here { OnOk result (self.new.here ≡ self.old.here) }
    {
        for name in names {
            let number = self.names.numbers().number(name.as_slice());
            let answer = self.names.taken().look(number, name.as_slice());
            self.latest.set(alloc, number, name.as_slice(), answer)?;
        }
        Ok(())
    }

    fn define(&mut self, alloc: Global, name: &Text, value: &Expr) -> Result<(), NoMemory>
        ensures latest { OnOk result (answers (shared self.new.names).numbers self.new.latest ≡ with_defined name.now (tree_of value.now) self.old.here (answers (shared self.old.names).numbers self.old.latest)) }
        ensures names { OnOk result (self.new.names ≡ self.old.names) }
        ensures here { OnOk result (self.new.here ≡ self.old.here) }
    {
        let answer = reported(value_over(value, self));
        let number = self.names.numbers().number(name.as_slice());
        self.latest.set(alloc, number, name.as_slice(), answer)?;
        Ok(())
    }

    /// Behind the statement that it is at.
    pub(crate) fn leave(&mut self, alloc: Global, action: &Action) -> Result<(), NoMemory>
        ensures latest { OnOk result (answers (shared self.new.names).numbers self.new.latest ≡ behind (answers (shared self.old.names).numbers (shared self.old.names).taken) (action_tree action.now) self.old.here (answers (shared self.old.names).numbers self.old.latest)) }
        ensures names { OnOk result (self.new.names ≡ self.old.names) }
        ensures here { OnOk result (self.new.here ≡ self.old.here) }
    {
        match action {
            Action::Equ(name, value) | Action::Set(name, value) => self.define(alloc, name, value),
            Action::Extrn(names) => self.take(alloc, names.as_slice()),
            _ => Ok(()),
        }
    }
}
