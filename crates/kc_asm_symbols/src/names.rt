ghost use Rattle.std.specs.Prelude.{◌≡◌, ◌≤◌, ◌<◌, ℕ, length, get_or, map, None, IfOk, OnOk};
ghost use Rattle.kc_source_statement.specs.Trees.{action_tree};
ghost use Rattle.kc_expr.specs.declared.values.Value.{Value as ValueOf};
ghost use Rattle.kc_asm_symbols.specs.declared.segments.Segment.{Segment};
ghost use Rattle.kc_asm_symbols.specs.Externals.{externals, external_in, tag_of_taken};
ghost use Rattle.kc_asm_symbols.specs.Located.{located_by};
ghost use Rattle.kc_asm_symbols.specs.Meanings.{is_set, with_set};
ghost use Rattle.kc_asm_symbols.specs.Tables.{answers, is_defined_by_set, label_number};
ghost use Rattle.kc_asm_symbols.specs.Walk.{shared, AreNamesOf};

use crate::numbers::Numbers;
use crate::table::Table;
use kc_base::{NoMemory, Text};
use kc_expr::{Base, Tag, Value};
use kc_obj_module::Taken;
use kc_source_statement::{Action, Stmt};
use std::alloc::Global;
use std::rc::Rc;

/// The names that statements define and take, the number of the label of each statement, and the externals.
#[derive(Drop)]
pub(crate) struct Listed {
    pub numbers: Numbers,
    pub labels: Vec<Option<usize>>,
    pub taken: Table,
}

/// What of the names of a module is the same wherever its statements stand: which there are, each with a number, which of
/// them SET defines, and the externals. It is made once for a module; copies share it.
#[derive(Drop)]
pub struct Names {
    listed: Rc<Listed>,
}

fn add_defined(numbers: &mut Numbers, alloc: Global, action: &Action) -> Result<(), NoMemory>
    ensures { OnOk result (is_defined_by_set numbers.new ≡ with_set (action_tree action.now) (is_defined_by_set numbers.old)) }
{
    match action {
        Action::Set(name, _) => numbers.add_set(alloc, name.as_slice()),
        Action::Equ(name, _) => numbers.add(alloc, name.as_slice()),
        Action::Extrn(names) => numbers.add_all(alloc, names.as_slice()),
        _ => Ok(()),
    }
}

fn add_label(numbers: &mut Numbers, alloc: Global, label: &Option<Text>) -> Result<(), NoMemory>
    ensures { OnOk result (is_defined_by_set numbers.new ≡ is_defined_by_set numbers.old) }
{
    match label {
        None => Ok(()),
        Some(name) => numbers.add(alloc, name.as_slice()),
    }
}

// The names that statements define and take.
fn numbers_of(alloc: Global, stmts: &[Stmt]) -> Result<Numbers, NoMemory>
    ensures { IfOk result (λ n. (values : ℕ → Segment → ValueOf) → is_defined_by_set n ≡ is_set (located_by values stmts.now)) }
{
    let mut numbers = Numbers::new(alloc);
    numbers.add(alloc, b"STACK")?;
    for stmt in stmts {
        add_label(&mut numbers, alloc, &stmt.label)?;
        add_defined(&mut numbers, alloc, &stmt.action)?;
    }
    Ok(numbers)
}

fn number_of_label(numbers: &Numbers, label: &Option<Text>) -> Option<usize>
    ensures { result ≡ label_number numbers.now label.now }
{
    match label {
        None => None,
        Some(name) => numbers.number(name.as_slice()),
    }
}

// The number of the label of each statement.
fn label_numbers(
    alloc: Global,
    numbers: &Numbers,
    stmts: &[Stmt],
) -> Result<Vec<Option<usize>>, NoMemory>
    ensures { IfOk result (λ v. v.items ≡ map (λ s. label_number numbers.now s.label) stmts.now) }
{
    let mut labels = Vec::new(alloc);
    for stmt in stmts {
        labels.push(number_of_label(numbers, &stmt.label))?;
    }
    Ok(labels)
}

fn tag_of(taken: &Taken) -> Tag
    ensures { result ≡ tag_of_taken taken.now }
{
    if taken.register {
        Tag::Register
    } else {
        Tag::Memory
    }
}

// The externals, each with its number. The first of a name counts.
fn external_table(alloc: Global, numbers: &Numbers, taken: &[Taken]) -> Result<Table, NoMemory>
    requires { length taken.now ≤ 65536 }
    ensures { IfOk result (λ t. answers numbers.now t ≡ external_in 0 taken.now) }
{
    let mut table = Table::new(alloc, numbers.count())?;
    let mut left = taken.len();
    while left > 0 {
        left -= 1;
        let one = &taken[left];
        let value = Value {
            base: Base::External(left as u16),
            tag: tag_of(one),
            number: 0,
        };
        let name = one.name.as_slice();
        table.set(alloc, numbers.number(name), name, Ok(value))?;
    }
    Ok(table)
}

impl Names {
    /// Those of statements, where `taken` are the externals.
    pub fn new(alloc: Global, stmts: &[Stmt], taken: &[Taken]) -> Result<Names, NoMemory>
        requires taken { (values : ℕ → Segment → ValueOf) → taken.now ≡ externals (located_by values stmts.now) }
        requires few { length taken.now ≤ 65536 }
        ensures { IfOk result (λ n. AreNamesOf n stmts.now) }
    {
        let numbers = numbers_of(alloc, stmts)?;
        let labels = label_numbers(alloc, &numbers, stmts)?;
        let taken = external_table(alloc, &numbers, taken)?;
        let listed = Rc::new(
            alloc,
            Listed {
                numbers,
                labels,
                taken,
            },
        )?;
        Ok(Names { listed })
    }

    /// These names once more, which share their list.
    pub(crate) fn copy(&self) -> Result<Names, NoMemory>
        ensures { IfOk result (λ n. shared n ≡ shared self.now) }
    {
        let listed = self.listed.clone()?;
        Ok(Names { listed })
    }

    pub(crate) fn numbers(&self) -> &Numbers
        ensures { result.now ≡ (shared self.now).numbers }
    {
        &self.listed.numbers
    }

    pub(crate) fn taken(&self) -> &Table
        ensures { result.now ≡ (shared self.now).taken }
    {
        &self.listed.taken
    }

    /// The number of the label of the statement with this number from 0.
    pub(crate) fn label(&self, statement: usize) -> Option<usize>
        requires { statement < length (shared self.now).labels.items }
        ensures { result ≡ get_or (shared self.now).labels.items statement None }
    {
        self.listed.labels[statement]
    }
}
