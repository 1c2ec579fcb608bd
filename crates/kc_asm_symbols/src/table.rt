ghost use Rattle.std.specs.Prelude.{◌≡◌, true, length, IfOk, OnOk};
ghost use Rattle.kc_asm_symbols.specs.declared.numbers.Numbers.{Numbers as NumbersOf};
ghost use Rattle.kc_asm_symbols.specs.Tables.{answer_at, answers, cell, is_marked, nothing, no_name, number_of, other_answers, updated};

use indexmap::IndexMap;
use kc_base::NoMemory;
use kc_expr::{NoValue, Value};
use kc_lex::SourceCode;
use std::alloc::Global;

/// Names with what they mean: a value, or why they have none. Those that have numbers stand by them, others by themselves.
/// A name that is not here means nothing.
#[derive(Drop)]
pub(crate) struct Table {
    numbered: Vec<Result<Value, NoValue>>,
    others: IndexMap<Vec<u8>, Result<Value, NoValue>>,
}

impl Table {
    /// No name means anything; so many have numbers.
    pub(crate) fn new(alloc: Global, count: usize) -> Result<Table, NoMemory>
        ensures nothing { IfOk result (λ t. (numbers : NumbersOf) → answers numbers t ≡ nothing) }
        ensures count { IfOk result (λ t. length t.numbered.items ≡ count) }
    {
        let numbered = vec![in alloc; Err(NoValue::Fault(SourceCode::NotDefined)); count]?;
        Ok(Table {
            numbered,
            others: IndexMap::new(alloc),
        })
    }

    fn cell(&self, number: Option<usize>) -> Option<Result<Value, NoValue>>
        ensures { result ≡ cell self.now number }
    {
        match number {
            None => None,
            Some(number) => self.numbered.get(number).copied(),
        }
    }

    /// What a name with this number means.
    pub(crate) fn look(&self, number: Option<usize>, name: &[u8]) -> Result<Value, NoValue>
        ensures { result ≡ answer_at self.now number name.now }
    {
        match self.cell(number) {
            Some(answer) => answer,
            None => match self.others.get(name) {
                None => Err(NoValue::Fault(SourceCode::NotDefined)),
                Some(answer) => *answer,
            },
        }
    }

    /// Sets what a name with this number means.
    pub(crate) fn set(
        &mut self,
        alloc: Global,
        number: Option<usize>,
        name: &[u8],
        answer: Result<Value, NoValue>,
    ) -> Result<(), NoMemory>
        ensures { OnOk result ((numbers : NumbersOf) → number ≡ number_of numbers name.now → answers numbers self.new ≡ updated name.now answer (answers numbers self.old)) }
    {
        match number {
            Some(number) => {
                if number < self.numbered.len() {
                    self.numbered[number] = answer;
                } else {
                    self.set_other(alloc, name, answer)?;
                }
            }
            None => self.set_other(alloc, name, answer)?,
        }
        Ok(())
    }

    fn set_other(
        &mut self,
        alloc: Global,
        name: &[u8],
        answer: Result<Value, NoValue>,
    ) -> Result<(), NoMemory>
        ensures others { OnOk result (other_answers self.new ≡ updated name.now answer (other_answers self.old)) }
        ensures numbered { OnOk result (self.new.numbered ≡ self.old.numbered) }
    {
        let key = Vec::from_slice(alloc, name)?;
        self.others.insert(key, answer)?;
        Ok(())
    }
}

/// Names that are marked.
#[derive(Drop)]
pub struct Marks {
    map: IndexMap<Vec<u8>, bool>,
}

impl Marks {
    /// No name is marked.
    pub fn new(alloc: Global) -> Marks
        ensures { is_marked result ≡ no_name }
    {
        Marks {
            map: IndexMap::new(alloc),
        }
    }

    /// Whether a name is marked.
    pub fn has(&self, name: &[u8]) -> bool
        ensures { result ≡ is_marked self.now name.now }
    {
        match self.map.get(name) {
            None => false,
            Some(marked) => *marked,
        }
    }

    /// Marks a name.
    pub fn mark(&mut self, alloc: Global, name: &[u8]) -> Result<(), NoMemory>
        ensures { OnOk result (is_marked self.new ≡ updated name.now true (is_marked self.old)) }
    {
        let key = Vec::from_slice(alloc, name)?;
        self.map.insert(key, true)?;
        Ok(())
    }
}
