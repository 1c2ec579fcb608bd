ghost use Rattle.std.specs.Prelude.{◌≡◌, true, length, OnOk};
ghost use Rattle.kc_asm_symbols.specs.Tables.{is_defined_by_set, no_name, number_of, updated};

use indexmap::IndexMap;
use kc_base::{NoMemory, Text};
use std::alloc::Global;

/// What is known of a name wherever it is used: its number, if it has one, and whether SET defines it.
#[derive(Clone, Copy)]
pub(crate) struct Found {
    pub number: Option<usize>,
    pub is_set: bool,
}

/// Names, numbered from 0 as they came, and of each whether SET defines it.
#[derive(Drop)]
pub(crate) struct Numbers {
    map: IndexMap<Vec<u8>, bool>,
}

impl Numbers {
    /// No names.
    pub(crate) fn new(alloc: Global) -> Numbers
        ensures { is_defined_by_set result ≡ no_name }
    {
        Numbers {
            map: IndexMap::new(alloc),
        }
    }

    /// How many there are.
    pub(crate) fn count(&self) -> usize
        ensures { result ≡ length self.now.map.entries }
    {
        self.map.len()
    }

    /// The number of a name.
    pub(crate) fn number(&self, name: &[u8]) -> Option<usize>
        ensures { result ≡ number_of self.now name.now }
    {
        self.map.get_index_of(name)
    }

    /// What is known of a name.
    pub(crate) fn find(&self, name: &[u8]) -> Found
        ensures number { result.number ≡ number_of self.now name.now }
        ensures is_set { result.is_set ≡ is_defined_by_set self.now name.now }
    {
        match self.map.get_full(name) {
            None => Found {
                number: None,
                is_set: false,
            },
            Some((number, _, is_set)) => Found {
                number: Some(number),
                is_set: *is_set,
            },
        }
    }

    /// Gives a name a number, if it has none.
    pub(crate) fn add(&mut self, alloc: Global, name: &[u8]) -> Result<(), NoMemory>
        ensures { OnOk result (is_defined_by_set self.new ≡ is_defined_by_set self.old) }
    {
        match self.map.get(name) {
            Some(_) => Ok(()),
            None => {
                let key = Vec::from_slice(alloc, name)?;
                self.map.insert(key, false)?;
                Ok(())
            }
        }
    }

    /// Gives names numbers, those that have none.
    pub(crate) fn add_all(&mut self, alloc: Global, names: &[Text]) -> Result<(), NoMemory>
        ensures { OnOk result (is_defined_by_set self.new ≡ is_defined_by_set self.old) }
    {
        for name in names {
            self.add(alloc, name.as_slice())?;
        }
        Ok(())
    }

    /// A name that SET defines.
    pub(crate) fn add_set(&mut self, alloc: Global, name: &[u8]) -> Result<(), NoMemory>
        ensures { OnOk result (is_defined_by_set self.new ≡ updated name.now true (is_defined_by_set self.old)) }
    {
        let key = Vec::from_slice(alloc, name)?;
        self.map.insert(key, true)?;
        Ok(())
    }
}
