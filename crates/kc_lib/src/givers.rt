// Which module gives a name.
ghost use Rattle.std.specs.Prelude.{◌≡◌, ◌∷◌, ◌++◌, ℕ, List, [], if◌then◌else◌, Some, None, OnOk, IfOk, length};
ghost use Rattle.std.specs.List.{list_any};
ghost use Rattle.std.specs.Option.{option_or, option_copied};
ghost use Rattle.std.specs.Str.{bytes_eq};
ghost use Rattle.kc_obj_module.specs.Object.{Object};
ghost use Rattle.kc_lib.specs.Names.{is_given, second_of};
ghost use Rattle.kc_lib.specs.Givers.{found_in, Knows};

use indexmap::IndexMap;
use kc_base::{NoMemory, Text};
use kc_obj_module::{Given, Module};
use std::alloc::Global;

/// The public names of modules, each with the number of the first module that gives it, counted from 0.
#[derive(Drop)]
pub(crate) struct Givers {
    numbers: IndexMap<Vec<u8>, usize>,
}

impl Givers {
    /// The names of no module.
    pub(crate) fn new(alloc: Global) -> Givers
        ensures { Knows result.numbers.entries [] }
    {
        Givers {
            numbers: IndexMap::new(alloc),
        }
    }

    /// The number of the module that gives a name.
    pub(crate) fn giver(&self, name: &[u8]) -> Option<usize>
        ensures { result ≡ found_in self.now.numbers.entries name.now }
    {
        self.numbers.get(name).copied()
    }

    /// Whether one of the modules gives a name.
    pub(crate) fn gives(&self, name: &[u8]) -> bool
        ensures { (modules : List Object) → Knows self.now.numbers.entries modules → result ≡ is_given modules name.now }
    {
        self.giver(name).is_some()
    }

    /// The first of these names that one of the modules gives.
    pub(crate) fn second<'a>(&self, publics: &'a [Given]) -> Option<&'a Text>
        ensures { (before : List Object) → Knows self.now.numbers.entries before → option_copied result ≡ second_of before publics.now }
    {
        let mut left = publics;
        while let [given, rest @ ..] = left {
            if self.gives(given.name.as_slice()) {
                return Some(&given.name);
            }
            left = rest;
        }
        None
    }

    // Notes who gives a name, unless it is known.
    fn note(&mut self, alloc: Global, number: usize, name: &[u8]) -> Result<(), NoMemory>
        ensures { OnOk result ((q : List ℕ) → found_in self.new.numbers.entries q ≡ option_or (found_in self.old.numbers.entries q) (if bytes_eq name.now q then Some number else None)) }
    {
        if self.giver(name).is_none() {
            let key = Vec::from_slice(alloc, name)?;
            self.numbers.insert(key, number)?;
        }
        Ok(())
    }

    // Notes the public names of the module with this number.
    fn note_all(&mut self, alloc: Global, number: usize, publics: &[Given]) -> Result<(), NoMemory>
        ensures { OnOk result ((q : List ℕ) → found_in self.new.numbers.entries q ≡ option_or (found_in self.old.numbers.entries q) (if list_any (λ g. bytes_eq g.name q) publics.now then Some number else None)) }
    {
        let mut left = publics;
        while let [given, rest @ ..] = left {
            self.note(alloc, number, given.name.as_slice())?;
            left = rest;
        }
        Ok(())
    }

    /// Adds the next module, which has this number.
    pub(crate) fn add(
        &mut self,
        alloc: Global,
        number: usize,
        module: &Module,
    ) -> Result<(), NoMemory>
        ensures { OnOk result ((before : List Object) → number ≡ length before → Knows self.old.numbers.entries before → Knows self.new.numbers.entries (before ++ «module».now ∷ [])) }
    {
        self.note_all(alloc, number, module.publics())
    }
}

/// The public names of some modules.
pub(crate) fn givers_of(alloc: Global, modules: &[Module]) -> Result<Givers, NoMemory>
    ensures { IfOk result (λ givers. Knows givers.numbers.entries modules.now) }
{
    let mut givers = Givers::new(alloc);
    for (number, module) in modules.iter().enumerate() {
        givers.add(alloc, number, module)?;
    }
    Ok(givers)
}
