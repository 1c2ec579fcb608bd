ghost use Rattle.std.specs.Prelude.{◌≡◌, ◌+◌, ◌<◌, ◌≤◌, ℕ, List, OnOk, IfOk, length};
ghost use Rattle.std.specs.Option.{option_copied, option_or};
ghost use Rattle.kc_obj_module.specs.Object.{Object};
ghost use Rattle.kc_link_place.specs.Names as spec;
ghost use Rattle.kc_link_place.specs.Names.{defining_among, defining_of, found_in, Knows, if_same};

use indexmap::IndexMap;
use kc_base::{NoMemory, Text};
use kc_obj_module::{Given, Module, Taken};
use std::alloc::Global;

/// Where a name is public: the number of the module, and a place in one of its pieces or a number alone.
#[derive(Clone, Copy)]
pub struct DefiningModule {
    pub index: usize,
    pub piece: Option<u16>,
    pub value: u16,
}

/// The public names of modules, each with its first home.
#[derive(Drop)]
pub(crate) struct Names {
    defining_modules: IndexMap<Vec<u8>, DefiningModule>,
}

impl Names {
    /// The home of a name, if it has one.
    pub(crate) fn defining(&self, name: &[u8]) -> Option<DefiningModule>
        ensures { result ≡ found_in self.now.defining_modules.entries name.now }
    {
        self.defining_modules.get(name).copied()
    }

    // Notes the home of a name that has none.
    fn note(&mut self, alloc: Global, name: &[u8], defining: DefiningModule) -> Result<(), NoMemory>
        ensures { OnOk result ((q : List ℕ) → found_in self.new.defining_modules.entries q ≡ option_or (found_in self.old.defining_modules.entries q) (if_same name.now q defining)) }
    {
        if self.defining(name).is_none() {
            let key = Vec::from_slice(alloc, name)?;
            self.defining_modules.insert(key, defining)?;
        }
        Ok(())
    }

    // Notes the public names of a module.
    fn note_all(&mut self, alloc: Global, index: usize, publics: &[Given]) -> Result<(), NoMemory>
        ensures { OnOk result ((q : List ℕ) → found_in self.new.defining_modules.entries q ≡ option_or (found_in self.old.defining_modules.entries q) (defining_among index publics.now q)) }
    {
        let mut left = publics;
        while let [given, rest @ ..] = left {
            let defining = DefiningModule {
                index,
                piece: given.piece,
                value: given.value,
            };
            self.note(alloc, given.name.as_slice(), defining)?;
            left = rest;
        }
        Ok(())
    }
}

/// The public names of all modules.
#[tactic(auto, unfolding(crate::specs::Names::defining_from))]
pub(crate) fn public_names(alloc: Global, modules: &[Module]) -> Result<Names, NoMemory>
    ensures { IfOk result (λ names. Knows names.defining_modules.entries modules.now) }
{
    let mut names = Names {
        defining_modules: IndexMap::new(alloc),
    };
    let mut left = modules;
    let mut index = 0;
    while let [module, rest @ ..] = left {
        names.note_all(alloc, index, module.publics())?;
        index += 1;
        left = rest;
    }
    Ok(names)
}
