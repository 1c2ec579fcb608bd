ghost use Rattle.std.specs.Prelude.{◌≡◌, OnOk};
ghost use Rattle.std.specs.Option.{option_copied};
ghost use Rattle.std.specs.FinMap as map;
ghost use Rattle.kc_macro_body.specs.Bodies as bodies;

use crate::lists::{Names, Texts};
use indexmap::IndexMap;
use kc_base::{NoMemory, Text};
use std::alloc::Global;
use std::marker::Model;

/// The places of names.
#[derive(Drop)]
pub struct Places {
    map: IndexMap<Vec<u8>, u64>,
}

impl Model for Places {
    ghost use Rattle.std.specs.Prelude.{ℕ};
    ghost use Rattle.std.specs.Coded.{coded_ℕ};
    ghost use Rattle.kc_base.specs.ByName.{ByName, by_name_code, by_name};

    ghost Value = { ByName ℕ };

    ghost coded = { by_name_code coded_ℕ };

    ghost view = { λ p. by_name p.map.entries };
}

impl Places {
    /// No places.
    pub fn new(alloc: Global) -> Places
        ensures { result ≡ map.empty }
    {
        Places {
            map: IndexMap::new(alloc),
        }
    }

    /// Gives a place to a name.
    pub fn set(&mut self, name: Text, place: u64) -> Result<(), NoMemory>
        ensures { OnOk result (self.new ≡ map.insert self.old name place) }
    {
        let key = name.into_vec()?;
        self.map.insert(key, place)?;
        Ok(())
    }

    /// The place of a name, or none where it has none.
    pub fn look(&self, name: &[u8]) -> Option<u64>
        ensures { result ≡ map.get self.now name.now }
    {
        self.map.get(name).copied()
    }
}

/// The names that the LOCAL lines of a body declare, each with its place among them, from 0, and how many they are.
#[derive(Drop)]
pub struct Locals {
    pub places: Places,
    pub count: u64,
}

impl Locals {
    /// No names.
    pub fn new(alloc: Global) -> Locals
        ensures { result ≡ bodies.no_locals }
    {
        Locals {
            places: Places::new(alloc),
            count: 0,
        }
    }
}

/// The names that are replaced in a body: parameters, of two with one name the first, and those of LOCAL lines.
#[derive(Drop)]
pub struct Formals {
    pub params: Names,
    pub locals: Locals,
}

/// A macro, as its definition gives it: the names that are replaced, whether its LOCAL lines are lists of names, and its
/// other lines.
#[derive(Drop)]
pub struct Macro {
    pub formals: Formals,
    pub sound: bool,
    pub body: Texts,
}

/// The macros that are defined, by their names.
#[derive(Drop)]
pub struct Macros {
    map: IndexMap<Vec<u8>, Macro>,
}

impl Model for Macros {
    ghost use Rattle.kc_macro_body.specs.declared.macros.Macro.{Macro};
    ghost use Rattle.kc_base.specs.ByName.{ByName, by_name_code, by_name};
    ghost use Rattle.kc_macro_body.specs.MacroCode.{macro_code};

    ghost Value = { ByName Macro };

    ghost coded = { by_name_code macro_code };

    ghost view = { λ m. by_name m.map.entries };
}

impl Macros {
    /// No macros.
    pub fn new(alloc: Global) -> Macros
        ensures { result ≡ map.empty }
    {
        Macros {
            map: IndexMap::new(alloc),
        }
    }

    /// Defines a macro, in place of an earlier one of this name.
    pub fn define(&mut self, name: Text, item: Macro) -> Result<(), NoMemory>
        ensures { OnOk result (self.new ≡ map.insert self.old name item) }
    {
        let key = name.into_vec()?;
        self.map.insert(key, item)?;
        Ok(())
    }

    /// The macro of this name.
    pub fn look(&self, name: &[u8]) -> Option<&Macro>
        ensures { option_copied result ≡ map.get self.now name.now }
    {
        self.map.get(name)
    }
}
