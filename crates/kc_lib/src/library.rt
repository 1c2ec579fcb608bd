ghost use Rattle.std.specs.Prelude.{◌≡◌, ◌≤◌, length};
ghost use Rattle.kc_base.specs.Limits.{file_limit};
ghost use Rattle.kc_lib.specs.Answers.{IsRead, ReportsLibrary, Takes};
ghost use Rattle.kc_lib.specs.Reading.{read_answer};

use crate::faults::LibFault;
use crate::reading::read_library;
use crate::taking::{copies, standings_of};
use kc_obj_module::Module;
use std::alloc::Global;
use std::marker::Model;

/// The most modules that are linked together.
const MODULES: usize = 64;

/// A library that was read: its modules in their order.
#[derive(Drop)]
pub struct Library {
    members: Vec<Module>,
}

impl Model for Library {
    ghost use Rattle.std.specs.Prelude.{◌≡◌, List, true};
    ghost use Rattle.kc_obj_module.specs.Object.{Object};
    ghost use Rattle.kc_lib.specs.Format.{can_be_library};

    ghost Value = { List Object };

    ghost invariant = { λ l. can_be_library l.members.items ≡ true };

    ghost view = { λ l. l.members.items };
}

impl Library {
    /// The library that the bytes are, at most 1,048,576 of them, or the first fault. First the head and the lengths are
    /// checked (a wrong byte of the head, the end before the last member ends, bytes behind the last member), then member
    /// by member (no object, a name that an earlier member gives).
    pub fn read(alloc: Global, bytes: &[u8]) -> Result<Library, LibFault>
        requires { length bytes.now ≤ file_limit }
        ensures answer { IsRead result (read_answer bytes.now) }
        ensures format { ReportsLibrary bytes.now result }
    {
        let members = read_library(alloc, bytes)?;
        Ok(Library { members })
    }

    /// The modules, in their order.
    pub fn members(&self) -> &[Module]
        ensures { result.now ≡ self.now }
    {
        self.members.as_slice()
    }

    /// Copies of the members that modules need, in the order of the library: of each external of a module and of each
    /// taken member the member that gives it, where no module gives it and a member does; and no other. STACK needs none.
    /// The refusal comes where modules and taken members together are more than 64.
    pub fn take(&self, alloc: Global, modules: &[Module]) -> Result<Vec<Module>, LibFault>
        ensures { Takes modules.now self.now result }
    {
        let members = self.members.as_slice();
        let standings = standings_of(alloc, modules, members)?;
        let taken = copies(alloc, members, &standings)?;
        if MODULES < modules.len() + taken.len() {
            return Err(LibFault::TooMany);
        }
        Ok(taken)
    }
}
