// The members that modules need.
ghost use Rattle.std.specs.Prelude.{◌≡◌, ◌≤◌, ◌<◌, List, Some, None, IfSome, IfOk, replicate, length};
ghost use Rattle.kc_obj_module.specs.Object.{Object};
ghost use Rattle.kc_lib.specs.Names.{GivenOnce};
ghost use Rattle.kc_lib.specs.Taking.{IsLeast, chosen};
ghost use Rattle.kc_lib.specs.Givers.{Knows};
ghost use Rattle.kc_lib.specs.Standings as stands;
ghost use Rattle.kc_lib.specs.Standings.{is_in, work, IsUnderWay};

use crate::copying::copy_of;
use crate::givers::{Givers, givers_of};
use kc_base::NoMemory;
use kc_obj_module::names::is_stack;
use kc_obj_module::{Module, Taken};
use std::alloc::Global;

/// How far a member is: not needed so far, needed with its externals still to be looked at, or done.
#[derive(Clone, Copy, PartialEq, Eq)]
pub(crate) enum Standing {
    Out,
    Called,
    Settled,
}

impl Standing {
    // Whether the member is needed.
    fn is_needed(self) -> bool
        ensures { result ≡ stands.is_needed (Some self) }
    {
        match self {
            Standing::Out => false,
            Standing::Called | Standing::Settled => true,
        }
    }
}

/// The names that modules give, and those that the members of a library give.
#[derive(Drop)]
pub(crate) struct DefiningModules {
    pub(crate) given: Givers,
    pub(crate) held: Givers,
}

impl DefiningModules {
    // The number of the member that a name needs: the one that gives it, where no module does.
    fn needed(&self, name: &[u8]) -> Option<usize>
        ensures { (modules members : List Object) → Knows self.now.given.numbers.entries modules → Knows self.now.held.numbers.entries members → result ≡ stands.needed modules members name.now }
    {
        if is_stack(name) || self.given.gives(name) {
            None
        } else {
            self.held.giver(name)
        }
    }

    // Calls the member that a name needs.
    fn call(&self, name: &[u8], standings: &mut [Standing])
        ensures called { (modules members : List Object) → Knows self.now.given.numbers.entries modules → Knows self.now.held.numbers.entries members → standings.new ≡ stands.called (stands.needed modules members name.now) standings.old }
        ensures work { work standings.new ≤ work standings.old }
    {
        if let Some(number) = self.needed(name) {
            call_member(number, standings);
        }
    }

    // Calls the members that a module's externals need.
    fn call_all(&self, externals: &[Taken], standings: &mut [Standing])
        ensures called { (modules members : List Object) → Knows self.now.given.numbers.entries modules → Knows self.now.held.numbers.entries members → standings.new ≡ stands.called_all modules members externals.now standings.old }
        ensures work { work standings.new ≤ work standings.old }
    {
        let mut left = externals;
        while let [taken, rest @ ..] = left {
            self.call(taken.name.as_slice(), standings);
            left = rest;
        }
    }

    // Calls the members that the externals of modules need.
    fn call_by(&self, callers: &[Module], standings: &mut [Standing])
        ensures { (modules members : List Object) → Knows self.now.given.numbers.entries modules → Knows self.now.held.numbers.entries members → standings.new ≡ stands.called_by modules members callers.now standings.old }
    {
        let mut left = callers;
        while let [caller, rest @ ..] = left {
            self.call_all(caller.externals(), standings);
            left = rest;
        }
    }

    // Finds the members that modules need, where all members are out.
    fn find(&self, modules: &[Module], members: &[Module], standings: &mut [Standing])
        requires given { Knows self.now.given.numbers.entries modules.now }
        requires held { Knows self.now.held.numbers.entries members.now }
        requires once { GivenOnce members.now }
        requires out { standings.old ≡ replicate (length members.now) Standing.Out }
        ensures { IsLeast modules.now members.now (is_in standings.new) }
    {
        self.call_by(modules, standings);
        self.settle(members, standings);
    }

    // Calls what the called members need, until none of them is still to be looked at.
    fn settle(&self, members: &[Module], standings: &mut [Standing])
        requires { length standings.old ≡ length members.now }
        ensures { (modules : List Object) → Knows self.now.given.numbers.entries modules → Knows self.now.held.numbers.entries members.now → GivenOnce members.now → IsUnderWay modules members.now standings.old
            → IsLeast modules members.now (is_in standings.new) }
    {
        while let Some(number) = first_called(standings) {
            standings[number] = Standing::Settled;
            self.call_all(members[number].externals(), standings);
        }
    }
}

// Calls a member, unless it is called already.
fn call_member(number: usize, standings: &mut [Standing])
    ensures called { standings.new ≡ stands.called (Some number) standings.old }
    ensures work { work standings.new ≤ work standings.old }
{
    if standings.len() <= number {
        return;
    }
    if !standings[number].is_needed() {
        standings[number] = Standing::Called;
    }
}

// The first member whose externals are still to be looked at.
fn first_called(standings: &[Standing]) -> Option<usize>
    ensures { result ≡ stands.first_called standings.now }
{
    standings.iter().position(|s| *s == Standing::Called)
}

/// How the members stand once all that modules need is found: those that are needed are not out.
pub(crate) fn standings_of(
    alloc: Global,
    modules: &[Module],
    members: &[Module],
) -> Result<Vec<Standing>, NoMemory>
    requires { GivenOnce members.now }
    ensures least { IfOk result (λ v. IsLeast modules.now members.now (is_in v.items)) }
    ensures long { IfOk result (λ v. length v.items ≡ length members.now) }
{
    let defining_modules = DefiningModules {
        given: givers_of(alloc, modules)?,
        held: givers_of(alloc, members)?,
    };
    let mut standings = vec![in alloc; Standing::Out; members.len()]?;
    defining_modules.find(modules, members, &mut standings);
    Ok(standings)
}

/// Copies of the members that are not out, in their order.
pub(crate) fn copies(
    alloc: Global,
    members: &[Module],
    standings: &[Standing],
) -> Result<Vec<Module>, NoMemory>
    requires { length standings.now ≡ length members.now }
    ensures { IfOk result (λ v. v.items ≡ chosen (is_in standings.now) members.now) }
{
    let mut taken = Vec::new(alloc);
    for (number, member) in members.iter().enumerate() {
        if standings[number].is_needed() {
            taken.push(copy_of(alloc, member)?)?;
        }
    }
    Ok(taken)
}
