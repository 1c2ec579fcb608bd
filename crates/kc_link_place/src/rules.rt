ghost use Rattle.std.specs.Prelude.{◌≡◌, ◌+◌, ◌<◌, ◌≤◌, ℕ, List, length};
ghost use Rattle.std.specs.Option.{option_copied};
ghost use Rattle.kc_obj_module.specs.Object.{Object};
ghost use Rattle.kc_obj_module.specs.Names.{is_stack_name};
ghost use Rattle.kc_link_place.specs.Names as spec;
ghost use Rattle.kc_link_place.specs.Names.{is_resolved, comes_later, Knows};

use crate::names::{DefiningModule, Names};
use kc_base::Text;
use kc_obj_module::{Given, Module, Taken};

// Whether a name is that of the address after the stack.
pub(crate) fn is_stack(name: &[u8]) -> bool
    ensures { result ≡ is_stack_name name.now }
{
    name == b"STACK".as_slice()
}

// Whether a name that is taken is given, where the stack has so many bytes.
fn resolves(names: &Names, stack: u32, name: &[u8]) -> bool
    ensures { (modules : List Object) → Knows names.now.defining_modules.entries modules → result ≡ is_resolved modules stack name.now }
{
    if is_stack(name) {
        0 < stack
    } else {
        names.defining(name).is_some()
    }
}

// The first of these names that nothing gives.
fn missing_among<'a>(names: &Names, stack: u32, externals: &'a [Taken]) -> Option<&'a Text>
    ensures { (modules : List Object) → Knows names.now.defining_modules.entries modules → option_copied result ≡ spec.first_missing modules stack externals.now }
{
    let mut left = externals;
    while let [taken, rest @ ..] = left {
        if !resolves(names, stack, taken.name.as_slice()) {
            return Some(&taken.name);
        }
        left = rest;
    }
    None
}

/// The first name that a module takes and none gives, where the stack has so many bytes.
#[tactic(auto, unfolding(crate::specs::Names::unresolved))]
pub(crate) fn unresolved<'a>(names: &Names, stack: u32, modules: &'a [Module]) -> Option<&'a Text>
    ensures { Knows names.now.defining_modules.entries modules.now → option_copied result ≡ spec.unresolved modules.now stack modules.now }
{
    let mut left = modules;
    while let [module, rest @ ..] = left {
        if let Some(name) = missing_among(names, stack, module.externals()) {
            return Some(name);
        }
        left = rest;
    }
    None
}

// Whether a home is one of a module before this one.
fn is_earlier(defining: Option<DefiningModule>, index: usize) -> bool
    ensures { result ≡ comes_later defining index }
{
    match defining {
        None => false,
        Some(defining) => defining.index < index,
    }
}

// The first of these names that an earlier module gives.
fn second_among<'a>(names: &Names, index: usize, publics: &'a [Given]) -> Option<&'a Text>
    ensures { (modules : List Object) → Knows names.now.defining_modules.entries modules → option_copied result ≡ spec.first_second modules index publics.now }
{
    let mut left = publics;
    while let [given, rest @ ..] = left {
        if is_earlier(names.defining(given.name.as_slice()), index) {
            return Some(&given.name);
        }
        left = rest;
    }
    None
}

/// The first name that a module gives and an earlier one too.
#[tactic(auto, unfolding(crate::specs::Names::doubled))]
pub(crate) fn doubled<'a>(names: &Names, modules: &'a [Module]) -> Option<&'a Text>
    ensures { Knows names.now.defining_modules.entries modules.now → option_copied result ≡ spec.doubled modules.now 0 modules.now }
{
    let mut left = modules;
    let mut index = 0;
    while let [module, rest @ ..] = left {
        if let Some(name) = second_among(names, index, module.publics()) {
            return Some(name);
        }
        index += 1;
        left = rest;
    }
    None
}
