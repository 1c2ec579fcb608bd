ghost use Rattle.std.specs.Prelude.{◌≡◌, ◌+◌, ◌<◌, ◌≤◌, ◌%◌, ℕ, List, IfOk, Some, length, map};
ghost use Rattle.kc_obj_module.specs.Object.{Object};
ghost use Rattle.kc_link_place.specs.Names.{Knows, defining};
ghost use Rattle.kc_link_place.specs.Placing as placing;
ghost use Rattle.kc_link_place.specs.Placing.{Places, list_at, base_at, defining_number, name_number, base_lists, bases_from, places_from};

use crate::bases::Bases;
use crate::names::{DefiningModule, Names};
use crate::pieces::{Stand, is_kind};
use crate::rules::is_stack;
use kc_base::NoMemory;
use kc_obj_module::{Given, Module, SegKind, Segment, Taken};
use std::alloc::Global;
use std::marker::Model;

/// The addresses of the pieces of a module, in order.
#[derive(Drop)]
pub(crate) struct Addresses {
    items: Vec<u16>,
}

impl Model for Addresses {
    ghost use Rattle.std.specs.Prelude.{ℕ, List};

    ghost Value = { List ℕ };

    ghost view = { λ a. a.items.items };
}

impl Addresses {
    fn as_slice(&self) -> &[u16]
        ensures { result.now ≡ self.now }
    {
        self.items.as_slice()
    }
}

// Where the piece of a module with this number was put.
#[tactic(auto, unfolding(crate::specs::Placing::put_at))]
fn put_at(puts: &[Stand], index: usize, number: usize) -> u16
    ensures { result ≡ placing.put_at puts.now index number }
{
    let mut left = puts;
    while let [stand, rest @ ..] = left {
        if stand.piece.index as usize == index && stand.piece.number == number {
            return stand.at;
        }
        left = rest;
    }
    0
}

// Where a piece stands.
fn place_of(puts: &[Stand], stack: u16, index: usize, number: usize, segment: Segment) -> u16
    ensures { result ≡ placing.place_of puts.now stack index number segment }
{
    match segment.at {
        Some(at) => at,
        None => {
            if is_kind(SegKind::Stack, segment.kind) {
                stack
            } else {
                put_at(puts, index, number)
            }
        }
    }
}

// The addresses of the pieces of a module.
#[tactic(auto, unfolding(crate::specs::Placing::places_in))]
fn places_in(
    alloc: Global,
    puts: &[Stand],
    stack: u16,
    index: usize,
    segments: &[Segment],
) -> Result<Addresses, NoMemory>
    ensures { IfOk result (λ all. all ≡ placing.places_in puts.now stack index 0 segments.now) }
{
    let mut items = Vec::new(alloc);
    let mut left = segments;
    let mut number = 0;
    while let [segment, rest @ ..] = left {
        items.push(place_of(puts, stack, index, number, *segment))?;
        number += 1;
        left = rest;
    }
    Ok(Addresses { items })
}

/// The addresses of the pieces of all modules.
#[tactic(auto, unfolding(crate::specs::Placing::places_from))]
pub(crate) fn all_places(
    alloc: Global,
    puts: &[Stand],
    stack: u16,
    modules: &[Module],
) -> Result<Vec<Addresses>, NoMemory>
    ensures { IfOk result (λ all. all.items ≡ places_from puts.now stack 0 modules.now) }
{
    let mut places = Vec::new(alloc);
    let mut left = modules;
    let mut index = 0;
    while let [module, rest @ ..] = left {
        places.push(places_in(alloc, puts, stack, index, module.segments())?)?;
        index += 1;
        left = rest;
    }
    Ok(places)
}

// The addresses of the pieces of a module, or none where there is no such module.
fn addresses_at(pieces: &[Addresses], index: usize) -> &[u16]
    ensures { result.now ≡ list_at pieces.now index }
{
    match pieces.get(index) {
        None => &[],
        Some(addresses) => addresses.as_slice(),
    }
}

// The address of a piece of a module.
#[tactic(auto, unfolding(crate::specs::Placing::base_at))]
fn address_at(pieces: &[Addresses], index: usize, number: usize) -> u16
    ensures { result ≡ base_at pieces.now index number }
{
    match addresses_at(pieces, index).get(number) {
        None => 0,
        Some(address) => *address,
    }
}

// The number that a home gives to its name.
fn number_at(pieces: &[Addresses], defining: Option<DefiningModule>) -> u16
    ensures { result ≡ defining_number pieces.now defining }
{
    match defining {
        None => 0,
        Some(defining) => match defining.piece {
            None => defining.value,
            Some(piece) => address_at(pieces, defining.index, usize::from(piece)).wrapping_add(
                defining.value,
            ),
        },
    }
}

// The number of a name.
fn number_of(names: &Names, pieces: &[Addresses], after_stack: u16, name: &[u8]) -> u16
    ensures { (modules : List Object) → Knows names.now.defining_modules.entries modules
        → result ≡ name_number modules (record { pieces = pieces.now; after_stack = after_stack }) name.now }
{
    if is_stack(name) {
        after_stack
    } else {
        number_at(pieces, names.defining(name))
    }
}

// The numbers of the externals of a module.
fn externals_of(
    alloc: Global,
    names: &Names,
    pieces: &[Addresses],
    after_stack: u16,
    externals: &[Taken],
) -> Result<Vec<u16>, NoMemory>
    ensures { IfOk result (λ numbers. (modules : List Object) → Knows names.now.defining_modules.entries modules
        → numbers.items ≡ map (λ t. name_number modules (record { pieces = pieces.now; after_stack = after_stack }) t.name) externals.now) }
{
    let mut numbers = Vec::new(alloc);
    let mut left = externals;
    while let [taken, rest @ ..] = left {
        numbers.push(number_of(names, pieces, after_stack, taken.name.as_slice()))?;
        left = rest;
    }
    Ok(numbers)
}

// What the numbers of a module count from.
#[tactic(auto, unfolding(crate::specs::Placing::base_lists))]
fn bases_of(
    alloc: Global,
    names: &Names,
    pieces: &[Addresses],
    after_stack: u16,
    index: usize,
    object: &Module,
) -> Result<Bases, NoMemory>
    ensures { IfOk result (λ bases. (modules : List Object) → Knows names.now.defining_modules.entries modules
        → bases ≡ base_lists modules (record { pieces = pieces.now; after_stack = after_stack }) index object.now) }
{
    let addresses = Vec::from_slice(alloc, addresses_at(pieces, index))?;
    let numbers = externals_of(alloc, names, pieces, after_stack, object.externals())?;
    Ok(Bases::new(addresses, numbers))
}

// What the numbers of each module count from.
#[tactic(auto, unfolding(crate::specs::Placing::bases_from))]
fn all_bases(
    alloc: Global,
    names: &Names,
    pieces: &[Addresses],
    after_stack: u16,
    modules: &[Module],
) -> Result<Vec<Bases>, NoMemory>
    ensures { IfOk result (λ bases. Knows names.now.defining_modules.entries modules.now
        → bases.items ≡ bases_from modules.now (record { pieces = pieces.now; after_stack = after_stack }) 0 modules.now) }
{
    let mut bases = Vec::new(alloc);
    let mut left = modules;
    let mut index = 0;
    while let [module, rest @ ..] = left {
        bases.push(bases_of(alloc, names, pieces, after_stack, index, module)?)?;
        index += 1;
        left = rest;
    }
    Ok(bases)
}

/// Where all pieces of modules stand.
#[derive(Drop)]
pub struct Placed {
    pieces: Vec<Addresses>,
    after_stack: u16,
}

impl Model for Placed {
    ghost use Rattle.kc_link_place.specs.Placing.{Places};

    ghost Value = { Places };

    ghost view = { λ p. record { pieces = p.pieces.items; after_stack = p.after_stack } };
}

impl Placed {
    pub(crate) fn new(pieces: Vec<Addresses>, after_stack: u16) -> Placed
        ensures { result ≡ record { pieces = pieces.items; after_stack = after_stack } }
    {
        Placed {
            pieces,
            after_stack,
        }
    }

    /// The address of a piece of a module, both counted from 0; 0 where there is no such piece.
    pub fn piece(&self, index: usize, number: usize) -> u16
        ensures { result ≡ base_at self.now.pieces index number }
    {
        address_at(self.pieces.as_slice(), index, number)
    }

    /// The value of a public name of a module, by the number of the module, counted from 0: the address of a place in a piece,
    /// or a number alone.
    pub fn value(&self, index: usize, given: &Given) -> u16
        ensures { result ≡ defining_number self.now.pieces (Some (defining index given.now)) }
    {
        let defining = DefiningModule {
            index,
            piece: given.piece,
            value: given.value,
        };
        number_at(self.pieces.as_slice(), Some(defining))
    }

    /// The address after the stack.
    pub fn after_stack(&self) -> u16
        ensures { result ≡ self.now.after_stack }
    {
        self.after_stack
    }

    /// What the numbers of each module count from.
    pub(crate) fn bases(
        &self,
        alloc: Global,
        names: &Names,
        modules: &[Module],
    ) -> Result<Vec<Bases>, NoMemory>
        ensures { IfOk result (λ bases. Knows names.now.defining_modules.entries modules.now → bases.items ≡ bases_from modules.now self.now 0 modules.now) }
    {
        all_bases(
            alloc,
            names,
            self.pieces.as_slice(),
            self.after_stack,
            modules,
        )
    }
}
