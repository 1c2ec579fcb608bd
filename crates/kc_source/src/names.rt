ghost use Rattle.std.specs.Prelude.{◌≡◌, ◌<◌, ◌+◌, ◌^◌, ◌&&◌, nat_le, [], List, ℕ, false, Some, None, if◌then◌else◌, IfOk, OnOk};
ghost use Rattle.std.specs.Str.{bytes_eq};
ghost use Rattle.kc_source.specs.Faults as faults;
ghost use Rattle.kc_source.specs.Known as spec;

use crate::uses::{Use, UseKind};
use indexmap::IndexMap;
use kc_base::NoMemory;
use kc_lex::line_fault::{at_line, lesser};
use kc_lex::{LineFault, SourceCode};
use std::alloc::Global;

/// What is known of a name: whether it is defined once, defined again and again, or taken.
#[derive(Clone, Copy)]
pub(crate) struct Known {
    pub once: bool,
    pub again: bool,
    pub taken: bool,
}

/// Names with what is known of them.
#[derive(Drop)]
struct NameTable {
    map: IndexMap<Vec<u8>, Known>,
}

impl NameTable {
    fn new(alloc: Global) -> NameTable
        ensures { result.map.entries ≡ [] }
    {
        NameTable {
            map: IndexMap::new(alloc),
        }
    }

    fn known(&self, name: &[u8]) -> Known
        ensures { result ≡ spec.known_at self.now.map.entries name.now }
    {
        match self.map.get(name) {
            None => Known {
                once: false,
                again: false,
                taken: false,
            },
            Some(known) => *known,
        }
    }

    fn note(&mut self, alloc: Global, name: &[u8], kind: UseKind) -> Result<(), NoMemory>
        ensures here { OnOk result (spec.known_at self.new.map.entries name.now ≡ spec.joined (spec.known_at self.old.map.entries name.now) kind) }
        ensures others { OnOk result ((other : List ℕ) → bytes_eq name.now other ≡ false → spec.known_at self.new.map.entries other ≡ spec.known_at self.old.map.entries other) }
    {
        let known = joined(self.known(name), kind);
        let key = Vec::from_slice(alloc, name)?;
        self.map.insert(key, known)?;
        Ok(())
    }
}

fn joined(known: Known, kind: UseKind) -> Known
    ensures { result ≡ spec.joined known kind }
{
    match kind {
        UseKind::Once => Known {
            once: true,
            again: known.again,
            taken: known.taken,
        },
        UseKind::Again => Known {
            once: known.once,
            again: true,
            taken: known.taken,
        },
        UseKind::Taken => Known {
            once: known.once,
            again: known.again,
            taken: true,
        },
        UseKind::Given => known,
    }
}

// The table of all the uses.
fn table_of(alloc: Global, uses: &[Use]) -> Result<NameTable, NoMemory>
    ensures { IfOk result (λ t. spec.IsTable t.map.entries uses.now) }
{
    let mut table = NameTable::new(alloc);
    let mut left = uses.len();
    while left > 0 {
        left -= 1;
        let one = &uses[left];
        table.note(alloc, one.name.as_slice(), one.kind)?;
    }
    Ok(table)
}

fn is_defined(known: Known) -> bool
    ensures { result ≡ spec.is_defined_name known }
{
    known.once || known.again
}

// Whether a use of this kind brings a name that was not known before.
fn brings(kind: UseKind, before: Known) -> bool
    ensures { result ≡ spec.brings kind before }
{
    match kind {
        UseKind::Once => !(is_defined(before) || before.taken),
        UseKind::Again => !(is_defined(before) || before.taken),
        UseKind::Taken => !(is_defined(before) || before.taken),
        UseKind::Given => false,
    }
}

fn or_crowded(too_many: bool) -> Option<u8>
    ensures { result ≡ (if too_many then Some 8 else None) }
{
    if too_many {
        Some(SourceCode::ManyNames.number())
    } else {
        None
    }
}

// The code of a use, by what is known of its name before and in all.
fn code(kind: UseKind, before: Known, all: Known, too_many: bool) -> Option<u8>
    ensures { result ≡ spec.known_code kind before all too_many }
{
    match kind {
        UseKind::Once => {
            if is_defined(before) {
                Some(SourceCode::DefinedTwice.number())
            } else {
                or_crowded(too_many)
            }
        }
        UseKind::Again => {
            if before.once {
                Some(SourceCode::DefinedTwice.number())
            } else {
                or_crowded(too_many)
            }
        }
        UseKind::Taken => {
            if too_many {
                Some(SourceCode::ManyNames.number())
            } else if before.taken || is_defined(all) {
                Some(SourceCode::NotExternal.number())
            } else {
                None
            }
        }
        UseKind::Given => {
            if is_defined(all) {
                None
            } else {
                Some(SourceCode::NotPublic.number())
            }
        }
    }
}

fn is_crowded(new: bool, count: usize) -> bool
    ensures { result ≡ (new && nat_le 16384 count) }
{
    new && count >= 16384
}

/// The first fault of the uses of names.
pub(crate) fn name_fault(alloc: Global, uses: &[Use]) -> Result<Option<LineFault>, NoMemory>
    ensures { IfOk result (λ o. o ≡ faults.least (faults.name_faults uses.now [] uses.now)) }
{
    let all = table_of(alloc, uses)?;
    let mut earlier = NameTable::new(alloc);
    let mut count = 0;
    let mut found = None;
    for one in uses {
        let name = one.name.as_slice();
        let before = earlier.known(name);
        let new = brings(one.kind, before);
        let code = code(one.kind, before, all.known(name), is_crowded(new, count));
        found = lesser(found, at_line(one.line, code));
        count = counted(count, new);
        earlier.note(alloc, name, one.kind)?;
    }
    Ok(found)
}

fn counted(count: usize, new: bool) -> usize
    requires { count + 1 < 2 ^ 64 }
    ensures { result ≡ count + (if new then 1 else 0) }
{
    if new { count + 1 } else { count }
}
