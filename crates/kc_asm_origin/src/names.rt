//! The first name that statements define, take or give against a rule.

ghost use Rattle.std.specs.Prelude.{◌≡◌, ℕ, ◌++◌, ◌∷◌, [], List, Some, None, ◌||◌, if◌then◌else◌, map, false, IfOk, OnOk};
ghost use Rattle.std.specs.Option.{option_or};
ghost use Rattle.kc_lex.specs.Codes.{code_number};
ghost use Rattle.kc_source_statement.specs.Statements.{label_in, statement_in};
ghost use Rattle.kc_source_statement.specs.Trees.{action_tree, action_read};
ghost use Rattle.kc_source.specs.declared.uses.Use.{Use};
ghost use Rattle.kc_source.specs.Faults.{is_defined, use_code, use_of, label_uses, action_uses, read_uses, uses_of, said, all_said, all_uses};
ghost use Rattle.kc_asm_origin.specs.Seeking.{IsKnown, IsSeeking};
ghost use Rattle.kc_asm_origin.specs.Uses as spec;

use kc_asm_symbols::Marks;
use kc_base::{NoMemory, Text};
use kc_lex::{Line, SourceCode};
use kc_source::uses::UseKind;
use kc_source_statement::{Action, read_label, read_statement};
use std::alloc::Global;

/// The names that are defined for once, again and again, and taken.
#[derive(Drop)]
pub(crate) struct Known {
    pub once: Marks,
    pub again: Marks,
    pub taken: Marks,
}

impl Known {
    fn new(alloc: Global) -> Known
        ensures { IsKnown result [] }
    {
        Known {
            once: Marks::new(alloc),
            again: Marks::new(alloc),
            taken: Marks::new(alloc),
        }
    }

    fn defines(&self, name: &[u8]) -> bool
        ensures { (us : List Use) → IsKnown self.now us → result ≡ is_defined name.now us }
    {
        let once = self.once.has(name);
        let again = self.again.has(name);
        either(once, again)
    }

    fn size_record(&mut self, alloc: Global, kind: UseKind, name: &[u8]) -> Result<(), NoMemory>
        ensures { OnOk result ((us : List Use) (u : Use) → u.kind ≡ kind → u.name ≡ name.now → IsKnown self.old us → IsKnown self.new (u ∷ us)) }
    {
        match kind {
            UseKind::Once => {
                self.once.mark(alloc, name)?;
                Ok(())
            }
            UseKind::Again => {
                self.again.mark(alloc, name)?;
                Ok(())
            }
            UseKind::Taken => {
                self.taken.mark(alloc, name)?;
                Ok(())
            }
            UseKind::Given => Ok(()),
        }
    }
}

fn when(fault: bool, code: SourceCode) -> Option<u8>
    ensures { result ≡ (if fault then Some (code_number code) else None) }
{
    if fault { Some(code.number()) } else { None }
}

fn either(one: bool, other: bool) -> bool
    ensures { result ≡ (one || other) }
{
    one || other
}

// The code of a use, behind what is known before and by what is known in all.
fn code_of(kind: UseKind, name: &[u8], before: &Known, all: &Known) -> Option<u8>
    ensures { (earlier whole : List Use) → IsKnown before.now earlier → IsKnown all.now whole → result ≡ use_code kind name.now false whole earlier }
{
    match kind {
        UseKind::Once => when(before.defines(name), SourceCode::DefinedTwice),
        UseKind::Again => when(before.once.has(name), SourceCode::DefinedTwice),
        UseKind::Taken => {
            let taken = before.taken.has(name);
            let defined = all.defines(name);
            when(either(taken, defined), SourceCode::NotExternal)
        }
        UseKind::Given => {
            let defined = all.defines(name);
            when(!defined, SourceCode::NotPublic)
        }
    }
}

fn is_code(code: u8, other: Option<u8>) -> bool
    ensures { result ≡ spec.is_code code other }
{
    match other {
        None => false,
        Some(other) => other == code,
    }
}

/// A search for the first use of a name at a line that has a code: what is known in all, and before, and what it has found.
#[derive(Drop)]
pub(crate) struct Search {
    pub line: u32,
    pub code: u8,
    pub all: Known,
    pub before: Known,
    pub found: Option<Text>,
}

impl Search {
    fn new(line: u32, code: u8, alloc: Global, all: Known) -> Search
        ensures { (uses whole : List Use) → IsKnown all uses → IsSeeking result line code uses whole whole }
    {
        Search {
            line,
            code,
            all,
            before: Known::new(alloc),
            found: None,
        }
    }

    // Whether a use has the code at the line.
    fn is_refused(&self, at: u32, kind: UseKind, name: &[u8]) -> bool
        ensures { (all earlier : List Use) → IsKnown self.now.all all → IsKnown self.now.before earlier → result ≡ spec.is_refused self.now.line self.now.code all earlier (use_of at kind name.now) }
    {
        let code = code_of(kind, name, &self.before, &self.all);
        at == self.line && is_code(self.code, code)
    }

    fn find(&mut self, alloc: Global, at: u32, kind: UseKind, name: &[u8]) -> Result<(), NoMemory>
        ensures found { OnOk result ((all earlier : List Use) → IsKnown self.old.all all → IsKnown self.old.before earlier → self.new.found ≡ option_or self.old.found (if spec.is_refused self.old.line self.old.code all earlier (use_of at kind name.now) then Some name.now else None)) }
        ensures all { self.new.all ≡ self.old.all }
        ensures before { self.new.before ≡ self.old.before }
        ensures line { self.new.line ≡ self.old.line }
        ensures code { self.new.code ≡ self.old.code }
    {
        if self.found.is_some() {
            return Ok(());
        }
        let refused = self.is_refused(at, kind, name);
        if refused {
            let reported = Text::of(alloc, name)?;
            self.found = Some(reported);
            return Ok(());
        }
        Ok(())
    }

    // Over one use.
    fn pass_use(
        &mut self,
        alloc: Global,
        at: u32,
        kind: UseKind,
        name: &[u8],
    ) -> Result<(), NoMemory>
        ensures { OnOk result ((line code : ℕ) (all rest whole : List Use) → IsSeeking self.old line code all (use_of at kind name.now ∷ rest) whole → IsSeeking self.new line code all rest whole) }
    {
        self.find(alloc, at, kind, name)?;
        self.before.size_record(alloc, kind, name)?;
        Ok(())
    }

    fn pass_names(
        &mut self,
        alloc: Global,
        at: u32,
        kind: UseKind,
        names: &[Text],
    ) -> Result<(), NoMemory>
        ensures { OnOk result ((line code : ℕ) (all rest whole : List Use) → IsSeeking self.old line code all (map (use_of at kind) names.now ++ rest) whole → IsSeeking self.new line code all rest whole) }
    {
        for name in names {
            self.pass_use(alloc, at, kind, name.as_slice())?;
        }
        Ok(())
    }

    fn pass_label(&mut self, alloc: Global, at: u32, label: &Option<Text>) -> Result<(), NoMemory>
        ensures { OnOk result ((line code : ℕ) (all rest whole : List Use) → IsSeeking self.old line code all (label_uses at label.now ++ rest) whole → IsSeeking self.new line code all rest whole) }
    {
        match label {
            None => Ok(()),
            Some(name) => self.pass_use(alloc, at, UseKind::Once, name.as_slice()),
        }
    }

    fn pass_action(&mut self, alloc: Global, at: u32, action: &Action) -> Result<(), NoMemory>
        ensures { OnOk result ((line code : ℕ) (all rest whole : List Use) → IsSeeking self.old line code all (action_uses at (action_tree action.now) ++ rest) whole → IsSeeking self.new line code all rest whole) }
    {
        match action {
            Action::Equ(name, _) => self.pass_use(alloc, at, UseKind::Once, name.as_slice()),
            Action::Set(name, _) => self.pass_use(alloc, at, UseKind::Again, name.as_slice()),
            Action::Extrn(names) => self.pass_names(alloc, at, UseKind::Taken, names.as_slice()),
            Action::Public(names) => self.pass_names(alloc, at, UseKind::Given, names.as_slice()),
            _ => Ok(()),
        }
    }

    fn pass_read(
        &mut self,
        alloc: Global,
        at: u32,
        read: &Result<Action, u8>,
    ) -> Result<(), NoMemory>
        ensures { OnOk result ((line code : ℕ) (all rest whole : List Use) → IsSeeking self.old line code all (read_uses at (action_read read.now) ++ rest) whole → IsSeeking self.new line code all rest whole) }
    {
        match read {
            Ok(action) => self.pass_action(alloc, at, action),
            Err(_) => Ok(()),
        }
    }

    // Over the label of a line.
    fn pass_first(&mut self, alloc: Global, line: &Line) -> Result<(), NoMemory>
        ensures { OnOk result ((at code : ℕ) (all rest whole : List Use) → IsSeeking self.old at code all (label_uses line.now.number (label_in line.now.tokens) ++ rest) whole → IsSeeking self.new at code all rest whole) }
    {
        let label = read_label(alloc, line.tokens.as_slice())?;
        self.pass_label(alloc, line.number, &label)
    }

    // Over what stands behind it.
    fn pass_behind(&mut self, alloc: Global, line: &Line) -> Result<(), NoMemory>
        ensures { OnOk result ((at code : ℕ) (all rest whole : List Use) → IsSeeking self.old at code all (read_uses line.now.number (statement_in line.now.tokens) ++ rest) whole → IsSeeking self.new at code all rest whole) }
    {
        let read = read_statement(alloc, line.tokens.as_slice())?;
        self.pass_read(alloc, line.number, &read)
    }

    // Over a line that is not blank.
    fn pass_words(&mut self, alloc: Global, line: &Line) -> Result<(), NoMemory>
        ensures { OnOk result ((at code : ℕ) (all rest whole : List Use) → IsSeeking self.old at code all (uses_of (said line.now) ++ rest) whole → IsSeeking self.new at code all rest whole) }
    {
        self.pass_first(alloc, line)?;
        self.pass_behind(alloc, line)?;
        Ok(())
    }

    fn pass_line(&mut self, alloc: Global, line: &Line) -> Result<(), NoMemory>
        ensures { OnOk result ((at code : ℕ) (all : List Use) (rest : List Line) (whole : List Use) → IsSeeking self.old at code all (all_uses (all_said (line.now ∷ rest))) whole → IsSeeking self.new at code all (all_uses (all_said rest)) whole) }
    {
        if line.tokens.as_slice().is_empty() {
            return Ok(());
        }
        self.pass_words(alloc, line)?;
        Ok(())
    }

    fn pass_lines(&mut self, alloc: Global, lines: &[Line]) -> Result<(), NoMemory>
        ensures { OnOk result ((at code : ℕ) (all whole : List Use) → IsSeeking self.old at code all (all_uses (all_said lines.now)) whole → IsSeeking self.new at code all [] whole) }
    {
        for line in lines {
            self.pass_line(alloc, line)?;
        }
        Ok(())
    }
}

/// The name of the first use at a line that has a code.
pub(crate) fn used(
    alloc: Global,
    lines: &[Line],
    line: u32,
    code: u8,
) -> Result<Option<Text>, NoMemory>
    ensures { IfOk result (λ o. o ≡ spec.used_at line code (all_uses (all_said lines.now))) }
{
    let mut first = Search::new(line, code, alloc, Known::new(alloc));
    first.pass_lines(alloc, lines)?;
    let Search { before, .. } = first;
    let mut search = Search::new(line, code, alloc, before);
    search.pass_lines(alloc, lines)?;
    let Search { found, .. } = search;
    Ok(found)
}
