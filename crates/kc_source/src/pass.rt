ghost use Rattle.std.specs.Prelude.{◌≡◌, ◌∷◌, ◌++◌, [], List, None, map, Ok, false, OnOk, IfOk};
ghost use Rattle.kc_lex.specs.declared.token.Line.{Line};
ghost use Rattle.kc_source_statement.specs.Statements.{statement_in};
ghost use Rattle.kc_source.specs.Passing.{IsReading};
ghost use Rattle.kc_source_statement.specs.Trees.{action_tree};
ghost use Rattle.kc_source.specs.Faults as spec;

use crate::names::name_fault;
use crate::uses::{Use, UseKind};
use kc_base::{NoMemory, Text};
use kc_lex::line_fault::{at_line, lesser};
use kc_lex::{Line, LineFault, SourceCode, SourceFault};
use kc_source_statement::{Action, Stmt, read_label, read_statement};
use std::alloc::Global;

fn is_module(action: &Action) -> bool
    ensures { result ≡ spec.is_module (action_tree action.now) }
{
    match action {
        Action::Module { .. } => true,
        _ => false,
    }
}

fn holds_bytes(action: &Action) -> bool
    ensures { result ≡ spec.holds_bytes (action_tree action.now) }
{
    match action {
        Action::Define(_, _) => true,
        Action::Operation { .. } => true,
        _ => false,
    }
}

fn code_after(code: bool, action: &Action) -> bool
    ensures { result ≡ spec.code_after code (action_tree action.now) }
{
    match action {
        Action::Cseg(_) => true,
        Action::Dseg(_) => false,
        Action::Rseg(_) => false,
        _ => code,
    }
}

fn place_code(first: bool, code: bool, action: &Action) -> Option<u8>
    ensures { result ≡ spec.code_at first code (Ok (action_tree action.now)) }
{
    if is_module(action) && !first {
        Some(SourceCode::SecondModule.number())
    } else if holds_bytes(action) && !code {
        Some(SourceCode::OutsideCode.number())
    } else {
        None
    }
}

fn push_use(
    uses: &mut Vec<Use>,
    alloc: Global,
    line: u32,
    kind: UseKind,
    name: &[u8],
) -> Result<(), NoMemory>
    ensures { OnOk result (uses.new.items ≡ uses.old.items ++ spec.use_of line kind name.now ∷ []) }
{
    let name = Text::of(alloc, name)?;
    uses.push(Use { line, name, kind })?;
    Ok(())
}

fn push_uses(
    uses: &mut Vec<Use>,
    alloc: Global,
    line: u32,
    kind: UseKind,
    names: &[Text],
) -> Result<(), NoMemory>
    ensures { OnOk result (uses.new.items ≡ uses.old.items ++ map (spec.use_of line kind) names.now) }
{
    for name in names {
        push_use(uses, alloc, line, kind, name.as_slice())?;
    }
    Ok(())
}

// The names that a statement uses.
fn push_action(
    uses: &mut Vec<Use>,
    alloc: Global,
    line: u32,
    action: &Action,
) -> Result<(), NoMemory>
    ensures { OnOk result (uses.new.items ≡ uses.old.items ++ spec.action_uses line (action_tree action.now)) }
{
    match action {
        Action::Equ(name, _) => push_use(uses, alloc, line, UseKind::Once, name.as_slice()),
        Action::Set(name, _) => push_use(uses, alloc, line, UseKind::Again, name.as_slice()),
        Action::Public(names) => push_uses(uses, alloc, line, UseKind::Given, names.as_slice()),
        Action::Extrn(names) => push_uses(uses, alloc, line, UseKind::Taken, names.as_slice()),
        _ => Ok(()),
    }
}

fn push_label(
    uses: &mut Vec<Use>,
    alloc: Global,
    line: u32,
    label: &Option<Text>,
) -> Result<(), NoMemory>
    ensures { OnOk result (uses.new.items ≡ uses.old.items ++ spec.label_uses line label.now) }
{
    match label {
        None => Ok(()),
        Some(name) => push_use(uses, alloc, line, UseKind::Once, name.as_slice()),
    }
}

/// What was read: the statements so far, the first fault of lines, whether no line with words was read, whether the
/// segment is code, and the uses of names.
#[derive(Drop)]
pub(crate) struct Pass {
    pub stmts: Vec<Stmt>,
    pub found: Option<LineFault>,
    pub first: bool,
    pub code: bool,
    pub uses: Vec<Use>,
}

impl Pass {
    fn take_statement(
        &mut self,
        alloc: Global,
        line: u32,
        label: Option<Text>,
        action: Action,
    ) -> Result<(), NoMemory>
        ensures found { OnOk result (self.new.found ≡ spec.lesser self.old.found (spec.at_line line (spec.code_at self.old.first self.old.code (Ok (action_tree action))))) }
        ensures first { OnOk result (self.new.first ≡ self.old.first) }
        ensures code { OnOk result (self.new.code ≡ spec.code_after self.old.code (action_tree action)) }
        ensures uses { OnOk result (self.new.uses.items ≡ self.old.uses.items ++ spec.action_uses line (action_tree action)) }
        ensures stmts { OnOk result (map spec.stmt_said self.new.stmts.items ≡ map spec.stmt_said self.old.stmts.items ++ record { line = line; label = label; action = Ok (action_tree action) } ∷ []) }
    {
        push_action(&mut self.uses, alloc, line, &action)?;
        let code = place_code(self.first, self.code, &action);
        self.found = lesser(self.found, at_line(line, code));
        self.code = code_after(self.code, &action);
        self.stmts.push(Stmt {
            line,
            label,
            action,
        })?;
        Ok(())
    }

    fn take_words(&mut self, alloc: Global, line: &Line) -> Result<(), NoMemory>
        ensures found { OnOk result (self.new.found ≡ spec.lesser self.old.found (spec.at_line line.now.number (spec.code_at self.old.first self.old.code (statement_in line.now.tokens)))) }
        ensures first { OnOk result (self.new.first ≡ false) }
        ensures code { OnOk result (self.new.code ≡ spec.code_behind self.old.code (statement_in line.now.tokens)) }
        ensures uses { OnOk result (self.new.uses.items ≡ self.old.uses.items ++ spec.uses_of (spec.said line.now)) }
        ensures stmts { OnOk result (self.new.found ≡ None → map spec.stmt_said self.new.stmts.items ≡ map spec.stmt_said self.old.stmts.items ++ spec.said line.now ∷ []) }
    {
        let tokens = line.tokens.as_slice();
        let label = read_label(alloc, tokens)?;
        push_label(&mut self.uses, alloc, line.number, &label)?;
        match read_statement(alloc, tokens)? {
            Ok(action) => {
                self.take_statement(alloc, line.number, label, action)?;
            }
            Err(code) => {
                self.found = lesser(self.found, at_line(line.number, Some(code)));
            }
        }
        self.first = false;
        Ok(())
    }

    fn take_line(&mut self, alloc: Global, line: &Line) -> Result<(), NoMemory>
        ensures { OnOk result ((rest all : List Line) → IsReading self.old (line.now ∷ rest) all → IsReading self.new rest all) }
    {
        if line.tokens.as_slice().is_empty() {
            return Ok(());
        }
        self.take_words(alloc, line)?;
        Ok(())
    }
}

fn read(alloc: Global, lines: &[Line]) -> Result<Pass, NoMemory>
    ensures { IfOk result (λ p. IsReading p [] lines.now) }
{
    let mut pass = Pass {
        stmts: Vec::new(alloc),
        found: None,
        first: true,
        code: true,
        uses: Vec::new(alloc),
    };
    for line in lines {
        pass.take_line(alloc, line)?;
    }
    Ok(pass)
}

/// The statements of the lines, blank lines left out, or their first fault: of the least line the least code. Codes: 1
/// where a line is no statement, 6 where it defines a name that an earlier one defines (but SET may follow SET), 8 where
/// it brings a name after 16,384 others, 14 where it has not the form of its statement, 18 for an instruction or data
/// where the segment is not CSEG, 20 where it gives a name that is not defined, 21 where it takes a name that is defined
/// or taken before, 23 where MODULE is not the first statement. The lines are those of a text in which macros, repetitions
/// and conditions are replaced: a line of one of these has code 14. (MCS-96 Macro Assembler User's Guide, "Assembler
/// Directives"; forms and codes are this kit's own.)
pub fn statements(alloc: Global, lines: &[Line]) -> Result<Vec<Stmt>, SourceFault>
    ensures { spec.IsStatements result lines.now }
{
    let pass = read(alloc, lines)?;
    let Pass {
        stmts,
        found,
        first: _,
        code: _,
        uses,
    } = pass;
    let names = name_fault(alloc, &uses)?;
    match lesser(found, names) {
        Some(fault) => Err(SourceFault::from(fault)),
        None => Ok(stmts),
    }
}
