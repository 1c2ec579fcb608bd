ghost use Rattle.std.specs.Prelude.{◌≡◌, true, [], ◌∷◌, count_by, IfOk};
ghost use Rattle.std.specs.List.{list_any};
ghost use Rattle.kc_macro_input.specs.Pieces.{is_call, is_if, same_mark, innermost};

use kc_base::NoMemory;
use kc_lex::Tokens;
use kc_macro_body::copying::copy_tokens;
use std::alloc::Global;
use std::marker::Model;
use std::rc::Rc;

/// From what a line comes: a macro call or a repetition, each with a number of its own, or an IF.
#[derive(Clone, Copy)]
pub enum Mark {
    Call(u32),
    Turns(u32),
    If,
}

/// The calls, repetitions and IFs from which a line comes, the innermost first. Lines that come from the same ones share
/// them.
#[derive(Drop)]
pub struct Marks {
    items: Rc<Vec<Mark>>,
}

impl Model for Marks {
    ghost use Rattle.std.specs.Prelude.{List};
    ghost use Rattle.kc_macro_input.specs.declared.piece.Mark.{Mark};

    ghost Value = { List Mark };

    ghost view = { λ m. m.items.value.items };
}

/// A line of the text that is still to be read, or with no tokens the place where a turn of a repetition begins.
#[derive(Drop)]
pub struct Piece {
    pub number: u32,
    pub from: Marks,
    pub tokens: Option<Tokens>,
}

/// What is taken off the text: a body up to its ENDM, the part of an IF up to its ELSE or ENDIF, or all up to its ENDIF.
#[derive(Clone, Copy, PartialEq, Eq)]
pub enum Extent {
    Body,
    Part,
    Condition,
}

fn is_call_mark(mark: Mark) -> bool
    ensures { result ≡ is_call mark }
{
    matches!(mark, Mark::Call(_))
}

fn is_if_mark(mark: Mark) -> bool
    ensures { result ≡ is_if mark }
{
    matches!(mark, Mark::If)
}

fn same(a: Mark, b: Mark) -> bool
    ensures { result ≡ same_mark a b }
{
    match (a, b) {
        (Mark::Call(m), Mark::Call(n)) => m == n,
        (Mark::Turns(m), Mark::Turns(n)) => m == n,
        (Mark::If, Mark::If) => true,
        _ => false,
    }
}

fn count_calls(marks: &[Mark]) -> usize
    ensures { result ≡ count_by is_call marks.now }
{
    marks.iter().filter(|m| is_call_mark(**m)).count()
}

fn count_ifs(marks: &[Mark]) -> usize
    ensures { result ≡ count_by is_if marks.now }
{
    marks.iter().filter(|m| is_if_mark(**m)).count()
}

fn has_mark(marks: &[Mark], mark: Mark) -> bool
    ensures { result ≡ list_any (same_mark mark) marks.now }
{
    marks.iter().any(|m| same(mark, *m))
}

fn first_text(marks: &[Mark]) -> Option<Mark>
    ensures { result ≡ innermost marks.now }
{
    match marks {
        [] => None,
        [first, rest @ ..] => {
            if is_if_mark(*first) {
                first_text(rest)
            } else {
                Some(*first)
            }
        }
    }
}

// Whether two lists of marks are the same.
fn are_same(first: &[Mark], second: &[Mark]) -> bool
    ensures same { result ≡ true → first.now ≡ second.now }
    ensures equal { first.now ≡ second.now → result ≡ true }
{
    if first.len() != second.len() {
        return false;
    }
    let mut at = 0;
    while at < first.len() && at < second.len() {
        if !same(first[at], second[at]) {
            return false;
        }
        at += 1;
    }
    true
}

fn put_first(alloc: Global, mark: Mark, marks: &[Mark]) -> Result<Vec<Mark>, NoMemory>
    ensures { IfOk result (λ v. v.items ≡ mark ∷ marks.now) }
{
    let mut items = Vec::new(alloc);
    items.push(mark)?;
    items.extend_from_slice(marks)?;
    Ok(items)
}

impl Marks {
    /// A line of the source comes from nothing.
    pub fn new(alloc: Global) -> Result<Marks, NoMemory>
        ensures { IfOk result (λ m. m ≡ []) }
    {
        let items = Rc::new(alloc, Vec::new(alloc))?;
        Ok(Marks { items })
    }

    /// A copy of these marks: shared, or, where no more lines can share them, in a list of its own.
    pub fn copy(&self, alloc: Global) -> Result<Marks, NoMemory>
        ensures { IfOk result (λ m. m ≡ self.now) }
    {
        let items = match self.items.clone() {
            Ok(items) => items,
            Err(_) => Rc::new(alloc, Vec::from_slice(alloc, self.items.as_slice())?)?,
        };
        Ok(Marks { items })
    }

    /// These marks, with a mark in front.
    pub fn with(&self, alloc: Global, mark: Mark) -> Result<Marks, NoMemory>
        ensures { IfOk result (λ m. m ≡ mark ∷ self.now) }
    {
        let items = put_first(alloc, mark, self.items.as_slice())?;
        let items = Rc::new(alloc, items)?;
        Ok(Marks { items })
    }

    /// The marks, the innermost first.
    pub fn as_slice(&self) -> &[Mark]
        ensures { result.now ≡ self.now }
    {
        self.items.as_slice()
    }

    /// Whether these are the same marks.
    pub fn is_same(&self, other: &Marks) -> bool
        ensures same { result ≡ true → self.now ≡ other.now }
        ensures equal { self.now ≡ other.now → result ≡ true }
    {
        are_same(self.items.as_slice(), other.items.as_slice())
    }

    /// In how many macro calls the line stands.
    pub fn calls(&self) -> usize
        ensures { result ≡ count_by is_call self.now }
    {
        count_calls(self.items.as_slice())
    }

    /// In how many IFs the line stands.
    pub fn ifs(&self) -> usize
        ensures { result ≡ count_by is_if self.now }
    {
        count_ifs(self.items.as_slice())
    }

    /// Whether the line comes from this one.
    pub fn has(&self, mark: Mark) -> bool
        ensures { result ≡ list_any (same_mark mark) self.now }
    {
        has_mark(self.items.as_slice(), mark)
    }

    /// The innermost call or repetition.
    pub fn innermost(&self) -> Option<Mark>
        ensures { result ≡ innermost self.now }
    {
        first_text(self.items.as_slice())
    }
}

fn copy_text(alloc: Global, tokens: &Option<Tokens>) -> Result<Option<Tokens>, NoMemory>
    ensures { IfOk result (λ t. t ≡ tokens.now) }
{
    match tokens {
        None => Ok(None),
        Some(tokens) => {
            let copy = copy_tokens(alloc, tokens.as_slice())?;
            Ok(Some(copy))
        }
    }
}

/// A copy of a piece, which shares its marks where it can.
pub fn copy_piece(alloc: Global, piece: &Piece) -> Result<Piece, NoMemory>
    ensures { IfOk result (λ p. p ≡ piece.now) }
{
    let from = piece.from.copy(alloc)?;
    let tokens = copy_text(alloc, &piece.tokens)?;
    Ok(Piece {
        number: piece.number,
        from,
        tokens,
    })
}

/// Copies of pieces, which share their marks where they can.
pub fn copy_pieces(alloc: Global, pieces: &[Piece]) -> Result<Vec<Piece>, NoMemory>
    ensures { IfOk result (λ v. v.items ≡ pieces.now) }
{
    let mut copy = Vec::new(alloc);
    for piece in pieces {
        copy.push(copy_piece(alloc, piece)?)?;
    }
    Ok(copy)
}

/// Puts a mark in front of the marks of one line after the other, of which most have the same.
#[derive(Drop)]
pub struct Marking {
    mark: Mark,
    before: Marks,
    after: Marks,
}

impl Model for Marking {
    ghost use Rattle.std.specs.Prelude.{◌≡◌, ◌∷◌};
    ghost use Rattle.kc_macro_input.specs.declared.piece.Mark.{Mark};

    ghost Value = { Mark };

    ghost view = { λ m. m.mark };

    ghost invariant = { λ m. m.after ≡ m.mark ∷ m.before };
}

impl Marking {
    /// Puts this mark in front.
    pub fn new(alloc: Global, mark: Mark) -> Result<Marking, NoMemory>
        ensures { IfOk result (λ m. m ≡ mark) }
    {
        let before = Marks::new(alloc)?;
        let after = before.with(alloc, mark)?;
        Ok(Marking {
            mark,
            before,
            after,
        })
    }

    /// The marks of a line, with the mark in front.
    pub fn put(&mut self, alloc: Global, from: &Marks) -> Result<Marks, NoMemory>
        ensures marks { IfOk result (λ m. m ≡ self.old ∷ from.now) }
        ensures kept { IfOk result (λ _. self.new ≡ self.old) }
    {
        if self.before.is_same(from) {
            return self.after.copy(alloc);
        }
        let after = from.with(alloc, self.mark)?;
        let copy = after.copy(alloc)?;
        self.before = from.copy(alloc)?;
        self.after = after;
        Ok(copy)
    }
}
