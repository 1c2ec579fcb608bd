ghost use Rattle.std.specs.Prelude.{◌≡◌, [], ◌∷◌, ◌++◌, ◌<◌, true, map, IfOk, length, drop};
ghost use Rattle.std.specs.Option.{IfNone};
ghost use Rattle.std.specs.List.{list_all};
ghost use Rattle.kc_macro_input.specs.Ahead.{flat, taken, put_back, pieces_of};
ghost use Rattle.kc_macro_input.specs.Filled as filling;
ghost use Rattle.kc_macro_input.specs.Filled.{turns_over};
ghost use Rattle.kc_macro_input.specs.Pieces.{first_piece, left_out, repeated, marked, comes_from};

use crate::bodies::{Filled, fill_over};
use crate::piece::{Mark, Marking, Marks, Piece, copy_piece, copy_pieces};
use kc_base::NoMemory;
use kc_lex::Line;
use kc_macro_body::{Formals, Texts};
use std::alloc::Global;
use std::marker::Model;

/// A repetition over some arguments: each turn is the head, and then the body with the argument in place of its parameter.
#[derive(Drop)]
pub struct Over {
    pub formals: Formals,
    pub head: Piece,
    pub body: Vec<Piece>,
    pub args: Texts,
}

/// A piece, the turns of a repetition that are not yet read, each the head and then the body, or those of a repetition over
/// some arguments, from the argument with this number on.
#[derive(Drop)]
pub enum Held {
    One(Piece),
    Turns {
        head: Piece,
        body: Vec<Piece>,
        left: u16,
    },
    Over {
        over: Over,
        next: usize,
    },
}

/// The text that is still to be read, as a stack of which the last element comes first.
#[derive(Drop)]
pub struct Ahead {
    stack: Vec<Held>,
}

impl Model for Ahead {
    ghost use Rattle.std.specs.Prelude.{List};
    ghost use Rattle.kc_macro_input.specs.declared.piece.Piece.{Piece};

    ghost Value = { List Piece };

    ghost use Rattle.kc_macro_input.specs.Ahead.{flat};

    ghost view = { λ a. flat a.stack.items };
}

// Puts pieces in front of a text.
#[tactic(auto, using(crate::proofs::AheadLemmas::flat_push))]
fn put_pieces(stack: &mut Vec<Held>, pieces: Vec<Piece>) -> Result<(), NoMemory>
    ensures { IfOk result (λ _. flat stack.new.items ≡ pieces.items ++ flat stack.old.items) }
{
    let mut pieces = pieces;
    while let Some(piece) = pieces.pop() {
        stack.push(Held::One(piece))?;
    }
    Ok(())
}

// Puts pieces in front of a text, each with a mark more.
fn put_marked_pieces(
    alloc: Global,
    stack: &mut Vec<Held>,
    mark: Mark,
    pieces: Vec<Piece>,
) -> Result<(), NoMemory>
    ensures { IfOk result (λ _. flat stack.new.items ≡ map (marked mark) pieces.items ++ flat stack.old.items) }
{
    let mut marking = Marking::new(alloc, mark)?;
    let mut pieces = pieces;
    while let Some(piece) = pieces.pop() {
        let from = marking.put(alloc, &piece.from)?;
        stack.push(Held::One(Piece {
            number: piece.number,
            from,
            tokens: piece.tokens,
        }))?;
    }
    Ok(())
}

// Puts lines of the source in front of a text.
fn put_lines(alloc: Global, stack: &mut Vec<Held>, lines: Vec<Line>) -> Result<(), NoMemory>
    ensures { IfOk result (λ _. flat stack.new.items ≡ map first_piece lines.items ++ flat stack.old.items) }
{
    let none = Marks::new(alloc)?;
    let mut lines = lines;
    while let Some(line) = lines.pop() {
        stack.push(Held::One(Piece {
            number: line.number,
            from: none.copy(alloc)?,
            tokens: Some(line.tokens),
        }))?;
    }
    Ok(())
}

// Takes the first piece off a text.
#[tactic(auto, using(crate::proofs::AheadLemmas::flat_popped))]
fn take(alloc: Global, stack: &mut Vec<Held>) -> Result<Option<Piece>, NoMemory>
    ensures text { IfOk result (λ o. flat stack.old.items ≡ put_back o (flat stack.new.items)) }
    ensures none { IfOk result (λ o. IfNone o (flat stack.new.items ≡ [])) }
{
    while let Some(held) = stack.pop() {
        if let Some(first) = take_off(alloc, stack, held)? {
            return Ok(Some(first));
        }
    }
    Ok(None)
}

// Takes the first piece off an element, if it stands for any, and puts what is left of it in front of a text.
fn take_off(alloc: Global, stack: &mut Vec<Held>, held: Held) -> Result<Option<Piece>, NoMemory>
    ensures text { IfOk result (λ o. taken o ++ flat stack.new.items ≡ pieces_of held ++ flat stack.old.items) }
    ensures none { IfOk result (λ o. IfNone o (stack.new.items ≡ stack.old.items)) }
{
    match held {
        Held::One(piece) => Ok(Some(piece)),
        Held::Turns { head, body, left } => take_turn(alloc, stack, head, body, left),
        Held::Over { over, next } => take_next(alloc, stack, over, next),
    }
}

// Begins the first of the turns that are left.
#[tactic(auto, using(crate::proofs::AheadLemmas::no_turn))]
fn take_turn(
    alloc: Global,
    stack: &mut Vec<Held>,
    head: Piece,
    body: Vec<Piece>,
    left: u16,
) -> Result<Option<Piece>, NoMemory>
    ensures text { IfOk result (λ o. taken o ++ flat stack.new.items ≡ repeated left (head ∷ body.items) ++ flat stack.old.items) }
    ensures none { IfOk result (λ o. IfNone o (stack.new.items ≡ stack.old.items)) }
{
    if left == 0 {
        return Ok(None);
    }
    let first = copy_piece(alloc, &head)?;
    put_turn(alloc, stack, head, body, left)?;
    Ok(Some(first))
}

// Begins the turn over the argument with this number, if there is one.
#[tactic(auto, using(crate::proofs::AheadLemmas::no_over))]
fn take_next(
    alloc: Global,
    stack: &mut Vec<Held>,
    over: Over,
    next: usize,
) -> Result<Option<Piece>, NoMemory>
    ensures text { IfOk result (λ o. taken o ++ flat stack.new.items ≡ turns_over over.formals over.head over.body.items (drop next over.args) ++ flat stack.old.items) }
    ensures none { IfOk result (λ o. IfNone o (stack.new.items ≡ stack.old.items)) }
{
    if next >= over.args.as_slice().len() {
        return Ok(None);
    }
    let first = copy_piece(alloc, &over.head)?;
    put_next(alloc, stack, over, next)?;
    Ok(Some(first))
}

fn lines_of(alloc: Global, filled: Filled) -> Vec<Piece>
    ensures { result.items ≡ filling.lines_of (filling.seen_filled filled) }
{
    match filled {
        Ok(lines) => lines,
        Err(_) => Vec::new(alloc),
    }
}

// Puts the body of a turn over an argument in front of a text, and before that the turns over those after it.
#[tactic(auto, using(crate::proofs::AheadLemmas::one_over))]
fn put_next(alloc: Global, stack: &mut Vec<Held>, over: Over, next: usize) -> Result<(), NoMemory>
    requires { next < length over.args }
    ensures { IfOk result (λ _. over.head ∷ flat stack.new.items ≡ turns_over over.formals over.head over.body.items (drop next over.args) ++ flat stack.old.items) }
{
    let arg = &over.args.as_slice()[next];
    let turn = fill_over(alloc, &over.formals, over.body.as_slice(), arg)?;
    let lines = lines_of(alloc, turn);
    put_held(
        stack,
        Held::Over {
            over,
            next: next + 1,
        },
    )?;
    put_pieces(stack, lines)
}

// Puts the body of a turn in front of a text, and before that the turns that are left after it.
#[tactic(auto, using(crate::proofs::AheadLemmas::flat_push, crate::proofs::AheadLemmas::one_turn))]
fn put_turn(
    alloc: Global,
    stack: &mut Vec<Held>,
    head: Piece,
    body: Vec<Piece>,
    left: u16,
) -> Result<(), NoMemory>
    requires { 0 < left }
    ensures { IfOk result (λ _. head ∷ flat stack.new.items ≡ repeated left (head ∷ body.items) ++ flat stack.old.items) }
{
    let turn = copy_pieces(alloc, body.as_slice())?;
    stack.push(Held::Turns {
        head,
        body,
        left: left - 1,
    })?;
    put_pieces(stack, turn)
}

// Puts turns in front of a text, which are made when they are read.
#[tactic(auto, using(crate::proofs::AheadLemmas::no_turn))]
fn put_later(
    alloc: Global,
    stack: &mut Vec<Held>,
    head: Piece,
    body: &[Piece],
    left: u16,
) -> Result<(), NoMemory>
    ensures { IfOk result (λ _. flat stack.new.items ≡ repeated left (head ∷ body.now) ++ flat stack.old.items) }
{
    if left == 0 {
        return Ok(());
    }
    let body = copy_pieces(alloc, body)?;
    put_held(stack, Held::Turns { head, body, left })
}

// Whether all that an element stands for comes from a call or repetition.
#[tactic(auto, using(crate::proofs::AheadLemmas::all_turns, crate::proofs::AheadLemmas::all_over))]
fn all_from(held: &Held, mark: Mark) -> bool
    ensures { result ≡ true → list_all (comes_from mark) (pieces_of held.now) ≡ true }
{
    match held {
        Held::One(piece) => piece.from.has(mark),
        Held::Turns { head, body, .. } => head.from.has(mark) && all_pieces(body.as_slice(), mark),
        Held::Over { over, .. } => {
            over.head.from.has(mark) && all_pieces(over.body.as_slice(), mark)
        }
    }
}

fn all_pieces(pieces: &[Piece], mark: Mark) -> bool
    ensures { result ≡ list_all (comes_from mark) pieces.now }
{
    pieces.iter().all(|piece| piece.from.has(mark))
}

// Takes off the elements in front that come from a call or repetition as a whole, without a look at their turns.
fn leave_whole(stack: &mut Vec<Held>, mark: Mark) -> Result<(), NoMemory>
    ensures { IfOk result (λ _. left_out mark (flat stack.new.items) ≡ left_out mark (flat stack.old.items)) }
{
    while let Some(held) = stack.pop() {
        if all_from(&held, mark) {
            continue;
        }
        put_held(stack, held)?;
        return Ok(());
    }
    Ok(())
}

// Takes off the pieces in front that come from a call or repetition.
fn leave_pieces(alloc: Global, stack: &mut Vec<Held>, mark: Mark) -> Result<(), NoMemory>
    ensures { IfOk result (λ _. flat stack.new.items ≡ left_out mark (flat stack.old.items)) }
{
    leave_whole(stack, mark)?;
    while let Some(piece) = take(alloc, stack)? {
        if piece.from.has(mark) {
            continue;
        }
        put_held(stack, Held::One(piece))?;
        return Ok(());
    }
    Ok(())
}

#[tactic(auto, using(crate::proofs::AheadLemmas::flat_push))]
fn put_held(stack: &mut Vec<Held>, held: Held) -> Result<(), NoMemory>
    ensures { IfOk result (λ _. flat stack.new.items ≡ pieces_of held ++ flat stack.old.items) }
{
    stack.push(held)?;
    Ok(())
}

impl Ahead {
    /// No text.
    #[tactic(auto, unfolding(crate::specs::Ahead::flat))]
    pub fn new(alloc: Global) -> Ahead
        ensures { result ≡ [] }
    {
        Ahead {
            stack: Vec::new(alloc),
        }
    }

    /// Takes the first piece off.
    pub fn next(&mut self, alloc: Global) -> Result<Option<Piece>, NoMemory>
        ensures { IfOk result (λ o. self.old ≡ put_back o self.new) }
    {
        take(alloc, &mut self.stack)
    }

    /// Puts pieces in front.
    pub fn put(&mut self, pieces: Vec<Piece>) -> Result<(), NoMemory>
        ensures { IfOk result (λ _. self.new ≡ pieces.items ++ self.old) }
    {
        put_pieces(&mut self.stack, pieces)
    }

    /// Takes off the pieces in front that come from a call or repetition.
    pub fn leave_out(&mut self, alloc: Global, mark: Mark) -> Result<(), NoMemory>
        ensures { IfOk result (λ _. self.new ≡ left_out mark self.old) }
    {
        leave_pieces(alloc, &mut self.stack, mark)
    }

    /// Puts one piece in front.
    pub fn put_one(&mut self, piece: Piece) -> Result<(), NoMemory>
        ensures { IfOk result (λ _. self.new ≡ piece ∷ self.old) }
    {
        put_held(&mut self.stack, Held::One(piece))
    }

    /// Puts lines of the source in front.
    pub fn put_source(&mut self, alloc: Global, lines: Vec<Line>) -> Result<(), NoMemory>
        ensures { IfOk result (λ _. self.new ≡ map first_piece lines.items ++ self.old) }
    {
        put_lines(alloc, &mut self.stack, lines)
    }

    /// Puts pieces in front, each with a mark more.
    pub fn put_marked(
        &mut self,
        alloc: Global,
        mark: Mark,
        pieces: Vec<Piece>,
    ) -> Result<(), NoMemory>
        ensures { IfOk result (λ _. self.new ≡ map (marked mark) pieces.items ++ self.old) }
    {
        put_marked_pieces(alloc, &mut self.stack, mark, pieces)
    }

    /// Puts so many turns in front, each the head and then the body.
    pub fn put_turns(
        &mut self,
        alloc: Global,
        head: Piece,
        body: &[Piece],
        left: u16,
    ) -> Result<(), NoMemory>
        ensures { IfOk result (λ _. self.new ≡ repeated left (head ∷ body.now) ++ self.old) }
    {
        put_later(alloc, &mut self.stack, head, body, left)
    }

    /// Puts turns over some arguments in front, which are made when they are read. A turn that has a fault has no lines.
    pub fn put_over(&mut self, over: Over) -> Result<(), NoMemory>
        ensures { IfOk result (λ _. self.new ≡ turns_over over.formals over.head over.body.items over.args ++ self.old) }
    {
        put_held(&mut self.stack, Held::Over { over, next: 0 })
    }
}
