ghost use Rattle.std.specs.Prelude.{◌≡◌, [], ◌∷◌, map, IfOk};
ghost use Rattle.kc_macro_input.specs.declared.piece.Piece.{Piece as PieceOf};
ghost use Rattle.std.specs.List.{filter};
ghost use Rattle.kc_macro_input.specs.Pieces as pieces;
ghost use Rattle.kc_macro_input.specs.Filled as filling;

use crate::piece::{Mark, Marking, Marks, Piece, copy_piece};
use kc_base::NoMemory;
use kc_lex::line_fault::lesser;
use kc_lex::{LineFault, Tokens};
use kc_macro_body::copying::copy_tokens;
use kc_macro_body::filling::filled;
use kc_macro_body::{Formals, Given, Texts};
use std::alloc::Global;

/// The lines of a body, or the first of its faults.
pub type Filled = Result<Vec<Piece>, LineFault>;

/// The lines of a body, each with a mark in front.
pub fn turn_body(alloc: Global, mark: Mark, prefix: &[Piece]) -> Result<Vec<Piece>, NoMemory>
    ensures { IfOk result (λ v. v.items ≡ map (pieces.marked mark) (filter pieces.is_line prefix.now)) }
{
    let mut marking = Marking::new(alloc, mark)?;
    let mut body = Vec::new(alloc);
    for piece in prefix {
        if let Some(tokens) = &piece.tokens {
            let copy = copy_tokens(alloc, tokens.as_slice())?;
            body.push(Piece {
                number: piece.number,
                from: marking.put(alloc, &piece.from)?,
                tokens: Some(copy),
            })?;
        }
    }
    Ok(body)
}

/// The tokens of the lines of a body.
pub fn texts(alloc: Global, prefix: &[Piece]) -> Result<Texts, NoMemory>
    ensures { IfOk result (λ t. t ≡ pieces.texts_of prefix.now) }
{
    let mut texts = Texts::new(alloc);
    for piece in prefix {
        if let Some(tokens) = &piece.tokens {
            texts.push(copy_tokens(alloc, tokens.as_slice())?)?;
        }
    }
    Ok(texts)
}

/// The lines of a macro, with the number of the call and what they come from.
pub fn body_lines(
    alloc: Global,
    number: u32,
    from: &Marks,
    lines: &[Tokens],
) -> Result<Vec<Piece>, NoMemory>
    ensures { IfOk result (λ v. v.items ≡ map (pieces.body_line number from.now) lines.now) }
{
    let mut body = Vec::new(alloc);
    for line in lines {
        let tokens = copy_tokens(alloc, line.as_slice())?;
        body.push(Piece {
            number,
            from: from.copy(alloc)?,
            tokens: Some(tokens),
        })?;
    }
    Ok(body)
}

// Appends a line, or notes its fault.
fn add(body: Filled, piece: Result<Piece, LineFault>) -> Result<Filled, NoMemory>
    ensures { IfOk result (λ r. filling.seen_filled r ≡ filling.together (filling.seen_filled body) (filling.single piece)) }
{
    match body {
        Ok(pieces) => match piece {
            Ok(piece) => {
                let mut pieces = pieces;
                pieces.push(piece)?;
                Ok(Ok(pieces))
            }
            Err(fault) => Ok(Err(fault)),
        },
        Err(first) => match piece {
            Ok(_) => Ok(Err(first)),
            Err(second) => Ok(Err(first.first_of(second))),
        },
    }
}

fn fill_piece(
    alloc: Global,
    formals: &Formals,
    args: &[Tokens],
    given: Given,
    piece: &Piece,
) -> Result<Result<Piece, LineFault>, NoMemory>
    ensures { IfOk result (λ r. r ≡ filling.fill_piece formals.now args.now given piece.now) }
{
    match &piece.tokens {
        None => Ok(Ok(copy_piece(alloc, piece)?)),
        Some(tokens) => match filled(alloc, formals, args, given, tokens.as_slice())? {
            Ok(tokens) => Ok(Ok(Piece {
                number: piece.number,
                from: piece.from.copy(alloc)?,
                tokens: Some(tokens),
            })),
            Err(code) => Ok(Err(LineFault {
                line: piece.number,
                code,
            })),
        },
    }
}

// Appends the lines of a body with the arguments in place of its parameters, or notes the least of its faults.
fn append_filled(
    alloc: Global,
    before: Filled,
    formals: &Formals,
    args: &[Tokens],
    given: Given,
    body: &[Piece],
) -> Result<Filled, NoMemory>
    ensures { IfOk result (λ r. filling.seen_filled r ≡ filling.together (filling.seen_filled before) (filling.fill_body formals.now args.now given body.now)) }
{
    let mut all = before;
    for piece in body {
        let next = fill_piece(alloc, formals, args, given, piece)?;
        all = add(all, next)?;
    }
    Ok(all)
}

/// The lines of a body with the arguments in place of its parameters and the names that follow so many given ones in place
/// of its LOCAL names; or of the first line that has one, the least fault.
#[tactic(auto, using(crate::proofs::FilledLemmas::together_start))]
pub fn fill_body(
    alloc: Global,
    formals: &Formals,
    args: &[Tokens],
    given: Given,
    body: &[Piece],
) -> Result<Filled, NoMemory>
    ensures { IfOk result (λ r. filling.seen_filled r ≡ filling.fill_body formals.now args.now given body.now) }
{
    append_filled(alloc, Ok(Vec::new(alloc)), formals, args, given, body)
}

fn fault_of(filled: &Filled) -> Option<LineFault>
    ensures { result ≡ filling.fault_of (filling.seen_filled filled.now) }
{
    match filled {
        Ok(_) => None,
        Err(fault) => Some(*fault),
    }
}

/// The lines of a body over one argument, or of the first line that has one, the least fault.
pub(crate) fn fill_over(
    alloc: Global,
    formals: &Formals,
    body: &[Piece],
    arg: &Tokens,
) -> Result<Filled, NoMemory>
    ensures { IfOk result (λ r. filling.seen_filled r ≡ filling.fill_body formals.now (arg.now ∷ []) 0 body.now) }
{
    let mut args = Texts::new(alloc);
    args.push(copy_tokens(alloc, arg.as_slice())?)?;
    fill_body(alloc, formals, args.as_slice(), Given::none(), body)
}

/// The least fault of the turns of a body over some arguments, on the first line that has one. No turn is kept.
pub fn turns_fault(
    alloc: Global,
    formals: &Formals,
    body: &[Piece],
    args: &[Tokens],
) -> Result<Option<LineFault>, NoMemory>
    ensures { IfOk result (λ r. (head : PieceOf) → r ≡ filling.fault_of (filling.fill_turns formals.now head body.now args.now)) }
{
    let mut found = None;
    for arg in args {
        let turn = fill_over(alloc, formals, body, arg)?;
        found = lesser(found, fault_of(&turn));
    }
    Ok(found)
}
