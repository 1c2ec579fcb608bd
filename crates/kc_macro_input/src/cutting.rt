ghost use Rattle.std.specs.Prelude.{◌≡◌, ◌≤◌, ◌<◌, ◌+◌, ◌^◌, ◌&&◌, ◌==◌, ◌++◌, [], ◌∷◌, length, IfOk};
ghost use Rattle.kc_macro_body.specs.Words as words;
ghost use Rattle.kc_macro_input.specs.Pieces as pieces;
ghost use Rattle.kc_macro_input.specs.Cuts as cuts;
ghost use Rattle.kc_macro_input.specs.declared.piece.Extent.TheVariants as extents;

use crate::ahead::Ahead;
use crate::piece::{Extent, Piece};
use kc_base::NoMemory;
use kc_lex::Tokens;
use kc_macro_body::Word;
use kc_macro_body::words::word_of;
use std::alloc::Global;

fn word_at(tokens: &Option<Tokens>) -> Word
    ensures { result ≡ pieces.word_at tokens.now }
{
    match tokens {
        None => Word::Other,
        Some(tokens) => word_of(tokens.as_slice()),
    }
}

fn opens(extent: Extent, word: Word) -> bool
    ensures { result ≡ cuts.opens extent word }
{
    match extent {
        Extent::Body => matches!(word, Word::Macro | Word::Rept | Word::Irp),
        Extent::Part | Extent::Condition => matches!(word, Word::If),
    }
}

fn is_endif(word: Word) -> bool
    ensures { result ≡ words.is_endif word }
{
    matches!(word, Word::Endif)
}

fn is_else(word: Word) -> bool
    ensures { result ≡ words.is_else word }
{
    matches!(word, Word::Else)
}

fn closes(extent: Extent, word: Word) -> bool
    ensures { result ≡ cuts.closes extent word }
{
    match extent {
        Extent::Body => matches!(word, Word::Endm),
        Extent::Part | Extent::Condition => is_endif(word),
    }
}

fn ends(extent: Extent, word: Word) -> bool
    ensures { result ≡ cuts.ends extent word }
{
    match extent {
        Extent::Body => matches!(word, Word::Endm),
        Extent::Part => is_endif(word) || is_else(word),
        Extent::Condition => is_endif(word),
    }
}

// Whether a piece ends a text, in which so many inner ones are open.
fn ends_here(extent: Extent, piece: &Piece, depth: usize) -> bool
    ensures { result ≡ (cuts.ends extent (pieces.word_at piece.now.tokens) && (depth == 0)) }
{
    ends(extent, word_at(&piece.tokens)) && depth == 0
}

fn depth_after(extent: Extent, piece: &Piece, depth: usize) -> usize
    requires { depth < 2 ^ 63 }
    ensures value { result ≡ cuts.depth_after extent (pieces.word_at piece.now.tokens) depth }
    ensures small { result ≤ depth + 1 }
{
    let word = word_at(&piece.tokens);
    if opens(extent, word) {
        depth + 1
    } else if closes(extent, word) {
        depth.saturating_sub(1)
    } else {
        depth
    }
}

/// Takes off a text, from its beginning on, what stands before the line that ends it, and that line. None where it has no end:
/// then the text is used up.
pub fn cut_off(
    alloc: Global,
    ahead: &mut Ahead,
    extent: Extent,
) -> Result<Option<(Vec<Piece>, Piece)>, NoMemory>
    ensures { IfOk result (λ o. cuts.cut_at extent 0 ahead.old ≡ cuts.seen_cut o ahead.new) }
{
    let mut prefix = Vec::new(alloc);
    let mut depth = 0;
    while let Some(piece) = ahead.next(alloc)? {
        if ends_here(extent, &piece, depth) {
            return Ok(Some((prefix, piece)));
        }
        depth = depth_after(extent, &piece, depth);
        prefix.push(piece)?;
    }
    Ok(None)
}

// Goes on behind an ELSE of an IF that keeps its first part.
fn pass_second(
    alloc: Global,
    ahead: &mut Ahead,
    prefix: Vec<Piece>,
) -> Result<Option<Vec<Piece>>, NoMemory>
    ensures { IfOk result (λ o. cuts.second_part prefix.items (cuts.cut_at extents.Part 0 ahead.old) ≡ cuts.seen_kept o ahead.new) }
{
    let mut prefix = prefix;
    match cut_off(alloc, ahead, Extent::Part)? {
        None => Ok(None),
        Some((_, ender)) => {
            if is_endif(word_at(&ender.tokens)) {
                return Ok(Some(prefix));
            }
            prefix.push(ender)?;
            match cut_off(alloc, ahead, Extent::Condition)? {
                None => Ok(None),
                Some(_) => Ok(Some(prefix)),
            }
        }
    }
}

/// Takes an IF with its ENDIF off a text, and gives the lines that it keeps.
#[tactic(auto, unfolding(crate::specs::Cuts::kept))]
pub fn keep(alloc: Global, ahead: &mut Ahead, holds: bool) -> Result<Option<Vec<Piece>>, NoMemory>
    ensures { IfOk result (λ o. cuts.kept holds ahead.old ≡ cuts.seen_kept o ahead.new) }
{
    match cut_off(alloc, ahead, Extent::Part)? {
        None => Ok(None),
        Some((prefix, ender)) => {
            if is_endif(word_at(&ender.tokens)) {
                if holds {
                    Ok(Some(prefix))
                } else {
                    Ok(Some(Vec::new(alloc)))
                }
            } else if holds {
                pass_second(alloc, ahead, prefix)
            } else {
                match cut_off(alloc, ahead, Extent::Condition)? {
                    None => Ok(None),
                    Some((prefix, _)) => Ok(Some(prefix)),
                }
            }
        }
    }
}
