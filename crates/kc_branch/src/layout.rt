//! Pieces with their forms, as a tree: places are found and forms are changed on the way from its root to a leaf.

ghost use Rattle.std.specs.Prelude.{◌≡◌, ◌+◌, ◌*◌, ◌<◌, ◌≤◌, ◌^◌, ◌++◌, ℕ, length, slice_index, IfOk, OnOk};
ghost use Rattle.kc_branch.specs.Forms as spec;
ghost use Rattle.kc_branch.specs.Layouts as layouts;

use crate::piece::{Form, Piece};
use crate::stretch::{Stretch, end_from, end_of, joined, of_piece};
use kc_base::NoMemory;
use std::alloc::Global;

// Each side of a fork is one of the two halves of its pieces.
#[derive(Drop)]
pub(crate) enum Layout {
    Leaf(Piece, Form, Stretch),
    Fork(Box<Layout>, Stretch, Box<Layout>),
}

impl Layout {
    pub(crate) fn known(&self) -> Stretch
        requires laid { layouts.IsLaid self.now }
        ensures value { result ≡ layouts.known self.now }
        ensures count { result.count ≡ length (layouts.items self.now) }
    {
        match self {
            Layout::Leaf(_, _, known) => *known,
            Layout::Fork(_, known, _) => *known,
        }
    }

    // The place before the piece `index`, or behind the last piece, where the first is at `here`; 0 past that.
    pub(crate) fn place(&self, here: u128, index: usize) -> u128
        requires laid { layouts.IsLaid self.now }
        requires fits { here + 65536 * length (layouts.items self.now) < 2 ^ 80 }
        ensures value { result ≡ slice_index (layouts.stands (layouts.items self.now) here) index }
        ensures bound { result ≤ here + 65536 * length (layouts.items self.now) }
    {
        match self {
            Layout::Leaf(piece, form, _) => match index {
                0 => here,
                1 => end_of(piece, *form, here),
                _ => 0,
            },
            Layout::Fork(left, _, right) => {
                let known = left.known();
                if index < known.count {
                    left.place(here, index)
                } else {
                    right.place(end_from(&known, here), index - known.count)
                }
            }
        }
    }

    // Whether a piece from `from` to before `to` is changed.
    pub(crate) fn is_changed(&self, from: usize, to: usize) -> bool
        requires laid { layouts.IsLaid self.now }
        ensures { result ≡ layouts.any_in (layouts.changed self.now) from to }
    {
        match self {
            Layout::Leaf(_, _, known) => known.changed && from == 0 && 0 < to,
            Layout::Fork(left, known, right) => {
                if !known.changed || known.count <= from || to == 0 {
                    return false;
                }
                let count = left.known().count;
                left.is_changed(from, to)
                    || right.is_changed(from.saturating_sub(count), to.saturating_sub(count))
            }
        }
    }

    // Puts the forms of the branches behind those of a list.
    pub(crate) fn push_forms(&self, forms: &mut Vec<Form>) -> Result<(), NoMemory>
        ensures { OnOk result (forms.new.items ≡ forms.old.items ++ layouts.forms_of (layouts.items self.now)) }
    {
        match self {
            Layout::Leaf(piece, form, _) => {
                if is_branch(piece) {
                    forms.push(*form)?;
                }
                Ok(())
            }
            Layout::Fork(left, _, right) => {
                left.push_forms(forms)?;
                right.push_forms(forms)?;
                Ok(())
            }
        }
    }
}

pub(crate) fn is_branch(piece: &Piece) -> bool
    ensures { result ≡ spec.is_branch piece.now }
{
    matches!(piece, Piece::Branch { .. })
}

// The form with which a branch begins.
fn start_form(piece: &Piece) -> Form
    ensures { result ≡ spec.start_form piece.now }
{
    match *piece {
        Piece::Branch { target: None, .. } => Form::Third,
        _ => Form::First,
    }
}

fn fork(alloc: Global, left: Layout, right: Layout) -> Result<Layout, NoMemory>
    requires first { layouts.IsLaid left }
    requires second { layouts.IsLaid right }
    requires few { length (layouts.items left) + length (layouts.items right) < 2 ^ 63 }
    ensures items { IfOk result (λ t. layouts.items t ≡ layouts.items left ++ layouts.items right) }
    ensures changed { IfOk result (λ t. layouts.changed t ≡ layouts.changed left ++ layouts.changed right) }
    ensures laid { IfOk result layouts.IsLaid }
    ensures spanned { IfOk result (λ t. (n k : ℕ) → layouts.IsSpanned n left k → layouts.IsSpanned n right (k + length (layouts.items left)) → layouts.IsSpanned n t k) }
{
    let known = joined(&left.known(), &right.known());
    let left = Box::new(alloc, left)?;
    let right = Box::new(alloc, right)?;
    Ok(Layout::Fork(left, known, right))
}

// The layout with which the passes begin, where the first of `pieces` is the piece `at` of `count`.
pub(crate) fn start(
    alloc: Global,
    pieces: &[Piece],
    at: usize,
    count: usize,
) -> Result<Layout, NoMemory>
    requires some { 0 < length pieces.now }
    requires few { at + length pieces.now < 2 ^ 63 }
    ensures items { IfOk result (λ t. layouts.items t ≡ layouts.begun pieces.now) }
    ensures changed { IfOk result (λ t. layouts.changed t ≡ layouts.all_changed pieces.now) }
    ensures laid { IfOk result layouts.IsLaid }
    ensures spanned { IfOk result (λ t. layouts.IsSpanned count t at) }
{
    if pieces.len() == 1 {
        let piece = pieces[0];
        let form = start_form(&piece);
        return Ok(Layout::Leaf(piece, form, of_piece(&piece, form, at, count, true)));
    }
    let half = pieces.len() / 2;
    let left = start(alloc, &pieces[..half], at, count)?;
    let right = start(alloc, &pieces[half..], at + half, count)?;
    let layout = fork(alloc, left, right)?;
    Ok(layout)
}
