//! Passes, each over the branches on which the one before bears.

ghost use Rattle.std.specs.Prelude.{◌≡◌, ℕ, ◌+◌, ◌*◌, ◌<◌, ◌≤◌, ◌^◌, true, length, slice_index, IfOk};
ghost use Rattle.kc_branch.specs.declared.relaxation.Raises.TheVariants.{Keep};
ghost use Rattle.kc_branch.specs.Forms as spec;
ghost use Rattle.kc_branch.specs.Laws as laws;
ghost use Rattle.kc_branch.specs.Layouts as layouts;

use crate::branch::{away, is_free, longer, spans};
use crate::layout::{Layout, is_branch, start};
use crate::piece::{BranchKind, Form, Piece};
use crate::stretch::{Stretch, end_from, end_of, joined, of_piece, only_moves};
use kc_base::NoMemory;
use std::alloc::Global;

// Whether the branch at the index `at` reaches its target.
#[tactic(auto, using(crate::proofs::Resting::free_spans))]
fn reaches(
    layout: &Layout,
    kind: BranchKind,
    target: Option<(u32, i16)>,
    form: Form,
    at: usize,
) -> bool
    requires laid { layouts.IsLaid layout.now }
    requires few { length (layouts.items layout.now) < 2 ^ 63 }
    requires within { at < 2 ^ 63 }
    ensures { let places = layouts.stands (layouts.items layout.now) 0 in result ≡ spec.reaches places kind target form (slice_index places (at + 1)) }
{
    match target {
        None => matches!(form, Form::Third),
        Some((index, distance)) => {
            is_free(kind, form)
                || spans(
                    kind,
                    form,
                    away(
                        layout.place(0, index as usize),
                        distance,
                        layout.place(0, at + 1),
                    ),
                )
        }
    }
}

// The same of a piece; one that is no branch has nothing to reach.
fn piece_reaches(layout: &Layout, piece: &Piece, form: Form, at: usize) -> bool
    requires laid { layouts.IsLaid layout.now }
    requires few { length (layouts.items layout.now) < 2 ^ 63 }
    requires within { at < 2 ^ 63 }
    ensures { let places = layouts.stands (layouts.items layout.now) 0 in result ≡ spec.piece_reaches places piece.now form (slice_index places (at + 1)) }
{
    match *piece {
        Piece::Branch { kind, target } => reaches(layout, kind, target, form, at),
        _ => true,
    }
}

// The branches of a layout that take their next form: none, the one at this leaf, or those on both sides of this fork.
#[derive(Drop)]
enum Raises {
    Keep,
    Raise,
    Both(Box<Raises>, Box<Raises>),
}

fn is_keep(raises: &Raises) -> bool
    ensures { result ≡ layouts.is_keep raises.now }
{
    matches!(raises, Raises::Keep)
}

fn both(alloc: Global, left: Raises, right: Raises) -> Result<Raises, NoMemory>
    ensures left { IfOk result (λ r. layouts.left_side r ≡ left) }
    ensures right { IfOk result (λ r. layouts.right_side r ≡ right) }
{
    if matches!((&left, &right), (Raises::Keep, Raises::Keep)) {
        return Ok(Raises::Keep);
    }
    let left = Box::new(alloc, left)?;
    let right = Box::new(alloc, right)?;
    Ok(Raises::Both(left, right))
}

// Which branches of a part do not reach in the whole layout; its first piece is the piece `at`.
fn look(alloc: Global, part: &Layout, whole: &Layout, at: usize) -> Result<Raises, NoMemory>
    requires whole_laid { layouts.IsLaid whole.now }
    requires whole_few { length (layouts.items whole.now) < 2 ^ 63 }
    requires few { at + length (layouts.items part.now) < 2 ^ 63 }
    requires laid { layouts.IsLaid part.now }
    requires spanned { layouts.IsSpanned (length (layouts.items whole.now)) part.now at }
    requires at_rest { layouts.AreAtRest (length (layouts.items whole.now)) (layouts.changed whole.now) (layouts.stands (layouts.items whole.now) 0) part.now at }
    ensures { IfOk result (λ r. layouts.items_by part.now r ≡ layouts.raised_from (layouts.stands (layouts.items whole.now) 0) (layouts.items part.now) at) }
{
    match part {
        Layout::Leaf(piece, form, _) => {
            if piece_reaches(whole, piece, *form, at) {
                Ok(Raises::Keep)
            } else {
                Ok(Raises::Raise)
            }
        }
        Layout::Fork(left, known, right) => {
            if !known.changed && !whole.is_changed(known.from, known.to) {
                return Ok(Raises::Keep);
            }
            let first = look(alloc, left, whole, at)?;
            let second = look(alloc, right, whole, at + left.known().count)?;
            let raises = both(alloc, first, second)?;
            Ok(raises)
        }
    }
}

// The raises on both sides of a fork.
fn sides<'a>(raises: &'a Raises, keep: &'a Raises) -> (&'a Raises, &'a Raises)
    requires { keep.now ≡ Keep }
    ensures left { result.0.now ≡ layouts.left_side raises.now }
    ensures right { result.1.now ≡ layouts.right_side raises.now }
{
    match raises {
        Raises::Both(left, right) => (left, right),
        _ => (keep, keep),
    }
}

// Whether nothing changes in a stretch but its place.
fn is_quiet(known: &Stretch, raises: &Raises, old: u128, new: u128) -> bool
    ensures { result ≡ layouts.is_quiet known.now raises.now old new }
{
    is_keep(raises) && !known.changed && only_moves(known, old, new)
}

// Gives the raised branches their next form. The layout began at `old`, and now begins at `new`.
fn raise(layout: &mut Layout, raises: &Raises, at: usize, count: usize, old: u128, new: u128)
    requires laid { layouts.IsLaid layout.old }
    requires spanned { layouts.IsSpanned count layout.old at }
    requires few { at + length (layouts.items layout.old) < 2 ^ 63 }
    requires old_fits { old + 65536 * length (layouts.items layout.old) < 2 ^ 80 }
    requires new_fits { new + 65536 * length (layouts.items layout.old) < 2 ^ 80 }
    ensures items { layouts.items layout.new ≡ layouts.items_by layout.old raises.now }
    ensures few { length (layouts.items layout.new) ≡ length (layouts.items layout.old) }
    ensures laid { layouts.IsLaid layout.new }
    ensures spanned { layouts.IsSpanned count layout.new at }
    ensures changes { layouts.Changes (layouts.items layout.old) (layouts.items layout.new) (layouts.changed layout.new) old new }
{
    match layout {
        Layout::Leaf(piece, form, known) => {
            let raised = matches!(raises, Raises::Raise);
            let next = if raised { longer(*form) } else { *form };
            let changed = raised
                || end_of(piece, *form, old) + new != end_of(piece, next, new) + old;
            *known = of_piece(piece, next, at, count, changed);
            *form = next;
        }
        Layout::Fork(left, known, right) => {
            if is_quiet(known, raises, old, new) {
                return;
            }
            let keep = Raises::Keep;
            let (first, second) = sides(raises, &keep);
            let before = left.known();
            raise(left, first, at, count, old, new);
            let after = left.known();
            let old_middle = end_from(&before, old);
            let new_middle = end_from(&after, new);
            raise(
                right,
                second,
                at + before.count,
                count,
                old_middle,
                new_middle,
            );
            *known = joined(&after, &right.known());
        }
    }
}

#[tactic(auto, unfolding(crate::specs::Forms::start_forms))]
fn branches(pieces: &[Piece]) -> usize
    ensures value { result ≡ length (spec.start_forms pieces.now) }
    ensures bound { result ≤ length pieces.now }
{
    let mut count = 0;
    for piece in pieces {
        if is_branch(piece) {
            count += 1;
        }
    }
    count
}

/// The form of each generic branch of a list of pieces, in order.
///
/// All branches begin in their first form, but one without target in its third. In each pass every branch that does not
/// reach its target in the present layout takes its next form, until none does. A form reaches -128 to 127 bytes (the
/// first one of a conditional jump or a jump on a bit) or -1024 to 1023 bytes from the end of the branch; the third form,
/// and the second one of a jump or call, reach any place. Places are whole numbers, not taken modulo 65536. A target past
/// the last place counts as the place 0. A pass looks only at
/// branches on which the pass before bears.
/// (MCS-96 Macro Assembler guide, "Generic jumps and calls"; 80C196KC User's Manual, "Jump and Call Instructions".)
///
/// `NoMemory`: memory ran out. That is the only error.
#[tactic(auto, unfolding(crate::specs::Forms::forms))]
pub fn sizes(alloc: Global, pieces: &[Piece]) -> Result<Vec<Form>, NoMemory>
    ensures forms { IfOk result (λ v. v.items ≡ spec.forms pieces.now) }
    ensures reach { IfOk result (λ v. laws.settles pieces.now v.items ≡ true) }
    ensures least { IfOk result (λ v. laws.IsLeast pieces.now v.items) }
{
    let mut forms = Vec::new(alloc);
    if pieces.is_empty() {
        return Ok(forms);
    }
    let mut layout = start(alloc, pieces, 0, pieces.len())?;
    for _pass in 0..2 * branches(pieces) {
        let raises = look(alloc, &layout, &layout, 0)?;
        if is_keep(&raises) {
            break;
        }
        raise(&mut layout, &raises, 0, pieces.len(), 0, 0);
    }
    layout.push_forms(&mut forms)?;
    Ok(forms)
}
