//! What is known of a stretch of pieces that stand one after the other.

ghost use Rattle.std.specs.Prelude.{◌≡◌, ◌+◌, ◌*◌, ◌<◌, ◌≤◌, ◌^◌};
ghost use Rattle.kc_branch.specs.Forms as spec;
ghost use Rattle.kc_branch.specs.Laws as laws;
ghost use Rattle.kc_branch.specs.Layouts as layouts;

use crate::branch::{is_free, size};
use crate::piece::{Form, Piece};

// What is known of a stretch.
#[derive(Clone, Copy)]
pub(crate) struct Stretch {
    // How many pieces it has.
    pub(crate) count: usize,
    // Where it ends if it begins at the place 0.
    pub(crate) even_end: u128,
    // Where it ends if it begins at the place 1.
    pub(crate) odd_end: u128,
    // Whether one of its pieces is an At.
    pub(crate) has_at: bool,
    // Whether one of its pieces is an Even.
    pub(crate) has_even: bool,
    // Its branches reach or not by the lengths of the pieces from this one on ..
    pub(crate) from: usize,
    // .. to before this one.
    pub(crate) to: usize,
    // Whether one of its pieces was changed by the last pass: has another form or another length.
    pub(crate) changed: bool,
}

// The place after a piece.
pub(crate) fn end_of(piece: &Piece, form: Form, here: u128) -> u128
    requires { here < 2 ^ 80 }
    ensures value { result ≡ spec.end_of piece.now form here }
    ensures bound { result ≤ here + 65536 }
{
    match *piece {
        Piece::Bytes(count) => here + u128::from(count),
        Piece::Even => here + here % 2,
        Piece::At(place) => u128::from(place),
        Piece::Branch { kind, .. } => here + u128::from(size(kind, form)),
    }
}

// The place after a stretch.
pub(crate) fn end_from(known: &Stretch, here: u128) -> u128
    requires short { layouts.IsShort known.now }
    requires fits { here + 65536 * known.now.count < 2 ^ 80 }
    ensures value { result ≡ layouts.end_from known.now here }
    ensures bound { result ≤ here + 65536 * known.now.count }
{
    if known.has_at {
        known.even_end
    } else if here % 2 == 0 {
        here + known.even_end
    } else {
        here - 1 + known.odd_end
    }
}

// Where the bytes begin or end on which it hangs whether a piece reaches.
fn far_end(piece: &Piece, form: Form, at: usize, count: usize) -> usize
    ensures { result ≡ layouts.far_end count piece.now form at }
{
    match *piece {
        Piece::Branch {
            kind,
            target: Some((index, _)),
        } => {
            if is_free(kind, form) {
                at
            } else if index as usize <= count {
                index as usize
            } else {
                0
            }
        }
        _ => at,
    }
}

fn is_at(piece: &Piece) -> bool
    ensures { result ≡ laws.is_at piece.now }
{
    matches!(piece, Piece::At(_))
}

fn is_even(piece: &Piece) -> bool
    ensures { result ≡ laws.is_even piece.now }
{
    matches!(piece, Piece::Even)
}

// A stretch of one piece.
pub(crate) fn of_piece(piece: &Piece, form: Form, at: usize, count: usize, changed: bool) -> Stretch
    requires { at < 2 ^ 63 }
    ensures value { result ≡ layouts.of_piece count piece.now form at changed }
    ensures short { layouts.IsShort result }
{
    let far = far_end(piece, form, at, count);
    Stretch {
        count: 1,
        even_end: end_of(piece, form, 0),
        odd_end: end_of(piece, form, 1),
        has_at: is_at(piece),
        has_even: is_even(piece),
        from: at.min(far),
        to: far.max(at + 1),
        changed,
    }
}

// Two stretches, one after the other.
pub(crate) fn joined(left: &Stretch, right: &Stretch) -> Stretch
    requires first { layouts.IsShort left.now }
    requires second { layouts.IsShort right.now }
    requires fits { left.now.count + right.now.count < 2 ^ 63 }
    ensures value { result ≡ layouts.joined left.now right.now }
    ensures short { layouts.IsShort result }
{
    Stretch {
        count: left.count + right.count,
        even_end: end_from(right, left.even_end),
        odd_end: end_from(right, left.odd_end),
        has_at: left.has_at || right.has_at,
        has_even: left.has_even || right.has_even,
        from: left.from.min(right.from),
        to: left.to.max(right.to),
        changed: left.changed || right.changed,
    }
}

// Whether each piece keeps its length if the stretch begins elsewhere.
pub(crate) fn only_moves(known: &Stretch, old: u128, new: u128) -> bool
    ensures { result ≡ layouts.only_moves known.now old new }
{
    old == new || !known.has_at && (!known.has_even || old % 2 == new % 2)
}
