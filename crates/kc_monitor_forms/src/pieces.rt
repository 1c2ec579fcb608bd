// `E at SHARE of F to G within D` and `COUNT E in each F to G`: pieces of a life.
ghost use Rattle.std.specs.Prelude.{◌≡◌, ◌<◌, ◌*◌, ◌/◌, ◌^◌, List, [], ◌∷◌, Some, None};
ghost use Rattle.kc_monitor_forms.specs.declared.obligation.Point.{Point};
ghost use Rattle.kc_monitor_forms.specs.Pieces as spec;
ghost use Rattle.kc_monitor_forms.specs.Tallies.{with_all};
ghost use Rattle.kc_monitor_forms.specs.Machines as machines;

use crate::gaps::{is_past, is_within};
use crate::obligation::{Answer, Obligation, Offset, Point, Spread, good_if};
use crate::shares::product;
use crate::tally::Tally;
use kc_rules::{Share, Span, Within};

/// How many parts a state has.
const PARTS: u128 = 2_000_000_000_000_000;

/// What is kept of a piece that has begun: its first state, how many events it has, and the state of the first of them.
#[derive(Clone, Copy)]
pub struct Piece {
    pub begin: u64,
    pub count: u64,
    pub first: Option<u64>,
}

fn first_or(first: Option<u64>, at: u64) -> Option<u64>
    ensures { result ≡ machines.or_else first (Some at) }
{
    match first {
        Some(first) => Some(first),
        None => Some(at),
    }
}

impl Piece {
    // With a point more.
    fn with(self, point: Point) -> Piece
        ensures { result ≡ machines.piece_with self point }
    {
        if point.event {
            Piece {
                begin: self.begin,
                count: self.count.saturating_add(1),
                first: first_or(self.first, point.at),
            }
        } else {
            self
        }
    }
}

// The piece that begins with a point, if one does.
fn begun(point: Point) -> Option<Piece>
    ensures { result ≡ machines.piece_begun point }
{
    if point.from {
        let piece = Piece {
            begin: point.at,
            count: 0,
            first: None,
        };
        Some(piece.with(point))
    } else {
        None
    }
}

// The piece that has begun behind a point.
fn stepped(piece: Option<Piece>, point: Point) -> Option<Piece>
    ensures { result ≡ machines.piece_after piece point }
{
    match piece {
        Some(piece) => {
            if point.to {
                begun(point)
            } else {
                Some(piece.with(point))
            }
        }
        None => begun(point),
    }
}

/// How many events a piece may have, and the one that has begun.
#[derive(Clone, Copy)]
pub struct Counted {
    pub span: Span,
    pub piece: Option<Piece>,
}

// Counts a piece that is over.
#[tactic(auto, unfolding(crate::specs::Tallies::with_all))]
fn count_closed(span: Span, life: u64, piece: Option<Piece>, to: bool, tally: &mut Tally)
    ensures { tally.new ≡ with_all life tally.old (machines.counted_closed span piece to) }
{
    match piece {
        Some(piece) => {
            if to {
                let good = is_within(span, piece.count);
                tally.add(life, Obligation::measured(piece.begin, piece.count, good));
            }
        }
        None => {}
    }
}

// Counts a piece that is not over as the scope ends.
#[tactic(auto, unfolding(crate::specs::Tallies::with_all))]
fn count_open(span: Span, life: u64, piece: Option<Piece>, tally: &mut Tally)
    ensures { tally.new ≡ with_all life tally.old (machines.counted_open span piece) }
{
    match piece {
        Some(piece) => {
            if is_past(span.most, piece.count) {
                tally.add(life, Obligation::measured(piece.begin, piece.count, false));
            }
        }
        None => {}
    }
}

impl Counted {
    /// No piece has begun.
    pub fn new(span: Span) -> Counted
        ensures { result ≡ record { span = span; piece = None } }
    {
        Counted { span, piece: None }
    }

    /// Sees a point.
    #[tactic(auto, using(crate::proofs::PointLemmas::counted_next))]
    pub fn point(&mut self, life: u64, point: Point, tally: &mut Tally)
        ensures { (points : List Point) →
            with_all life tally.old (machines.counted_rest self.old.span self.old.piece (point ∷ points))
            ≡ with_all life tally.new (machines.counted_rest self.new.span self.new.piece points) }
    {
        count_closed(self.span, life, self.piece, point.to, tally);
        self.piece = stepped(self.piece, point);
    }

    /// The scope is over.
    #[tactic(auto, unfolding(crate::specs::Machines::counted_rest))]
    pub fn over(&self, life: u64, tally: &mut Tally)
        ensures { with_all life tally.old (machines.counted_rest self.now.span self.now.piece []) ≡ tally.new }
    {
        count_open(self.span, life, self.piece, tally);
    }
}

/// Where the first event of a piece is wanted, and the piece that has begun.
#[derive(Clone, Copy)]
pub struct Placed {
    pub share: Share,
    pub within: Within,
    pub piece: Option<Piece>,
}

fn is_early(share: Share, n: u64, whole: u64) -> bool
    ensures { result ≡ spec.is_early share n whole }
{
    product(share.den, n) < product(share.num, whole)
}

fn distance(share: Share, n: u64, whole: u64) -> u128
    ensures value { result ≡ spec.distance share n whole }
    ensures small { result < 2 ^ 96 }
{
    let seen = product(share.den, n);
    let wanted = product(share.num, whole);
    if seen < wanted {
        wanted - seen
    } else {
        seen - wanted
    }
}

// A part of a share, of a number below 2^96.
fn wide_product(part: u32, n: u128) -> u128
    requires { n < 2 ^ 96 }
    ensures { result ≡ part * n }
{
    u128::from(part) * n
}

#[tactic(auto, using(crate::proofs::DistanceLemmas::near_in_time))]
fn is_near_in_time(den: u32, states: u64, parts: u64, size: u128) -> bool
    ensures { result ≡ spec.is_near_in_time den states parts size }
{
    let whole = product(den, states);
    let rest = product(den, parts) / PARTS;
    size <= whole + rest
}

fn is_near(within: Within, share: Share, size: u128, whole: u64) -> bool
    requires { size < 2 ^ 96 }
    ensures { result ≡ spec.is_near within share size whole }
{
    match within {
        Within::Time(time) => is_near_in_time(share.den, time.states, time.parts, size),
        Within::Share(near) => wide_product(near.den, size)
            <= wide_product(near.num, product(share.den, whole)),
    }
}

fn minus(n: u128) -> Offset
    ensures { result ≡ spec.minus n }
{
    if n == 0 {
        Offset::Plus(0)
    } else {
        Offset::Minus(n)
    }
}

// The quotient; that by 0 is 0.
fn quotient(size: u128, den: u32) -> u128
    ensures { result ≡ size / den }
{
    if den == 0 { 0 } else { size / u128::from(den) }
}

// A spread from one number of states to another, which is of what comes too early where `early` says so.
fn signed(early: bool, down: u128, up: u128) -> Spread
    ensures { result ≡ spec.signed early down up }
{
    if early {
        Spread {
            least: minus(up),
            most: minus(down),
        }
    } else {
        Spread {
            least: Offset::Plus(down),
            most: Offset::Plus(up),
        }
    }
}

fn rounded(early: bool, share: Share, size: u128) -> Spread
    requires { size < 2 ^ 96 }
    ensures { result ≡ spec.rounded early share size }
{
    let room = u128::from(share.den.saturating_sub(1));
    let down = quotient(size, share.den);
    let up = quotient(size + room, share.den);
    signed(early, down, up)
}

fn placed_at(share: Share, within: Within, begin: u64, n: u64, whole: u64) -> Obligation
    ensures { result ≡ spec.placed_at share within begin n whole }
{
    let early = is_early(share, n, whole);
    let size = distance(share, n, whole);
    let spread = rounded(early, share, size);
    Obligation {
        at: begin,
        answer: good_if(is_near(within, share, size, whole)),
        seen: Some(if early { spread.least } else { spread.most }),
        spread: Some(spread),
    }
}

fn placed_by(share: Share, within: Within, piece: Piece, end: u64) -> Obligation
    ensures { result ≡ spec.placed_of share within piece.begin piece.first end }
{
    match piece.first {
        Some(first) => {
            let n = first.saturating_sub(piece.begin);
            let whole = end.saturating_sub(piece.begin);
            placed_at(share, within, piece.begin, n, whole)
        }
        None => Obligation::unseen(piece.begin, Answer::Bad),
    }
}

// Counts a piece that a point ends.
#[tactic(auto, unfolding(crate::specs::Tallies::with_all))]
fn place_closed(
    share: Share,
    within: Within,
    life: u64,
    piece: Option<Piece>,
    point: Point,
    tally: &mut Tally,
)
    ensures { tally.new ≡ with_all life tally.old (machines.placed_closed share within piece point) }
{
    match piece {
        Some(piece) => {
            if point.to {
                tally.add(life, placed_by(share, within, piece, point.at));
            }
        }
        None => {}
    }
}

impl Placed {
    /// No piece has begun.
    pub fn new(share: Share, within: Within) -> Placed
        ensures { result ≡ record { share = share; within = within; piece = None } }
    {
        Placed {
            share,
            within,
            piece: None,
        }
    }

    /// Sees a point.
    #[tactic(auto, using(crate::proofs::PointLemmas::placed_next))]
    pub fn point(&mut self, life: u64, point: Point, tally: &mut Tally)
        ensures { (points : List Point) →
            with_all life tally.old (machines.placed_rest self.old.share self.old.within self.old.piece (point ∷ points))
            ≡ with_all life tally.new (machines.placed_rest self.new.share self.new.within self.new.piece points) }
    {
        place_closed(self.share, self.within, life, self.piece, point, tally);
        self.piece = stepped(self.piece, point);
    }
}
