// The edges between two masks of pins, handed out.
ghost use Rattle.std.specs.Prelude.{◌≡◌, ℕ, ◌<◌, List, ◌++◌, All};
ghost use Rattle.kc_base.specs.Pins.{IsPin};
ghost use Rattle.kc_base.specs.declared.types.Edge.{Edge as AnEdge};
ghost use Rattle.kc_block_spec.specs.Levels.{edge_at, edges_between};
ghost use Rattle.kc_block_spec.specs.Touch.{in_state};
ghost use Rattle.kc_block_spec.specs.Leading.{Leads};

use crate::masks::has_pin;
use kc_base::{Edge, EdgeOut, Level, Pin, StateTime};

/// How many pins are printed.
const PRINTED: u8 = 18;

/// Edges that lead on from where others led lead all the way.
pub fn edges_lead_on<O: EdgeOut>()
    ensures { (o q p : O) (xs ys : List (ℕ × AnEdge)) → Leads O.led o xs q → Leads O.led q ys p → Leads O.led o (xs ++ ys) p }
{}

// Hands out the edge of a pin, if it has one.
fn lead_edge<O: EdgeOut>(old: u64, new: u64, pin: u8, at: StateTime, out: &mut O)
    requires { pin < 18 }
    ensures { Leads O.led out.old (in_state at (edge_at old new pin)) out.new }
{
    if has_pin(old ^ new, pin) {
        let level = Level::of(has_pin(new, pin));
        out.edge(
            at,
            Edge {
                pin: Pin(pin),
                level,
            },
        );
    }
}

/// Hands out the edges of the printed pins, in the order of the pins, where `old` and `new` differ.
pub fn lead_edges<O: EdgeOut>(old: u64, new: u64, at: StateTime, out: &mut O)
    ensures { Leads O.led out.old (in_state at (edges_between old new)) out.new }
{
    let differ = old ^ new;
    let mut pin = 0;
    while pin < PRINTED && differ >> pin != 0 {
        lead_edge(old, new, pin, at, out);
        pin += 1;
    }
}

/// Hands out these edges, all in one state.
pub fn lead_all<O: EdgeOut>(edges: &[Edge], at: StateTime, out: &mut O)
    requires { All (λ edge. IsPin edge.pin.0) edges.now }
    ensures { Leads O.led out.old (in_state at edges.now) out.new }
{
    for edge in edges {
        out.edge(at, *edge);
    }
}
