ghost use Rattle.std.specs.Prelude.{◌≡◌, ◌≤◌, ◌+◌, ◌*◌, true, length};
ghost use Rattle.std.specs.List.{list_all};
ghost use Rattle.kc_obj_module.specs.Pieces.{is_placed, segments_in_order};
ghost use Rattle.kc_link_place.specs.Placing as placing;

use crate::pieces::is_kind;
use crate::ranges::Ranges;
use kc_obj_module::{Module, SegKind, Segment};

// The length of the stack piece of a module: it has at most one, and that is relocatable.
fn stack_in(segments: &[Segment]) -> u32
    requires placed { list_all is_placed segments.now ≡ true }
    requires ordered { segments_in_order segments.now ≡ true }
    ensures value { result ≡ placing.stack_in segments.now }
    ensures bound { result ≤ 65535 }
{
    let mut left = segments;
    while let [segment, rest @ ..] = left {
        if is_kind(SegKind::Stack, segment.kind) {
            return segment.length as u32;
        }
        left = rest;
    }
    0
}

// The sum of the lengths of all stack pieces.
#[tactic(auto, unfolding(crate::specs::Placing::stack_sum))]
fn stack_sum(modules: &[Module]) -> u32
    requires { length modules.now ≤ 64 }
    ensures value { result ≡ placing.stack_sum modules.now }
    ensures bound { result ≤ 65535 * 64 }
{
    let mut sum = 0;
    let mut left = modules;
    while let [module, rest @ ..] = left {
        module.keeps_rules();
        sum += stack_in(module.segments());
        left = rest;
    }
    sum
}

/// The length in bytes of the stack of at most 64 modules, rounded up to even: that which is asked for, or that of all stack
/// pieces.
#[tactic(auto, unfolding(crate::specs::Placing::stack_size))]
pub fn stack_size(ranges: &Ranges, modules: &[Module]) -> u32
    requires { length modules.now ≤ 64 }
    ensures value { result ≡ placing.stack_size ranges.now modules.now }
    ensures bound { result ≤ 65535 * 64 + 1 }
{
    let asked = match ranges.stack {
        None => stack_sum(modules),
        Some(size) => size as u32,
    };
    (asked + 1) / 2 * 2
}
