// Which line has a text.
ghost use Rattle.std.specs.Prelude.{◌≡◌, ◌≢◌, ◌≤◌, ℕ, Bool, false, None, IfSome, IsTrue};
ghost use Rattle.kc_base.specs.Limits.{max_states};
ghost use Rattle.kc_events.specs.Candidates.{restart_of};
ghost use Rattle.kc_events.specs.Lines.{IsSoundLine, line_text, reset_name as name_of};
ghost use Rattle.kc_events.specs.declared.line.Line.{Line};
ghost use Rattle.kc_events.specs.declared.line.Line.TheVariants.{Restarted};

use crate::candidates::record;
use crate::line::Line;
use kc_base::{StateTime, split_at_space, state_time};
use kc_trace::{LineBytes, put_decimal, put_text};

fn reset_name(by_watchdog: bool) -> &'static [u8]
    ensures { result.now ≡ name_of by_watchdog }
{
    if by_watchdog { b"watchdog" } else { b"reset" }
}

// Whether the end of a life is spelled as a text.
fn is_spelled(at: StateTime, by_watchdog: bool, text: &[u8]) -> bool
    ensures spelled { IsTrue result → line_text (Restarted at by_watchdog) ≡ text.now }
    ensures other { result ≡ false → line_text (Restarted at by_watchdog) ≢ text.now }
{
    let mut line = LineBytes::new();
    put_text(&mut line, b"B ");
    put_decimal(&mut line, at);
    put_text(&mut line, b" ");
    put_text(&mut line, reset_name(by_watchdog));
    line.as_slice() == text
}

// The end of a life that a text can be: its last state, and whether the watchdog has reset the chip.
fn candidate(text: &[u8]) -> Option<(StateTime, bool)>
    ensures value { result ≡ restart_of text.now }
    ensures bounded { IfSome result (λ r. r.0 ≤ max_states) }
{
    let (_, rest) = split_at_space(text);
    let (time, name) = split_at_space(rest);
    let at = state_time(time)?;
    match name {
        [b'w', ..] => Some((at, true)),
        _ => Some((at, false)),
    }
}

// The end of a life that has this text.
fn restarted(text: &[u8]) -> Option<Line>
    ensures sound { IfSome result (λ line. IsSoundLine line × (line_text line ≡ text.now)) }
    ensures none { result ≡ None → (at : ℕ) (by_watchdog : Bool) → at ≤ max_states → line_text (Restarted at by_watchdog) ≢ text.now }
{
    let (at, by_watchdog) = candidate(text)?;
    if is_spelled(at, by_watchdog, text) {
        Some(Line::Restarted { at, by_watchdog })
    } else {
        None
    }
}

/// The line that has this text; `None` where no line has it that a run may have.
pub(crate) fn line_of(text: &[u8]) -> Option<Line>
    ensures sound { IfSome result (λ line. IsSoundLine line × (line_text line ≡ text.now)) }
    ensures none { result ≡ None → (line : Line) → IsSoundLine line → line_text line ≢ text.now }
{
    match record(text) {
        Some(item) => Some(Line::Printed(item)),
        None => restarted(text),
    }
}
