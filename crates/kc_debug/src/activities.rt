// The activities that begin while a machine goes on.
ghost use Rattle.std.specs.Prelude.{◌≡◌, ◌≤◌, ◌-◌, ◌++◌};
ghost use Rattle.circular_buffer.specs.Buffer.{buffer, keep_last};
ghost use Rattle.kc_machine.specs.Stepping.{IdlesFor};
ghost use Rattle.kc_debug.specs.Activities.{beginning, begun_for};
ghost use Rattle.kc_debug.specs.Passing.{IsKept};

use circular_buffer::HeapCircularBuffer;
use kc_base::StateTime;
use kc_extra::Extra;
use kc_machine::Machine;

/// An activity: the state in which it began, and the program counter there.
#[derive(Clone, Copy, Drop)]
pub struct Begun {
    pub at: StateTime,
    pub pc: u16,
}

/// Notes the activity that begins in the coming state, where none is under way.
pub(crate) fn note<X: Extra + Drop>(begun: &mut HeapCircularBuffer<Begun>, machine: &Machine<X>)
    requires { IsKept begun.old }
    ensures { begun.new ≡ buffer (keep_last begun.old.capacity (begun.old.items ++ beginning machine.now.machine)) begun.old.capacity }
{
    if machine.between() {
        begun.push_back(Begun {
            at: machine.now(),
            pc: machine.pc(),
        });
    }
}

/// Notes the idle states from now on up to a state, of which the last alone are kept.
pub(crate) fn note_idle<X: Extra + Drop>(
    begun: &mut HeapCircularBuffer<Begun>,
    end: StateTime,
    machine: &Machine<X>,
)
    requires kept { IsKept begun.old }
    requires ahead { machine.now.machine.time ≤ end }
    requires idles { IdlesFor X.further (end - machine.now.machine.time) machine.now.machine }
    ensures { begun.new ≡ buffer (keep_last begun.old.capacity (begun.old.items ++ begun_for X.further (end - machine.now.machine.time) machine.now.machine)) begun.old.capacity }
{
    let pc = machine.pc();
    let first = machine
        .now()
        .max(end.saturating_sub(begun.capacity() as u64));
    for at in first..end {
        begun.push_back(Begun { at, pc });
    }
}
