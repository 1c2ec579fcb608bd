// What the block keeps.
use kc_base::StateTime;
use kc_block_spec::BoardRegisters;
use kc_due::DueList;
use kc_hsi::Hsi;
use kc_hso::Hso;
use kc_stim::Stimuli;
use kc_timers::Timer2;

/// A unit, and the state time at whose start it stands.
#[derive(Drop)]
pub struct DeferredUnit<U> {
    pub unit: U,
    pub at: StateTime,
}

/// All units with what joins them: stimuli and wires, the data that only worked Ticks and accesses change, the due states
/// (slot 0 Timer 2, 1 HSO, 2 HSI, 3 the further unit, 4 Timer 1's flag, 5 stimuli, 6 wires), and the deferred units. `flag` is
/// bit 5 of IOS1.
#[derive(Drop)]
pub struct Scheduler<X> {
    pub stimuli: Stimuli,
    pub board_registers: BoardRegisters,
    pub due: DueList,
    pub flag: DeferredUnit<bool>,
    pub timer2: DeferredUnit<Timer2>,
    pub hso: DeferredUnit<Hso>,
    pub hsi: DeferredUnit<Hsi>,
    pub further: DeferredUnit<X>,
}
