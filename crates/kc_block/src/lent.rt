ghost use Rattle.std.specs.Prelude.{◌≡◌, ◌<◌};
ghost use Rattle.kc_block.specs.Lent.{AreLent};

use crate::block::Block;
use kc_base::StateTime;
use kc_extra::Extra;
use kc_hsi::Hsi;
use kc_hso::Hso;
use kc_timers::Timer2;

/// The units as the block holds them. None of these calls moves one.
impl<X: Extra + Drop> Block<X> {
    /// Timer 2.
    pub fn timer2(&self) -> &Timer2
        ensures held { result.now.inner ≡ self.now.held.timer2.kept }
        ensures lent { AreLent X.further self.now }
    {
        &self.scheduler.timer2.unit
    }

    /// The high-speed output unit.
    pub fn hso(&self) -> &Hso
        ensures held { result.now.inner ≡ self.now.held.hso.kept }
        ensures lent { AreLent X.further self.now }
    {
        &self.scheduler.hso.unit
    }

    /// The high-speed input unit.
    pub fn hsi(&self) -> &Hsi
        ensures held { result.now.inner ≡ self.now.held.hsi.kept }
        ensures lent { AreLent X.further self.now }
    {
        &self.scheduler.hsi.unit
    }

    /// The further unit.
    pub fn extra(&self) -> &X
        ensures held { X.plain result.now ≡ self.now.held.further.kept }
        ensures lent { AreLent X.further self.now }
    {
        &self.scheduler.further.unit
    }

    /// The state at which a unit stands: 0 is Timer 2, 1 the high-speed output unit, 2 the high-speed input unit, 3 the
    /// further unit.
    pub fn standing(&self, unit: u8) -> StateTime
        requires { unit < 4 }
        ensures timer2 { unit ≡ 0 → result ≡ self.now.held.timer2.at }
        ensures hso { unit ≡ 1 → result ≡ self.now.held.hso.at }
        ensures hsi { unit ≡ 2 → result ≡ self.now.held.hsi.at }
        ensures further { unit ≡ 3 → result ≡ self.now.held.further.at }
        ensures lent { AreLent X.further self.now }
    {
        match unit {
            0 => self.scheduler.timer2.at,
            1 => self.scheduler.hso.at,
            2 => self.scheduler.hsi.at,
            _ => self.scheduler.further.at,
        }
    }
}
