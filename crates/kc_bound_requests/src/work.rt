// The work at an address, and what it leaves of what is allowed.
ghost use Rattle.std.specs.Prelude.{◌≡◌};
ghost use Rattle.kc_bound_requests.specs.Enabled as enabled;
ghost use Rattle.kc_bound_requests.specs.Closed as spec;

use crate::enabled::Enabled;
use kc_base::Image;
use kc_bound::found_at;
use kc_code::Decoded;
use kc_exec::make_plan;
use kc_exec_spec::{Plan, Saving, Setting};
use kc_isa::mnemonic_of;

// The kind of work at an address.
pub(crate) fn work_at(image: &Image, at: u16) -> Option<Plan>
    ensures { result ≡ spec.work_at image.now at }
{
    match found_at(image, at) {
        Decoded::Insn(insn, _) => {
            let mnemonic = mnemonic_of(insn.opcode, insn.signed)?;
            Some(make_plan(mnemonic))
        }
        Decoded::Unimplemented => Some(Plan::Trap),
        Decoded::Undefined | Decoded::Short => None,
    }
}

fn is_same(a: Enabled, b: Enabled) -> bool
    ensures { result ≡ enabled.is_same a b }
{
    a.interrupts == b.interrupts && a.server == b.server && a.held == b.held
}

// Whether work may leave this where that was before it.
pub(crate) fn may_leave(work: Option<Plan>, before: Enabled, after: Enabled) -> bool
    ensures { result ≡ enabled.may_leave work before after }
{
    let Enabled {
        interrupts,
        server,
        held: _,
    } = before;
    let cleared = Enabled {
        interrupts: false,
        server: false,
        held: true,
    };
    match work {
        None => false,
        Some(Plan::Set(Setting::Interrupts(set))) => is_same(
            Enabled {
                interrupts: set,
                server,
                held: true,
            },
            after,
        ),
        Some(Plan::Set(Setting::Transfers(set))) => is_same(
            Enabled {
                interrupts,
                server: set,
                held: true,
            },
            after,
        ),
        Some(Plan::Save(Saving::PushStatus | Saving::PushAll)) => is_same(cleared, after),
        Some(Plan::Save(Saving::PopStatus | Saving::PopAll)) => after.held,
        Some(Plan::Trap) => is_same(
            Enabled {
                interrupts,
                server,
                held: true,
            },
            after,
        ),
        Some(_) => is_same(
            Enabled {
                interrupts,
                server,
                held: false,
            },
            after,
        ),
    }
}
