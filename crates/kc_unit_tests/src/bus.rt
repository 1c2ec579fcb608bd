// A bus without units.
use kc_base::Kind;
use kc_bus::{Bus, Flat, Master};
use kc_code::{Decoded, decode};
use kc_exec::{Cpu, perform};
use std::test::Fail;

/// LDB 14H,#48H and LDB 0E0H,#11H: under WSR 48H the register E0H stands at 0100H.
static PROGRAM: [[u8; 3]; 2] = [[0xB1, 0x48, 0x14], [0xB1, 0x11, 0xE0]];

#[test]
fn instructions_run_without_units(rt: HostRuntime) -> Result<(), Fail> {
    let mut bus = Flat::new(rt.alloc()).ok().ok_or("no memory")?;
    let mut cpu = Cpu {
        pc: 0x2080,
        psw_high: 0,
    };
    for bytes in &PROGRAM {
        let Decoded::Insn(insn, _) = decode(bytes) else {
            panic!(rt; "no instruction");
        };
        assert!(rt; perform(&insn, &mut cpu, &mut bus).is_ok());
    }
    assert!(rt; cpu.pc == 0x2086);
    assert!(rt; bus.masks().wsr == 0x48);
    assert!(rt; bus.glance(0x0100) == 0x11);
    assert!(rt; bus.read8(Master::Cpu, 0x01) == Err(Kind::NoRegister));
    assert!(rt; bus.write16(Master::Cpu, 0x00, 7) == Err(Kind::NoRegister));
    Ok(())
}
