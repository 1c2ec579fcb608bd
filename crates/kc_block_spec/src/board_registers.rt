use kc_intc::Requests;

/// The data of the board that only worked Ticks and accesses change: the levels of the input pins in the state before, bit
/// n pin n; bits 0 to 4 of IOS1 and all of IOS2; the registers IOC0 to IOC3, the requests with their masks, WSR, and
/// the latches of ports 1 and 2 (80C196KC User's Manual, "Special Function Registers").
#[derive(Clone, Copy)]
pub struct BoardRegisters {
    pub levels: u64,
    pub ios1: u8,
    pub ios2: u8,
    pub ioc0: u8,
    pub ioc1: u8,
    pub ioc2: u8,
    pub ioc3: u8,
    pub requests: Requests,
    pub wsr: u8,
    pub port1: u8,
    pub port2: u8,
}
