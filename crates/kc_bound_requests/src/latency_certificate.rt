use crate::certificate::{EnabledSet, RequestCertificate};

/// What may be allowed of requests at each address; how many state times may go by there before interrupts are asked for, or up to
/// behind the RET of the routine, and what the routine may have returned with by then; how many state times may go by behind that RET,
/// by what the routine returns with; for each loop of the notes the price of a begin of its head; and the most state times that may go
/// by from where interrupts are asked for, or from the start, to where they are asked for again. Of each address of the ROM, from 2000H
/// on, there are eight numbers or sets, by I, PSE and whether an instruction has to come next (bits 0, 1 and 2 of the place).
#[derive(Drop)]
pub struct LatencyCertificate {
    pub requests: RequestCertificate,
    pub before: Vec<u64>,
    pub returns: Vec<EnabledSet>,
    pub behind: Vec<u64>,
    pub prices: Vec<u64>,
    pub most: u64,
}
