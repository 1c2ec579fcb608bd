use kc_obj_fields::faults::Fault;

/// What a step of the reading comes to: the next record's offset, the end, or a fault after which no more is read.
#[derive(Clone, Copy, PartialEq, Eq)]
pub(crate) enum Step {
    On(usize),
    End,
    Stop(Fault),
}
