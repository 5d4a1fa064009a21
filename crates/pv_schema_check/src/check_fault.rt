use crate::fault::Refusal;

/// Why a schema is not taken.
#[derive(Drop)]
pub enum CheckFault {
    Refused(Refusal),
    Memory,
}
