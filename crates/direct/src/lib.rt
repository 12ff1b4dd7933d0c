// The call wing from bytes to bytes where nothing refuses it, and the wings in uploaded order as bytes.
#![tactic(auto)]

pub mod lent;
pub mod uploaded;
