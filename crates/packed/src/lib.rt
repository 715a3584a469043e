// A record as 32 bytes, for whoever keeps it outside the core: specs/Packed.antt has the layout.
#![tactic(auto)]

pub mod bytes;
