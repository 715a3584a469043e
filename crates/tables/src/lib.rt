// The constant table of counts and lengths by shape; that of shapes by byte is crates/shapes.
#![tactic(auto)]

pub mod count;
