// The words of book text: classes of bytes, tokens, numbers, and the fault that a reader tells.
#![tactic(auto)]

pub mod class;
pub mod fault;
pub mod token;
pub mod worth;
