// Asking a question: a walk of the whole cut tree, leftmost goal first.
#![tactic(auto)]

pub mod frame;
mod machine;
pub mod search;
