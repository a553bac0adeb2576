// The records of a search, which other crates share.
pub use frames::{Frame, Node, Waiting};
