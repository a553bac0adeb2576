// What a walk knows of the function at a root: it has not come there, it is within it, or it has left it.
#[derive(Clone, Copy, Debug, PartialEq, Eq)]
pub enum Mark {
    Unseen,
    Open,
    Done,
}
