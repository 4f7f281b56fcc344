//! Removal: of a pair (`remove`, and `pop` at an end), of a child with all below it (`cut_child`),
//! of the branch below a path (`cut_branch`). A branch that was cut off is moved into a list of
//! pairs (`prune`, by `drain`), or becomes a tree (`rooted`).

pub mod by_reference;
pub mod cut_branch;
pub mod cut_child;
pub mod drain;
pub mod pop;
pub mod prune;
pub mod remove;
pub mod rooted;
