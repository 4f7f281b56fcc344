//! What goes over all nodes at and below one.

pub mod ascending;
pub mod checker;
pub mod compact;
pub mod copied;
pub mod same;
pub mod size;
pub mod values;
