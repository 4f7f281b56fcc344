//! Callers of views for writing: what they store, and what they keep where a view is spent.

mod changes;
mod counts;
mod handed_back;
mod walks;
