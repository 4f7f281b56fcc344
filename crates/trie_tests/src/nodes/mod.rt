//! Nodes, of what no clause says: outside rows of masks, examples of broken nodes, and long ways
//! down.

mod broken_nodes;
mod long_chains;
mod masks;
