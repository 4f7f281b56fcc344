//! What programs in other languages call: images, searched where they lie. Each call takes any
//! bytes whatever, ends, and reads only inside them; it allocates nothing and keeps nothing between
//! two calls. A lookup returns an index and one more, or 0 where there is nothing.
#![tactic(auto)]

mod ipv4;
mod ipv6;
mod results;
mod texts;
