//! Masks of nodes.

use radix_nodes::trie_node::mask::{child_index, mark};

#[test]
fn places_and_masks_after_inserting(rt: HostRuntime) {
    const PLACES: &'static [(u16, u8, Result<usize, usize>)] = &[
        (0x0046, 6, Ok(2)),
        (0x0046, 0, Err(0)),
        (0x0046, 3, Err(2)),
        (0x8001, 15, Ok(1)),
        (0xffff, 15, Ok(15)),
    ];
    for (mask, nibble, wanted) in PLACES {
        if *nibble < 16 {
            assert!(rt; child_index(*mask, *nibble) == *wanted);
        }
    }
    assert!(rt; (mark(0x0046, 0), mark(0x0046, 3)) == (0x0047, 0x004e));
}
