//! The comparison of nibbles.
ghost use Rattle.std.specs.Prelude.{◌≡◌, ◌≢◌, ◌+◌, ◌<◌, ◌≤◌, ◌⊎◌, ◌^◌, length, take, drop, slice_index};

use radix_keys::Nibblet;

/// How far a fragment and a list agree, and how many nibbles were compared for that.
#[derive(Clone, Copy)]
pub struct Agreement {
    pub same: usize,
    pub compared: usize,
}

/// Compares a fragment with the list from `depth` on. Nothing else does, but that `agreed` needs no
/// comparison for a fragment of one nibble, which the mask has found.
pub fn compare(fragment: &Nibblet, list: &Nibblet, depth: usize) -> Agreement
    requires { depth ≤ length list.now }
    ensures within { result.same ≤ length fragment.now }
    ensures inside { depth + result.same ≤ length list.now }
    ensures fits { depth + result.same < 2 ^ 64 }
    ensures same { take result.same fragment.now ≡ take result.same (drop depth list.now) }
    ensures apart { result.same < length fragment.now → depth + result.same < length list.now
        → slice_index fragment.now result.same ≢ slice_index list.now (depth + result.same) }
    ensures ended { (result.same ≡ length fragment.now)
        ⊎ (depth + result.same ≡ length list.now)
        → result.compared ≡ result.same }
    ensures parted { result.same < length fragment.now → depth + result.same < length list.now
        → result.compared ≡ result.same + 1 }
{
    let most = fragment.len().min(list.len() - depth);
    let same = fragment.agreement(list, depth);
    let compared = if same < most { same + 1 } else { same };
    Agreement { same, compared }
}
