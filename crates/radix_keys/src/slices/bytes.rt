//! How far two slices of bytes agree.
ghost use Rattle.std.specs.Prelude.{◌≡◌, ◌≢◌, ◌+◌, ◌<◌, ◌≤◌, length, slice_index, take, drop};
ghost use Rattle.std.specs.Int.{w64, from_be_bytes};

/// Eight bytes as a number, the first the highest.
fn word_at(bytes: &[u8], i: usize) -> u64
    requires { i + 8 ≤ length bytes.now }
    ensures { result ≡ from_be_bytes w64 (take 8 (drop i bytes.now)) }
{
    u64::from_be_bytes([
        bytes[i],
        bytes[i + 1],
        bytes[i + 2],
        bytes[i + 3],
        bytes[i + 4],
        bytes[i + 5],
        bytes[i + 6],
        bytes[i + 7],
    ])
}

/// How many bytes agree, from `known` on by whole words of eight, where the first `known` do.
pub(super) fn same_words(one: &[u8], other: &[u8], known: usize) -> usize
    requires known { take known one.now ≡ take known other.now }
    requires within { known ≤ length one.now }
    requires inside { known ≤ length other.now }
    ensures within { result ≤ length one.now }
    ensures inside { result ≤ length other.now }
    ensures same { take result one.now ≡ take result other.now }
{
    let most = one.len().min(other.len());
    let mut at = known;
    while most - at >= 8 && word_at(one, at) == word_at(other, at) {
        at += 8;
    }
    at
}

/// How many bytes agree, where the first `known` do.
pub(super) fn same_bytes(one: &[u8], other: &[u8], known: usize) -> usize
    requires known { take known one.now ≡ take known other.now }
    requires within { known ≤ length one.now }
    requires inside { known ≤ length other.now }
    ensures within { result ≤ length one.now }
    ensures inside { result ≤ length other.now }
    ensures same { take result one.now ≡ take result other.now }
    ensures apart { result < length one.now → result < length other.now
        → slice_index one.now result ≢ slice_index other.now result }
{
    let most = one.len().min(other.len());
    let mut at = known;
    while at < most && one[at] == other[at] {
        at += 1;
    }
    at
}
