//! Equality of tries.
ghost use Rattle.std.specs.Prelude.{false};

use radix_trie::Trie;
use std::process::Abort;

/// A value that is equal to none, itself among them.
#[derive(Drop)]
struct Unequal;

impl PartialEq for Unequal {
    ghost use Rattle.std.proofs.Common.{refl};

    ghost eq = { λ _ _. false };

    ghost laws = { record { symm = λ _ _. refl; trans = λ _ _ _ e _. e } };

    fn eq(&self, _other: &Unequal) -> bool {
        false
    }
}

/// A trie of such values.
type Unequals = Trie<&'static str, Unequal>;

/// The empty tries are equal, and with a pair each is unequal to the other and to itself.
fn check_unequal(rt: &impl Abort, left: &mut Unequals, right: &mut Unequals) {
    assert!(rt; *left == *right);
    assert!(rt; matches!(left.insert("a", Unequal), Ok(None)));
    assert!(rt; matches!(right.insert("a", Unequal), Ok(None)));
    assert!(rt; *left != *right);
    assert!(rt; !(*left == *left));
}

/// The values' own equality decides, and without values there is nothing to decide.
#[test]
fn values_equal_to_none(rt: HostRuntime) {
    let mut left: Unequals = Trie::new(rt.alloc());
    let mut right: Unequals = Trie::default(rt.alloc());
    check_unequal(&rt, &mut left, &mut right);
}
