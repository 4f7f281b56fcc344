//! What a search asks of the columns of a table.
ghost use Rattle.std.specs.Prelude.{◌≡◌, ◌↔◌, ◌<◌, ◌≤◌, ℕ, IsTrue};
ghost use Rattle.sorted_tables.specs.Tables.{IsLastOf};

/// The columns of a table. They may be bytes that nobody has tested: then they are as long as they
/// say, and nothing else is known of them.
pub trait Columns {
    // How many items there are.
    ghost count: { Self → ℕ };

    // The items are sorted, and their links right.
    ghost is_sorted: { Self → Type 0 };
}

/// Columns that are searched for a place: some items at the front come before it, and no others.
pub trait Fronts<Q>: Columns {
    // An item comes in front of what is sought.
    ghost is_front: { Self → Q → ℕ → Type 0 };

    /// Whether an item comes in front of what is sought.
    fn is_in_front(&self, at: usize, query: &Q) -> bool
        requires { at < Self.count self.now }
        ensures { Self.is_sorted self.now → IsTrue result ↔ is_front self.now query.now at };

    // What comes before an item in front is in front.
    ghost rising: { (c : Self) (q : Q) (j k : ℕ) → Self.is_sorted c → j ≤ k → k < Self.count c
        → is_front c q k → is_front c q j };
}

/// Columns whose items hold one another, and what is sought, and each of which has a link to the
/// last earlier one around it.
pub trait Links<Q>: Columns {
    // An item holds what is sought.
    ghost is_sought: { Self → Q → ℕ → Type 0 };

    // An item holds a later one.
    ghost is_around: { Self → ℕ → ℕ → Type 0 };

    // What is sought doesn't come before an item, so whatever holds it holds the item too.
    ghost is_behind: { Self → Q → ℕ → Type 0 };

    // The index and one more of the last earlier item around an item, or 0.
    ghost link: { Self → ℕ → ℕ };

    /// Whether an item holds what is sought.
    fn holds(&self, at: usize, query: &Q) -> bool
        requires { at < Self.count self.now }
        ensures { Self.is_sorted self.now → IsTrue result ↔ is_sought self.now query.now at };

    /// The link of an item.
    fn link_at(&self, at: usize) -> usize
        requires { at < Self.count self.now }
        ensures { result ≡ link self.now at };

    // What holds what is sought is around each later item that this is behind.
    ghost nested: { (c : Self) (q : Q) (j k : ℕ) → Self.is_sorted c → k < j → j < Self.count c
        → is_behind c q j → is_sought c q k → is_around c k j };

    // There is a link for each item.
    ghost linked: { (c : Self) (i : ℕ) → Self.is_sorted c → i < Self.count c
        → IsLastOf (λ k. is_around c k i) i (link c i) };
}
