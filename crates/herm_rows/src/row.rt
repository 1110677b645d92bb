//! What a row is asked for.
ghost use Rattle.std.specs.Prelude.{◌≡◌, ◌≤◌};
ghost use Rattle.std.specs.declared.cmp.Ordering.{Ordering};
ghost use Rattle.std.specs.declared.cmp.Ordering.TheVariants.{Less, Equal, Greater};
ghost use Rattle.std.specs.Cmp.{IsTotalOrder};
ghost use Rattle.herm_rows.specs.Keys.{IsOneKey, AreKeysInOrder};

use std::cmp::Ordering;

/// A row with a key, by which rows are ordered.
pub trait Row {
    type Key;

    // What `order` answers.
    ghost order: { Self → Self → Ordering };

    // What `order_key` answers.
    ghost order_key: { Self → Self.Key → Ordering };

    /// How the row's key stands to the other row's.
    fn order(&self, other: &Self) -> Ordering
        ensures { result ≡ order self.now other.now };

    /// How the row's key stands to this key.
    fn order_key(&self, key: &Self::Key) -> Ordering
        ensures { result ≡ order_key self.now key.now };

    ghost is_order: { IsTotalOrder order };

    ghost is_one_key: { IsOneKey order order_key };

    ghost are_keys_in_order: { AreKeysInOrder order order_key };
}
