//! Scalars, and rows found by the scalars of their keys.
ghost use Rattle.std.specs.Cmp.{on_total};
ghost use Rattle.std.specs.Cmp.Lexicographic.{lists_total};
ghost use Rattle.herm_rows.specs.OrderedByKey.{by_key, to_key, by_key_total, by_key_one, by_key_in_order};

use herm_base::Word;
use herm_rows::Row;
use std::cmp::Ordering;

/// A value without parts: a boolean, an integer, a text, or the place of an enumeration's name.
#[derive(Debug, Drop, PartialEq, Eq, PartialOrd, Ord)]
pub enum Scalar {
    Bool(bool),
    Int(i64),
    Text(Word),
    Tag(u32),
}

/// A row's key, and the place at which its table has the row.
#[derive(Debug, Drop)]
pub struct KeyRow {
    pub key: Vec<Scalar>,
    pub place: u32,
}

impl Row for KeyRow {
    ghost use Rattle.herm_values.specs.contracts.scalar.ScalarOrd.TheImpl.Laws.{total-law};

    type Key = Vec<Scalar>;

    ghost order = { by_key (λ row. row.key) ⟦<Vec<Scalar> as Ord>⟧.cmp };

    ghost order_key = { to_key (λ row. row.key) ⟦<Vec<Scalar> as Ord>⟧.cmp };

    fn order(&self, other: &KeyRow) -> Ordering {
        self.key.cmp(&other.key)
    }

    fn order_key(&self, key: &Vec<Scalar>) -> Ordering {
        self.key.cmp(key)
    }

    ghost is_order = { by_key_total (λ row. row.key) (on_total (λ key. key.items) (lists_total total-law)) };

    ghost is_one_key = { by_key_one (λ row. row.key) (on_total (λ key. key.items) (lists_total total-law)) };

    ghost are_keys_in_order = { by_key_in_order (λ row. row.key) (on_total (λ key. key.items) (lists_total total-law)) };
}
