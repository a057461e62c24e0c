//! What the rows of a table and the entries of its index add up to. Where these differ a row has no entry, an entry has no
//! row, or a key was changed.

use sqlite_trees::error::StoreError;
use sqlite_value::row::Row;
use sqlite_value::value::ValueRef;

/// A large odd number without a pattern.
const SPREAD: u64 = 0x9E37_79B9_7F4A_7C15;

/// The number of rows, and a sum over their keys and rowids that doesn't depend on their order.
#[derive(Clone, Copy, Debug, PartialEq, Eq)]
pub(crate) struct Tally {
    count: u64,
    sum: u64,
}

impl Tally {
    pub(crate) fn new() -> Tally {
        Tally { count: 0, sum: 0 }
    }

    /// Counts a row of a table, whose rowid comes first, and then its key of this number of columns.
    pub(crate) fn add_row(&mut self, row: &Row, keys: usize) {
        let mut key = spread(0, row.get(0));
        for at in 0..keys {
            key = spread(key, row.get(at.saturating_add(1)));
        }
        self.add(key);
    }

    /// Counts an entry of an index: the key of a row, and then its rowid.
    pub(crate) fn add_entry(&mut self, entry: &Row, keys: usize) {
        let mut key = spread(0, entry.get(keys));
        for at in 0..keys {
            key = spread(key, entry.get(at));
        }
        self.add(key);
    }

    fn add(&mut self, key: u64) {
        self.count = self.count.saturating_add(1);
        self.sum = self.sum.wrapping_add(key);
    }

    /// Whether the same rows were counted.
    pub(crate) fn compared(&self, other: &Tally) -> Result<(), StoreError> {
        if self.count == other.count && self.sum == other.sum {
            Ok(())
        } else {
            Err(StoreError::Corrupt)
        }
    }
}

/// A key is made of numbers and texts.
fn spread(key: u64, value: ValueRef<'_>) -> u64 {
    match value {
        ValueRef::Int(number) => mixed(key, u64::from_le_bytes(number.to_le_bytes())),
        ValueRef::Text(text) => spread_text(key, text),
        _ => key,
    }
}

fn spread_text(key: u64, text: &[u8]) -> u64 {
    let mut mixed_so_far = mixed(key, SPREAD);
    for byte in text {
        mixed_so_far = mixed(mixed_so_far, u64::from(*byte));
    }
    mixed_so_far
}

fn mixed(key: u64, word: u64) -> u64 {
    let product = (key ^ word).wrapping_mul(SPREAD);
    product ^ (product >> 29)
}
