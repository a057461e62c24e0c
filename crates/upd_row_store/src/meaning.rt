//! What a store of rows means.

ghost use Rattle.std.specs.Prelude.{ℕ};
ghost use Rattle.upd_records.specs.Rows.{Rows};

/// The meaning of a store: what it keeps, and what a crash leaves of it. Clauses cite it as one record, `S.Meaning`.
pub trait Meaning {
    // What is in the file, or in what takes its place.
    ghost Image: { Type 0 };

    // Which tables an image shows. An image that is not a library shows none.
    ghost shows: { Image → Rows → Type 0 };

    // What the last commit left. It says something only while the store is open.
    ghost image: { Self → Image };

    // No failure has closed the store.
    ghost is_open: { Self → Type 0 };

    // That it is open is a fact: there is at most one proof of it.
    ghost open_once: { (s : Self) → IsProp (is_open s) };

    // The premise: the disk has returned what was written to it.
    ghost is_honest: { Self → Type 0 };

    // What the next open may find after a crash at this moment.
    ghost may_leave: { Self → Image → Type 0 };

    // How often it has failed.
    ghost failures_of: { Self → ℕ };

    // How often the disk has failed under it.
    ghost disk_failures_of: { Self → ℕ };

    // How many decks loads have read.
    ghost decks_read_of: { Self → ℕ };
}
