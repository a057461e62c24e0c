//! The SQL texts of moves at many places.

pub(crate) const CARDS_BEHIND: &str = "\
    SELECT ident, num, deck, pos, body FROM cards WHERE deck = ?1 AND pos >= ?2 ORDER BY rowid";

pub(crate) const CARDS_IN_TURN: &str =
    "SELECT ident, num, deck, pos, body FROM cards ORDER BY rowid";

pub(crate) const MOVE_SHIFT: &str = "\
    UPDATE cards SET pos = pos + ?6 \
    WHERE ident = ?1 AND num >= ?2 AND num <= ?3 AND deck = ?4 AND pos >= ?5";
