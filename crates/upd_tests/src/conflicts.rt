//! Conflicts of a run with what others have done since its author looked. Rule 10.94.

use std::alloc::Global;
use std::test::Fail;
use upd_edit::{warning_list, write_warnings};
use upd_testkit::applying::{after, name};
use upd_testkit::check::same_text;

/// Deck A of ten lines, A.2 to A.11, into which X has put one behind the eighth. W has switched A.7 off; V yanks W, and U
/// yanks V.
const BASE: &[&str] = &[
    "*DECK A\nL1\nL2\nL3\nL4\nL5\nL6\nL7\nL8\nL9\nL10\n",
    "*IDENT W\n*DELETE A.7\n*IDENT V\n*YANK W\n*IDENT U\n*YANK V\n",
    "*IDENT X\n*INSERT A.9\nX1\n",
];

/// What others did after X, the run, and its conflicts.
const CONFLICTS: &[(&str, &str, &str)] = &[
    // They delete a line in the middle of a block that is moved, or rewritten.
    (
        "*IDENT P\n*DELETE A.4\n",
        "*IDENT M\n*DELETE A.3,A.5\n*INSERT A.11\nL2\nL3\nL4\n",
        "upd: 2: A.4 was switched by P, which came after X\n",
    ),
    // They rewrite it.
    (
        "*IDENT P\n*DELETE A.4\nTHEIRS\n",
        "*IDENT M\n*DELETE A.3,A.4\n*DELETE A.5\n*INSERT A.11\nL2\n",
        "upd: 2: A.4 is off already, by P\nupd: 2: A.4 was switched by P, which came after X\n\
upd: 3: A.5 stands beside P.1, which came after X\n",
    ),
    // They put a line into a block that is deleted.
    (
        "*IDENT P\n*INSERT A.4\nTHEIRS\n",
        "*IDENT M\n*DELETE A.3,A.4\n*DELETE A.5,A.6\n",
        "upd: 2: A.4 stands beside P.1, which came after X\nupd: 3: A.5 stands beside P.1, which came after X\n",
    ),
    (
        "*IDENT P\n*INSERT A.4\nTHEIRS\n",
        "*IDENT M\n*DELETE A.3,A.6\n",
        "upd: 2: P.1 came after X and is deleted\n",
    ),
    // They delete a block into which a line is put, or beside which.
    (
        "*IDENT P\n*DELETE A.3,A.6\n",
        "*IDENT M\n*INSERT A.4\nMINE\n*BEFORE A.4\nMINE\n*INSERT A.2\nMINE\n*BEFORE A.8\nMINE\n*INSERT A.8\nMINE\n",
        "upd: 2: A.4 was switched by P, which came after X\nupd: 4: A.3 was switched by P, which came after X\n\
upd: 6: A.3 was switched by P, which came after X\nupd: 8: A.6 was switched by P, which came after X\n",
    ),
    // They yank a set, in all decks or in one, or the deck, and a line of it is changed.
    (
        "*IDENT Y\n*YANK X\n",
        "*IDENT M\n*DELETE X.1\nX1 CHANGED\n",
        "upd: 2: X.1 was taken out by yanks after X\n",
    ),
    (
        "*IDENT Y\n*SELYANK A.X\n",
        "*IDENT M\n*INSERT X.1\nMINE\n",
        "upd: 2: X.1 was taken out by yanks after X\n",
    ),
    (
        "*IDENT Y\n*YANKDECK A\n",
        "*IDENT M\n*DELETE A.4\nMINE\n",
        "upd: 2: A.4 was taken out by yanks after X\n",
    ),
    // They yank the set that switched a line off, which is active again: that line is one beside the others.
    (
        "*IDENT Y\n*YANK W\n",
        "*IDENT M\n*DELETE A.6\nMINE\n*RESTORE A.7\n*DELETE A.5\n",
        "upd: 2: A.7 came back by yanks after X\nupd: 4: A.7 came back by yanks after X\n",
    ),
    // So too where they yank the yank of its yank, or switch that off, or yank a yank of their own.
    (
        "*IDENT P\n*YANK U\n",
        "*IDENT M\n*INSERT A.6\nMINE\n",
        "upd: 2: A.7 came back by yanks after X\n",
    ),
    (
        "*IDENT P\n*DELETE U.1\n",
        "*IDENT M\n*BEFORE A.8\nMINE\n",
        "upd: 2: A.7 came back by yanks after X\n",
    ),
    (
        "*IDENT P\n*YANK X\n*IDENT Q\n*YANK P\n*IDENT R\n*YANK Q\n",
        "*IDENT M\n*DELETE X.1\nMINE\n",
        "upd: 2: X.1 was taken out by yanks after X\n",
    ),
    // The line stands where the first of theirs was put.
    (
        "*IDENT P\n*INSERT A.11\nTHEIRS\n",
        "*IDENT M\n*INSERT A.11\nMINE\n*BEFORE P.1\nMINE\n*INSERT P.1\nMINE\n*RESTORE A.10,P.1\n",
        "upd: 2: A.11 stands beside P.1, which came after X\nupd: 4: P.1 came after X\nupd: 6: P.1 came after X\nupd: 8: P.1 came after X\n",
    ),
    // The ident that the author saw may have been one of the same name.
    (
        "*PURGE X\n*IDENT X\n",
        "*IDENT M\n*DELETE A.9\n",
        "upd: 1: X was purged and came again: what its purge took out isn't seen\n",
    ),
    // Edits in different places: a line that was off already is no neighbour, and a line between is enough.
    (
        "*IDENT P\n*DELETE A.4\nTHEIRS\n*INSERT A.11\nMORE\n",
        "*IDENT M\n*DELETE A.6\nMINE\n*INSERT A.8\nMINE\n*BEFORE A.3\nMINE\n*DELETE X.1,A.10\n*RESTORE A.7\n*DELETE A.4,Q.1\n",
        "upd: 10: A.4 is off already, by P\n",
    ),
    // What they did is undone, by a yank or by a set that restores, or it changes no text.
    (
        "*IDENT P\n*DELETE A.4\n*IDENT Q\n*YANK P\n",
        "*IDENT M\n*DELETE A.3\nMINE\n",
        "",
    ),
    (
        "*IDENT P\n*INSERT A.4\nTHEIRS\n*IDENT Q\n*DELETE P.1\n",
        "*IDENT M\n*DELETE A.3,A.6\nMINE\n",
        "",
    ),
    (
        "*IDENT P\n*DELETE A.4\n*IDENT Q\n*RESTORE A.4\n*IDENT R\n*YANK X\n*IDENT S\n*YANK R\n",
        "*IDENT M\n*DELETE A.3,A.5\nMINE\n*DELETE X.1\nMINE\n",
        "",
    ),
    (
        "*IDENT P\n*YANK U\n*IDENT Q\n*DELETE A.7\n",
        "*IDENT M\n*DELETE A.6,A.8\nMINE\n",
        "",
    ),
];

fn has_conflicts(alloc: Global, theirs: &str, run: &str, wanted: &str) -> Result<(), Fail> {
    let library = after(alloc, &[BASE[0], BASE[1], BASE[2], theirs])?;
    let list = warning_list(alloc, &library, Some(name("X")?), run.as_bytes())?;
    let found = write_warnings(alloc, run.as_bytes(), &list)?;
    same_text(run, std::str::from_utf8(&found)?, wanted)
}

#[test]
fn what_meets_younger_idents_is_reported(rt: HostRuntime) -> Result<(), Fail> {
    for (theirs, run, wanted) in CONFLICTS {
        has_conflicts(rt.alloc(), theirs, run, wanted)?;
    }
    Ok(())
}
