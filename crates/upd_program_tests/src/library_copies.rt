//! What the copy of a library is, what is in its way, and who may read it. Rules 10.81 and 10.82.
use crate::console::{accepts, answers, fresh, library, remove};
use crate::file_sessions::{SILENT, Step, has_bytes, take_all};
use sqlite::Connection;
use sqlite_disk::Unknown;
use std::fs;
use std::os::unix::fs::{PermissionsExt, symlink};
use std::test::Fail;
use upd_store::SqlStore;
use upd_testkit::check::{holds, same};

/// A copy is made by this command.
fn copies(rt: &HostRuntime, command: &str, file: &str, copy: &str) -> Result<(), Fail> {
    answers(rt, &[command, file, copy], "", SILENT)
}

/// A deck of 1,000 cards arrives. Its full reply has 97 bytes for each line of the library.
fn add_deck(rt: &HostRuntime, file: &str, number: &str, deck: &str) -> Result<(), Fail> {
    let lines = "X\n".repeat(rt.alloc(), 999)?;
    let run = format!(in rt.alloc(); "*DECK {deck}\n{}", lines.as_str())?;
    accepts(rt, file, number, "full", &run)
}

/// Two such decks arrive.
fn add_decks(rt: &HostRuntime, file: &str) -> Result<(), Fail> {
    add_deck(rt, file, "1", "A")?;
    add_deck(rt, file, "2", "B")
}

/// Two files have the same bytes, more than a quarter of a mebibyte.
fn are_same_and_large(rt: &HostRuntime, file: &str, copy: &str) -> Result<(), Fail> {
    let bytes = fs::read(rt, file)?;
    holds("a large library", bytes.len() > 262_144)?;
    has_bytes(rt, copy, &bytes)
}

#[test]
fn a_large_library_is_copied_whole(rt: HostRuntime) -> Result<(), Fail> {
    let (file, copy) = (library(&rt, "large")?, fresh(&rt, "large-copy")?);
    add_decks(&rt, &file)?;
    copies(&rt, "backup", &file, &copy)?;
    are_same_and_large(&rt, &file, &copy)?;
    remove(&rt, &copy)?;
    remove(&rt, &file)
}

/// A library whose pages have no sums, as an earlier program made it.
fn without_sums(rt: &HostRuntime, name: &str) -> Result<String, Fail> {
    let file = fresh(rt, name)?;
    match Connection::open_from(rt, file.as_str(), false, Unknown) {
        Ok(conn) => match SqlStore::init(conn) {
            Ok(store) => store.into_connection().close()?,
            Err((fault, _)) => return Err(fault.into()),
        },
        Err((error, _)) => return Err(error.into()),
    }
    Ok(file)
}

/// Two files have so many bytes for a sum in each page, and the second is smaller.
fn gets_sums(rt: &HostRuntime, file: &str, copy: &str) -> Result<(), Fail> {
    let (old, new) = (fs::read(rt, file)?, fs::read(rt, copy)?);
    let sums = (old.get(20).copied(), new.get(20).copied());
    same("the bytes of a sum", sums, (Some(0), Some(8)))?;
    holds("a smaller file", new.len() < old.len())
}

#[test]
fn a_library_made_anew_is_smaller_and_has_sums(rt: HostRuntime) -> Result<(), Fail> {
    let (file, copy) = (without_sums(&rt, "loose")?, fresh(&rt, "anew")?);
    add_decks(&rt, &file)?;
    take_all(&rt, &file, &[Step::Settles("LYON", "1", "1")])?;
    copies(&rt, "compact", &file, &copy)?;
    gets_sums(&rt, &file, &copy)?;
    is_refused(&rt, "compact", &file, &copy)?;
    remove(&rt, &copy)?;
    remove(&rt, &file)
}

/// No copy is made by this command.
fn is_refused(rt: &HostRuntime, command: &str, file: &str, copy: &str) -> Result<(), Fail> {
    answers(
        rt,
        &[command, file, copy],
        "",
        (3, "", "upd: Write (33) at 0\n"),
    )
}

fn with_ending(rt: &HostRuntime, copy: &str, ending: &str) -> Result<String, Fail> {
    Ok(format!(in rt.alloc(); "{copy}{ending}")?)
}

/// Nothing is under the name of a copy with this ending, not even a link.
fn is_free(rt: &HostRuntime, copy: &str, ending: &str) -> Result<(), Fail> {
    let path = with_ending(rt, copy, ending)?;
    holds(ending, fs::symlink_metadata(rt, path.as_str()).is_err())
}

/// A file under the name of the copy with this ending is in its way, and stays.
fn is_in_the_way(rt: &HostRuntime, file: &str, copy: &str, ending: &str) -> Result<(), Fail> {
    const OTHER: &[u8] = b"OTHER";
    let taken = with_ending(rt, copy, ending)?;
    fs::write(rt, taken.as_str(), OTHER)?;
    is_refused(rt, "backup", file, copy)?;
    has_bytes(rt, &taken, OTHER)?;
    Ok(fs::remove_file(rt, taken.as_str())?)
}

#[test]
fn what_is_in_the_way_of_a_copy_stays(rt: HostRuntime) -> Result<(), Fail> {
    const ENDINGS: [&str; 4] = ["", "-wal", "-journal", ".part"];
    let (file, copy) = (library(&rt, "kept")?, fresh(&rt, "kept-copy")?);
    for ending in ENDINGS {
        is_in_the_way(&rt, &file, &copy, ending)?;
    }
    for ending in ENDINGS {
        is_free(&rt, &copy, ending)?;
    }
    remove(&rt, &file)
}

/// No copy is made under a name that SQLite reads as something else, or takes for part of another file.
#[test]
fn a_copy_has_the_name_of_a_file(rt: HostRuntime) -> Result<(), Fail> {
    let file = library(&rt, "unnamed")?;
    for copy in [":memory:", "file:upd-copy.db"] {
        is_refused(&rt, "backup", &file, copy)?;
        is_free(&rt, copy, "")?;
    }
    for ending in ["-journal", "-shm"] {
        is_refused(
            &rt,
            "backup",
            &file,
            with_ending(&rt, &file, ending)?.as_str(),
        )?;
        is_free(&rt, &file, ending)?;
    }
    remove(&rt, &file)
}

/// A link under the name of the copy with this ending is not followed.
fn is_not_followed(rt: &HostRuntime, file: &str, copy: &str, ending: &str) -> Result<(), Fail> {
    let link = with_ending(rt, copy, ending)?;
    let target = with_ending(rt, copy, ".to")?;
    symlink(rt, target.as_str(), link.as_str())?;
    is_refused(rt, "backup", file, copy)?;
    is_free(rt, copy, ".to")?;
    Ok(fs::remove_file(rt, link.as_str())?)
}

#[test]
fn a_copy_follows_no_link(rt: HostRuntime) -> Result<(), Fail> {
    let (file, copy) = (library(&rt, "linked")?, fresh(&rt, "linked-copy")?);
    is_not_followed(&rt, &file, &copy, "")?;
    is_not_followed(&rt, &file, &copy, ".part")?;
    remove(&rt, &file)
}

/// A file may be read and written by its owner only.
fn is_private(rt: &HostRuntime, file: &str) -> Result<(), Fail> {
    let mode = fs::metadata(rt, file)?.permissions().mode();
    same("the rights", mode & 0o777, 0o600)
}

#[test]
fn a_new_library_and_its_copy_are_their_owners(rt: HostRuntime) -> Result<(), Fail> {
    let (file, copy) = (library(&rt, "private")?, fresh(&rt, "private-copy")?);
    is_private(&rt, &file)?;
    copies(&rt, "backup", &file, &copy)?;
    is_private(&rt, &copy)?;
    is_free(&rt, &copy, ".part")?;
    remove(&rt, &copy)?;
    remove(&rt, &file)
}
