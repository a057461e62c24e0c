//! Whether what is at a path is a sound library.
ghost use Rattle.std.specs.Prelude.{◌≡◌, ◌++◌, true, false, None, decimal, IfErr, IfOk, OnOk};
ghost use Rattle.std.specs.List.{count_by};
ghost use Rattle.sqlite.specs.Files.{file_state};
ghost use Rattle.sqlite.specs.Held.{state};
ghost use Rattle.sqlite_std_file.specs.File.{IsFresh};
ghost use Rattle.sqlite_wal.specs.Files.{image_at};
ghost use Rattle.upd_records.specs.Rows.{Rows};
ghost use Rattle.upd_keep.specs.Examining.{Examines, ExaminesFile, FailsToOpen, HasLog, IsFoundIn, ReportsOn, SaysOpening};
ghost use Rattle.upd_keep.specs.Examining.{is_held_deck, reply_bytes, sound_line};
ghost use Rattle.upd_keep.specs.Replaying.{AreStoredTables};
ghost use Rattle.upd_keep.specs.Situations.{situation_of};
ghost use Rattle.upd_store.specs.Faults.{kind_for};
ghost use Rattle.upd_text.specs.declared.fault.FaultKind.TheVariants.{NoMemory, Store};

use crate::all_rows::all_rows;
use crate::looking_at::situation_at;
use crate::page_sums::wrong_pages_at;
use crate::situation::{Situation, of_version};
use crate::stored_tables::StoredTables;
use itoa::Buffer;
use sqlite::{Connection, Error, ErrorCode, FileFrom, Start};
use sqlite_disk::Disk;
use std::alloc::{AllocError, Global};
use std::fs;
use std::os::unix::fs::MetadataExt;
use upd_core::Ident;
use upd_examine::findings;
use upd_records::RunRow;
use upd_sqlite::Rising;
use upd_store::{SqlStore, fault_of, has_frames, no_memory, store_at};
use upd_text::{Fault, FaultKind};

/// What was found in the tables of a library.
#[derive(Debug, Drop)]
pub enum Examined {
    /// Nothing is wrong. The line has the numbers of decks, cards and stored runs, and of bytes of replies and file.
    Sound(Vec<u8>),
    /// What is wrong, a line each.
    Unsound(Vec<u8>),
}

/// What there is at a path.
#[derive(Debug, Drop)]
pub enum Report {
    /// A library, what was found in its tables, and whether the log beside its file has frames.
    Library(Examined, bool),
    /// Nothing that could be examined, and a line on pages of the file that don't end in their sum, empty where there are
    /// none.
    Other(Situation, Vec<u8>),
}

/// Whether the tables of a connection are those of a sound library. Nothing changes. The fault is NoMemory or Store, at 0;
/// it is Store inside a transaction, and where the connection has no tables of a library. `size` is that of the file, in
/// bytes, for the line of a sound library.
pub fn examine_tables<S: Rising>(
    alloc: Global,
    conn: &mut Connection<S>,
    size: u64,
) -> Result<Examined, Fault>
    ensures examines { Examines result (state S.Store conn.old) (state S.Store conn.new) }
    ensures mode { conn.new.in_transaction ≡ conn.old.in_transaction }
{
    if !conn.is_autocommit() {
        return Err(store_at(0));
    }
    match all_rows(conn, alloc) {
        Ok(all) => match judged(alloc, &all, size) {
            Ok(found) => Ok(found),
            Err(lost) => Err(no_memory(lost)),
        },
        Err(error) => Err(fault_of(error)),
    }
}

/// What is found in rows.
fn judged(alloc: Global, all: &StoredTables, size: u64) -> Result<Examined, AllocError>
    ensures { IfOk result (λ found. (it : Rows) → AreStoredTables it all.now → IsFoundIn it found) }
{
    let text = findings(
        alloc,
        &all.library,
        &all.states,
        &all.kept.runs,
        &all.kept.marks,
    )?;
    if !text.is_empty() {
        return Ok(Examined::Unsound(text));
    }
    let line = sound_line(
        alloc,
        held_decks(&all.library.idents),
        all.library.cards.len(),
        all.kept.runs.len(),
        reply_bytes(&all.kept.runs),
        size,
    )?;
    Ok(Examined::Sound(line))
}

/// How many bytes the replies of stored runs have.
fn reply_bytes(runs: &[RunRow]) -> u64
    ensures { result ≡ reply_bytes runs.now }
{
    let mut count = 0u64;
    for run in runs {
        count = count.saturating_add(run.reply.len() as u64);
    }
    count
}

/// The line of a sound library with these numbers of decks, cards and stored runs, and of bytes of the replies and of
/// the file.
fn sound_line(
    alloc: Global,
    decks: usize,
    cards: usize,
    runs: usize,
    replies: u64,
    size: u64,
) -> Result<Vec<u8>, AllocError>
    ensures { IfOk result (λ line. line.items ≡ sound_line decks cards runs replies size) }
{
    let mut line = Vec::new(alloc);
    push_count(&mut line, b"sound: decks ", decks as u64)?;
    push_count(&mut line, b", cards ", cards as u64)?;
    push_count(&mut line, b", runs ", runs as u64)?;
    push_count(&mut line, b", replies ", replies)?;
    push_count(&mut line, b", file ", size)?;
    line.extend_from_slice(b"\n")?;
    Ok(line)
}

fn push_count(line: &mut Vec<u8>, words: &[u8], count: u64) -> Result<(), AllocError>
    ensures { OnOk result (line.new.items ≡ line.old.items ++ (words.now ++ decimal count)) }
{
    line.extend_from_slice(words)?;
    line.extend_from_slice(Buffer::new().format(count).as_bytes())
}

fn held_decks(idents: &[Ident]) -> usize
    ensures { result ≡ count_by is_held_deck idents.now }
{
    idents
        .iter()
        .filter(|ident| ident.held && ident.kind.is_deck())
        .count()
}

/// Examines what is at a path, and changes no table. An empty log may be left beside a database. The fault is NoMemory or
/// Store, at 0, where memory runs out or the file can't be read. Where there is no library to examine, the situation
/// comes from the file's kind, its first bytes, the error of opening it, and its version.
pub fn examine<St: Start>(rt: &HostRuntime, path: &str, start: St) -> Result<Report, Fault>
    ensures said { ExaminesFile (file_state {g = ⟦<FileFrom<St> as Disk>⟧}) (image_at St.Start) result }
    ensures failed { IfErr result (λ fault. fault.kind ≡ Store → (files : _) × IsFresh true files.log
        × IsFresh false files.db × FailsToOpen ⟦<FileFrom<St> as Disk>⟧ files) }
{
    if let Some(situation) = situation_at(rt, path) {
        return Ok(Report::Other(situation, Vec::new(rt.alloc())));
    }
    let log = has_frames(rt, path).unwrap_or(false);
    let size = fs::metadata(rt, path).map_or(0, |found| found.len());
    match Connection::open_from(rt, path, false, start) {
        Ok(conn) => examine_opened(rt.alloc(), conn, log, size),
        Err((error, _)) => unopened(rt, path, error),
    }
}

/// Why a database can't be opened.
fn unopened(rt: &HostRuntime, path: &str, error: Error) -> Result<Report, Fault>
    ensures says { SaysOpening error result }
    ensures failed { IfErr result (λ fault. (situation_of error ≡ None) × (fault.kind ≡ kind_for error)) }
{
    let none = Vec::new(rt.alloc());
    match error {
        Error::SqliteFailure(ErrorCode::DatabaseBusy) => Ok(Report::Other(Situation::InUse, none)),
        Error::SqliteFailure(ErrorCode::CannotOpen) => {
            Ok(Report::Other(Situation::CannotOpen, none))
        }
        Error::SqliteFailure(ErrorCode::DatabaseCorrupt) => {
            Ok(Report::Other(Situation::Damaged, wrong_pages_at(rt, path)))
        }
        Error::SqliteFailure(ErrorCode::NotADatabase) => {
            Ok(Report::Other(Situation::BreaksRules, none))
        }
        error => Err(fault_of(error)),
    }
}

/// Examines the tables of a database, which is closed without a write.
fn examine_opened<S: Rising + Drop>(
    alloc: Global,
    conn: Connection<S>,
    log: bool,
    size: u64,
) -> Result<Report, Fault>
    ensures said { ReportsOn (state S.Store) conn result }
    ensures log { IfOk result (HasLog log) }
    ensures memory { IfErr result (λ fault. fault.kind ≡ NoMemory) }
{
    match SqlStore::adopt(conn) {
        Ok(store) => {
            let mut conn = store.into_connection();
            match examine_tables(alloc, &mut conn, size) {
                Ok(found) => Ok(Report::Library(found, log)),
                Err(fault) => match fault.kind {
                    FaultKind::NoMemory => Err(FaultKind::NoMemory.without_line()),
                    _ => Ok(Report::Other(Situation::Unreadable, Vec::new(alloc))),
                },
            }
        }
        Err((fault, _)) => match fault.kind {
            FaultKind::NoMemory => Err(FaultKind::NoMemory.without_line()),
            _ => Ok(Report::Other(of_version(fault), Vec::new(alloc))),
        },
    }
}
