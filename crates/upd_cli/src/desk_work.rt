//! Commands at the desk of the library in a file: it is opened, the command is carried out, and it is closed.
ghost use Rattle.std.specs.Prelude.{◌≡◌, ◌⊎◌, ◌+◌, IfErr, IfOk, None};
ghost use Rattle.sqlite_wal.specs.Files.{image_at};
ghost use Rattle.upd_cli.specs.Opened.{IsWarmed};
ghost use Rattle.upd_cli.specs.Works.{Begins, Leaves, LeavesFrom, Runs, purpose_of};
ghost use Rattle.upd_store.specs.OpenedAgain.{AreFilesOf, Closes};
ghost use Rattle.upd_subcommands.specs.Inputs.{HandsRuns, IsSpool, UsesFaults, ReadsFirst, WritesRefusals, most_read};
ghost use Rattle.upd_subcommands.specs.Status.{exit_status};
ghost use Rattle.upd_subcommands.specs.Streams.{TakesFront, stream};

use sqlite::{FileFrom, FileStore, Files, Start};
use sqlite_disk::Disk;
use std::alloc::Global;
use std::io::{Read, Write};
use std::time::Clock;
use upd_desk::Desk;
use upd_memory::MirrorStore;
use upd_row_store::{Meaning, RowStore};
use upd_store::file::{FileLibrary, closed};
use upd_store::{Opened, Purpose, SqlStore, TreeStore, open_once};
use upd_subcommands::{Host, bind, carry_out_at, correct_listing, read_first, read_listing};
use upd_text::Fault;
use upd_words::Command;

/// The library in a file, with its rows in memory once they were read: by `warm`, or in a commit after the first.
pub(crate) type FileRows<St> = MirrorStore<FileLibrary<St>>;

/// The library in a file that was opened below SQL.
pub(crate) type TreeRows<St> = MirrorStore<TreeStore<FileStore<FileFrom<St>>>>;

/// Carries out a command on the library in a file, and returns the exit status, and the closed files where they were opened.
/// What `try` and `correct` read is read before.
pub(crate) fn run_on_file<St: Start, R: Read, W: Write, E: Write>(
    rt: &HostRuntime,
    file: &str,
    start: St,
    command: &Command<'_>,
    input: &mut R,
    output: &mut W,
    faults: &mut E,
) -> (Result<u8, Fault>, Option<Files<FileFrom<St>>>)
    ensures leaves { Leaves ⟦<FileRows<St> as Meaning>⟧ (λ rows. rows.inner.conn)
        ⟦<TreeRows<St> as Meaning>⟧ (λ rows. rows.inner.store) (image_at St.Start) result.1
        (stream R.remaining input.old input.new) (stream W.contents output.old output.new)
        (stream E.contents faults.old faults.new) command.now result.0 }
    ensures front { ¬ IsSpool command.now → TakesFront (most_read command.now) (R.remaining input.old) (R.remaining input.new) }
    ensures waits { ¬ (HandsRuns command.now ⊎ ReadsFirst command.now) → input.new ≡ input.old }
    ensures refused { IfOk result.0 (λ status. (status ≡ 2) ⊎ ((status ≡ 1) × ¬ WritesRefusals command.now)
        → output.new ≡ output.old) }
    ensures failed { IfErr result.0 (λ fault. exit_status fault.kind ≡ 1
        → WritesRefusals command.now ⊎ (output.new ≡ output.old)) }
    ensures clean { IfOk result.0 (λ status. status ≡ 0 → ¬ UsesFaults command.now → faults.new ≡ faults.old) }
    ensures quiet { IfErr result.0 (λ _. ¬ UsesFaults command.now → faults.new ≡ faults.old) }
{
    match read_first(rt.alloc(), command, input) {
        Ok(text) => run_with_text(rt, file, start, command, &text, input, output, faults),
        Err(fault) => (Err(fault), None),
    }
}

/// Carries out a command on the library in a file, once the text is read that is read first. The file of `correct` may have a
/// listing in place of a library.
fn run_with_text<St: Start, R: Read, W: Write, E: Write>(
    rt: &HostRuntime,
    file: &str,
    start: St,
    command: &Command<'_>,
    text: &[u8],
    input: &mut R,
    output: &mut W,
    faults: &mut E,
) -> (Result<u8, Fault>, Option<Files<FileFrom<St>>>)
    ensures { LeavesFrom ⟦<FileRows<St> as Meaning>⟧ (λ rows. rows.inner.conn)
        ⟦<TreeRows<St> as Meaning>⟧ (λ rows. rows.inner.store) (image_at St.Start) result.1
        (stream R.remaining input.old input.new) (stream W.contents output.old output.new)
        (stream E.contents faults.old faults.new) command.now text.now result.0 }
{
    match command {
        Command::Correct { set } => match read_listing(rt, file) {
            Ok(Some(listing)) => {
                let status = correct_listing(rt.alloc(), &listing, set, text, output, faults);
                (Ok(status), None)
            }
            Ok(None) => run_at_desk(rt, file, start, command, text, input, output, faults),
            Err(fault) => (Err(fault), None),
        },
        _ => run_at_desk(rt, file, start, command, text, input, output, faults),
    }
}

/// What a command opens the library for.
fn purpose_of<'a>(command: &Command<'a>) -> Purpose<'a>
    ensures { result ≡ purpose_of command.now }
{
    match *command {
        Command::Run { site, number, .. } => Purpose::Run { site, number },
        Command::Correct { .. }
        | Command::CorrectAt { .. }
        | Command::CorrectParts { .. }
        | Command::Try { .. }
        | Command::Ask(_) => Purpose::Reading,
        _ => Purpose::Writing,
    }
}

/// Carries out a command at the desk of the library in a file, and returns the exit status, and the files where they were
/// opened. The fault is `SqlStore::open`'s where they can't be; then nothing is read or written.
///
/// No other function opens the store of a desk. One that names it is dear to prove (docs/DECISIONS.md, D-100).
fn run_at_desk<St: Start, R: Read, W: Write, E: Write>(
    rt: &HostRuntime,
    file: &str,
    start: St,
    command: &Command<'_>,
    text: &[u8],
    input: &mut R,
    output: &mut W,
    faults: &mut E,
) -> (Result<u8, Fault>, Option<Files<FileFrom<St>>>)
    ensures { LeavesFrom ⟦<FileRows<St> as Meaning>⟧ (λ rows. rows.inner.conn)
        ⟦<TreeRows<St> as Meaning>⟧ (λ rows. rows.inner.store) (image_at St.Start) result.1
        (stream R.remaining input.old input.new) (stream W.contents output.old output.new)
        (stream E.contents faults.old faults.new) command.now text.now result.0 }
{
    match open_once(rt, file, start, purpose_of(command)) {
        Ok(library) => {
            let host = Host {
                alloc: rt.alloc(),
                clock: rt,
                bound: bind(rt, command),
            };
            let (ended, files) = with_opened(&host, library, command, text, input, output, faults);
            (ended, Some(files))
        }
        Err(fault) => (Err(fault), None),
    }
}

/// Carries out a command at a desk of a library that was opened either way, and returns the exit status and the files.
fn with_opened<C: Clock, D: Disk + Drop, R: Read, W: Write, E: Write>(
    host: &Host<'_, C>,
    library: Opened<FileStore<D>>,
    command: &Command<'_>,
    text: &[u8],
    input: &mut R,
    output: &mut W,
    faults: &mut E,
) -> (Result<u8, Fault>, Files<D>)
    ensures below { IfOk library (λ s. Runs ⟦<MirrorStore<TreeStore<FileStore<D>>> as Meaning>⟧
        (stream R.remaining input.old input.new) (stream W.contents output.old output.new)
        (stream E.contents faults.old faults.new) (λ rows. (rows.inner ≡ s) × (rows.mirror ≡ None))
        (λ rows. AreFilesOf result.1 rows.inner.store)
        command.now text.now result.0) }
    ensures above { IfErr library (λ s. Runs ⟦<MirrorStore<SqlStore<FileStore<D>>> as Meaning>⟧
        (stream R.remaining input.old input.new) (stream W.contents output.old output.new)
        (stream E.contents faults.old faults.new) (λ rows. (rows.inner ≡ s) × (rows.mirror ≡ None))
        (λ rows. Closes result.1 rows.inner.conn)
        command.now text.now result.0) }
{
    match library {
        Ok(library) => with_trees(host, library, command, text, input, output, faults),
        Err(library) => with_files(host, library, command, text, input, output, faults),
    }
}

/// Carries out a command at a desk over the trees of open files, and returns the exit status and the files.
fn with_trees<C: Clock, D: Disk + Drop, R: Read, W: Write, E: Write>(
    host: &Host<'_, C>,
    library: TreeStore<FileStore<D>>,
    command: &Command<'_>,
    text: &[u8],
    input: &mut R,
    output: &mut W,
    faults: &mut E,
) -> (Result<u8, Fault>, Files<D>)
    ensures { Runs ⟦<MirrorStore<TreeStore<FileStore<D>>> as Meaning>⟧
        (stream R.remaining input.old input.new) (stream W.contents output.old output.new)
        (stream E.contents faults.old faults.new) (λ rows. (rows.inner ≡ library) × (rows.mirror ≡ None))
        (λ rows. AreFilesOf result.1 rows.inner.store)
        command.now text.now result.0 }
{
    let (ended, library) = with_library(host, library, true, command, text, input, output, faults);
    (ended, library.into_store().close())
}

/// Carries out a command at the desk of a library in open files, and closes them. Returns the exit status and the files.
fn with_files<C: Clock, D: Disk + Drop, R: Read, W: Write, E: Write>(
    host: &Host<'_, C>,
    library: SqlStore<FileStore<D>>,
    command: &Command<'_>,
    text: &[u8],
    input: &mut R,
    output: &mut W,
    faults: &mut E,
) -> (Result<u8, Fault>, Files<D>)
    ensures { Runs ⟦<MirrorStore<SqlStore<FileStore<D>>> as Meaning>⟧
        (stream R.remaining input.old input.new) (stream W.contents output.old output.new)
        (stream E.contents faults.old faults.new) (λ rows. (rows.inner ≡ library) × (rows.mirror ≡ None))
        (λ rows. Closes result.1 rows.inner.conn)
        command.now text.now result.0 }
{
    let (ended, library) = with_library(host, library, false, command, text, input, output, faults);
    (ended, closed(library.into_connection()))
}

/// Carries out a command at the desk of a library in any store, and returns the exit status and the store. Below SQL a run is
/// a repeat.
fn with_library<C: Clock, S: RowStore, R: Read, W: Write, E: Write>(
    host: &Host<'_, C>,
    store: S,
    is_below: bool,
    command: &Command<'_>,
    text: &[u8],
    input: &mut R,
    output: &mut W,
    faults: &mut E,
) -> (Result<u8, Fault>, S)
    ensures { Runs ⟦<MirrorStore<S> as Meaning>⟧
        (stream R.remaining input.old input.new) (stream W.contents output.old output.new)
        (stream E.contents faults.old faults.new) (λ rows. (rows.inner ≡ store) × (rows.mirror ≡ None))
        (λ rows. rows.inner ≡ result.1) command.now text.now result.0 }
{
    let mut rows = MirrorStore::new(store);
    begin(host.alloc, &mut rows, command, is_below);
    let mut desk = Desk::open(rows);
    let ended = carry_out_at(host, &mut desk, command, text, input, output, faults);
    (ended, desk.close().into_inner())
}

/// Reads the rows into memory before runs are handed in, if they can be had: a new run asks for them more than once.
fn begin<S: RowStore>(
    alloc: Global,
    rows: &mut MirrorStore<S>,
    command: &Command<'_>,
    is_below: bool,
)
    ensures { Begins ⟦<MirrorStore<S> as Meaning>⟧ command.now rows.old rows.new }
{
    match command {
        Command::Run { .. } => {
            if !is_below {
                warm(alloc, rows);
            }
        }
        Command::Spool => warm(alloc, rows),
        Command::Serve { .. } => warm(alloc, rows),
        Command::Try { .. } => warm(alloc, rows),
        _ => {}
    }
}

/// Reads the rows of a store into memory, if they can be had.
fn warm<S: RowStore>(alloc: Global, rows: &mut MirrorStore<S>)
    ensures { IsWarmed ⟦<MirrorStore<S> as Meaning>⟧ rows.old rows.new }
{
    rows.warm(alloc);
}
