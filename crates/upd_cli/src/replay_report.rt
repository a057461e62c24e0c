//! `replay`: whether the stored runs of a library make it again.
ghost use Rattle.std.specs.Prelude.{◌≡◌, ◌⊎◌, IfErr, IfOk, None, Ok};
ghost use Rattle.sqlite_wal.specs.Files.{image_at};
ghost use Rattle.upd_subcommands.specs.Command.{ending};
ghost use Rattle.upd_subcommands.specs.Status.{exit_status};
ghost use Rattle.upd_cli.specs.Replayed.{EndsReplay, IsReplayed, ReplaysFile, ReplaysFrom};

use crate::desk_work::{FileRows, TreeRows};
use crate::examined::{write_sound, write_unsound};
use sqlite::{FileStore, Start};
use sqlite_disk::Disk;
use std::alloc::Global;
use std::io::Write;
use upd_keep::{Replayed, replay_store};
use upd_memory::MirrorStore;
use upd_row_store::Meaning;
use upd_store::{Opened, Purpose, SqlStore, TreeStore, open_once};
use upd_subcommands::finish;
use upd_text::Fault;

/// Hands the stored runs of the library in a file in again. The line of the same library goes to the output, any other to
/// the fault stream. Returns the exit status.
pub(crate) fn replay_on<St: Start, W: Write, E: Write>(
    rt: &HostRuntime,
    file: &str,
    start: St,
    output: &mut W,
    faults: &mut E,
) -> u8
    ensures reported { IsReplayed ⟦<FileRows<St> as Meaning>⟧ (λ rows. rows.inner.conn)
        ⟦<TreeRows<St> as Meaning>⟧ (λ rows. rows.inner.store) (image_at St.Start)
        (ending result (W.contents output.old) (W.contents output.new) (E.contents faults.old) (E.contents faults.new)) }
    ensures silent { (result ≡ 1) ⊎ (result ≡ 2) → output.new ≡ output.old }
    ensures clean { result ≡ 0 → faults.new ≡ faults.old }
{
    match replay_file(rt, file, start) {
        Ok(replayed) => write_replayed(&replayed, output, faults),
        Err(fault) => finish(Err(fault), faults),
    }
}

/// Hands the stored runs of the library in a file in again.
fn replay_file<St: Start>(rt: &HostRuntime, file: &str, start: St) -> Result<Replayed, Fault>
    ensures replays { ReplaysFile ⟦<FileRows<St> as Meaning>⟧ (λ rows. rows.inner.conn)
        ⟦<TreeRows<St> as Meaning>⟧ (λ rows. rows.inner.store) (image_at St.Start) result }
    ensures failed { IfErr result (λ fault. exit_status fault.kind ≡ 3) }
{
    match open_once(rt, file, start, Purpose::Reading) {
        Ok(library) => replay_opened(rt.alloc(), library),
        Err(fault) => Err(fault),
    }
}

/// Hands the stored runs of a library that was opened either way in again.
fn replay_opened<D: Disk + Drop>(
    alloc: Global,
    library: Opened<FileStore<D>>,
) -> Result<Replayed, Fault>
    ensures below { IfOk library (λ s. ReplaysFrom ⟦<MirrorStore<TreeStore<FileStore<D>>> as Meaning>⟧
        (λ rows. (rows.inner ≡ s) × (rows.mirror ≡ None)) result) }
    ensures above { IfErr library (λ s. ReplaysFrom ⟦<MirrorStore<SqlStore<FileStore<D>>> as Meaning>⟧
        (λ rows. (rows.inner ≡ s) × (rows.mirror ≡ None)) result) }
    ensures failed { IfErr result (λ fault. exit_status fault.kind ≡ 3) }
{
    match library {
        Ok(library) => replay_store(alloc, MirrorStore::new(library)),
        Err(library) => replay_store(alloc, MirrorStore::new(library)),
    }
}

/// Writes what a replay has found, and returns the exit status.
fn write_replayed<W: Write, E: Write>(replayed: &Replayed, output: &mut W, faults: &mut E) -> u8
    ensures reported { EndsReplay (Ok replayed.now) (ending result (W.contents output.old) (W.contents output.new)
        (E.contents faults.old) (E.contents faults.new)) }
    ensures silent { (result ≡ 1) ⊎ (result ≡ 2) → output.new ≡ output.old }
    ensures clean { result ≡ 0 → faults.new ≡ faults.old }
{
    match replayed {
        Replayed::Same(line) => write_sound(b"", line, output, faults),
        Replayed::Other(line) => write_unsound(b"", line, faults),
    }
}
