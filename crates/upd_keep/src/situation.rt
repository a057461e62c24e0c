//! What a path can be instead of a library that can be examined.
ghost use Rattle.std.specs.Prelude.{◌≡◌};
ghost use Rattle.upd_keep.specs.Situations.{situation_at_version, words_of};

use upd_text::{Fault, FaultKind};

/// Why what is at a path is not examined.
#[derive(Clone, Copy, Debug, PartialEq, Eq)]
pub enum Situation {
    LogAlone,
    NoFile,
    NoTarget,
    Folder,
    NotRegular,
    SecondName,
    OpenFolder,
    ForeignLog,
    ClosedLog,
    Empty,
    ForeignEmpty,
    NotSqlite,
    NoPermission,
    ReadOnly,
    CannotOpen,
    InUse,
    Damaged,
    BreaksRules,
    NotLibrary,
    OlderSchema,
    OtherTables,
    Unreadable,
    NewerSchema,
}

impl Situation {
    /// What there is, and what to do.
    pub fn words(self) -> &'static str
        ensures { result.now ≡ words_of self }
    {
        match self {
            Situation::LogAlone => {
                "no file, or an empty one, beside a log, FILE-wal, with commits of a library: put the file of that log back, or move the log away"
            }
            Situation::NoFile =>
                "there is no such file: check the path; `upd init` makes a library",
            Situation::NoTarget =>
                "this is a link to a file that isn't there: check where it leads",
            Situation::Folder => "this is a folder, not a file: check the path",
            Situation::NotRegular => "this is no regular file: check the path",
            Situation::SecondName => {
                "the file has a second name, a hard link: remove that name, or make it a copy"
            }
            Situation::OpenFolder => {
                "everybody may write its folder, and so put another file or log there: `chmod o-w` or `chmod +t` on the folder"
            }
            Situation::ForeignLog => {
                "the log beside it, FILE-wal, is another user's, who may be at work: once that user has run `upd spool FILE </dev/null`, remove it"
            }
            Situation::ClosedLog => {
                "the log beside it, FILE-wal, can't be opened: let the user read and write it; a folder, link or database there must go"
            }
            Situation::Empty => "the file is empty: `upd init` makes a library in it",
            Situation::ForeignEmpty =>
                "the file is empty, and another user's: remove it, and `upd init` makes a library",
            Situation::NotSqlite =>
                "this is not a database of SQLite: check the path; after an `upd init` that was ended, call it again",
            Situation::NoPermission => {
                "no permission to read it: let the user read and write the file and its folder"
            }
            Situation::ReadOnly => {
                "it can't be written, and that is needed to look at it: let the user write it and its folder, or copy it"
            }
            Situation::CannotOpen => {
                "it can't be opened: let the user write its folder; no link or journal may be beside it"
            }
            Situation::InUse => {
                "it is in use by another command or a server: try again once that has ended"
            }
            Situation::Damaged => {
                "the file or its log is damaged, or another program wrote to one: copy both; then move away a log of another file, restore a backup, or use `sqlite3 COPY .dump`"
            }
            Situation::BreaksRules => {
                "a database with tables or rows that upd can't take, or a damaged one: check the path, or restore a backup"
            }
            Situation::NotLibrary =>
                "a database without a library: check the path; after an `upd init` that was ended, call it again",
            Situation::OlderSchema => "a library of an older schema: copy it, then `upd migrate`",
            Situation::OtherTables => {
                "a library whose tables were changed or are missing: restore a backup"
            }
            Situation::Unreadable => {
                "a library with a row that upd can't read, or a damaged one: restore a backup"
            }
            Situation::NewerSchema => "a library of a newer schema: use the newer upd",
        }
    }
}

/// What a file is whose tables were refused with this fault, which is Store at the version in the file.
pub(crate) fn of_version(fault: Fault) -> Situation
    ensures { result ≡ situation_at_version fault.at }
{
    match fault.at {
        0 => Situation::NotLibrary,
        1 | 2 => Situation::OlderSchema,
        3 => Situation::OtherTables,
        _ => Situation::NewerSchema,
    }
}
