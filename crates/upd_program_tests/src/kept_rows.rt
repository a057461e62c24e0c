//! What a command leaves in the tables of a library of two sites, with a stored refusal and marks.
use crate::console::{answers, ask_of, fresh, library, remove};
use crate::file_sessions::{SILENT, Step, take_all};
use crate::refusals::WAYS;
use crate::served_address::serves;
use std::test::Fail;

const REPLIES: &str =
    "{\"compile\":\"\",\"idents\":[\"A\"],\"lines\":0,\"mode\":\"quick\",\"run\":1,\"site\":\"LYON\",\
\"state\":\"accepted\"}\n\
{\"compile\":\"\",\"idents\":[\"X\"],\"lines\":0,\"mode\":\"quick\",\"run\":2,\"site\":\"LYON\",\
\"state\":\"accepted\"}\n\
{\"at\":1,\"fault\":9,\"mode\":\"full\",\"name\":\"TextNowhere\",\"run\":4,\"site\":\"LYON\",\
\"state\":\"refused\"}\n\
{\"compile\":\"\",\"idents\":[],\"lines\":0,\"mode\":\"quick\",\"run\":7,\"site\":\"OSLO\",\
\"state\":\"accepted\"}\n";

/// Three runs of two sites are accepted, and one is refused.
const SENT: Step<'static> = Step::Answers(
    "spool",
    &[],
    "RUN LYON 1 quick 22\n*DECK A\nONE\nTWO\nTHREE\n\nRUN LYON 2 quick 25\n*IDENT X\n*DELETE A.2\nBEE\n\n\
RUN LYON 4 full 6\nHELLO\n\nRUN OSLO 7 quick 0\n\n",
    (0, REPLIES, ""),
);

const SETTLED: Step<'static> = Step::Settles("LYON", "1", "1");

/// The other site settles runs that never came; its run 7 stays stored.
const OSLO_SETTLED: Step<'static> = Step::Settles("OSLO", "3", "3");

const REPLY: &str =
    "{\"compile\":\"\",\"idents\":[\"Y\"],\"lines\":0,\"mode\":\"quick\",\"run\":3,\"site\":\"LYON\",\
\"state\":\"accepted\"}\n";

const THIRD: &[&str] = &["LYON", "3", "quick"];

/// Run 3 is accepted, or its first reply is repeated.
const YANKED: Step<'static> = Step::Answers("run", THIRD, "*IDENT Y\n*YANK X\n", (0, REPLY, ""));

/// The rows after these runs and the settlement, of the library that docs/library-file.md shows, and the refusal.
const ROWS: Step<'static> = Step::HasRows(
    "cards|A|1|1|0|*DECK A\ncards|A|2|1|1|ONE\ncards|A|3|1|3|TWO\ncards|A|4|1|4|THREE\ncards|X|1|1|2|BEE\n\
cards|Y|1|0|0|*YANK X\n\
counts|0|2|0|1\n\
entries|A|1|0|1|1\nentries|A|2|0|1|1\nentries|A|2|1|2|0\nentries|A|3|0|1|1\nentries|A|4|0|1|1\n\
entries|X|1|0|2|1\nentries|Y|1|0|3|1\n\
idents|1|A|1|0|1\nidents|2|X|0|0|1\nidents|3|Y|0|0|1\n\
meta|version|3\n\
runs|LYON|2|1|*IDENT X\n*DELETE A.2\nBEE\n|1|{\"compile\":\"\",\"idents\":[\"X\"],\"lines\":0,\"mode\":\"quick\",\
\"run\":2,\"site\":\"LYON\",\"state\":\"accepted\"}\n\
runs|LYON|3|1|*IDENT Y\n*YANK X\n|1|{\"compile\":\"\",\"idents\":[\"Y\"],\"lines\":0,\"mode\":\"quick\",\
\"run\":3,\"site\":\"LYON\",\"state\":\"accepted\"}\n\
runs|LYON|4|0|HELLO\n|0|{\"at\":1,\"fault\":9,\"mode\":\"full\",\"name\":\"TextNowhere\",\"run\":4,\
\"site\":\"LYON\",\"state\":\"refused\"}\n\
runs|OSLO|7|1||1|{\"compile\":\"\",\"idents\":[],\"lines\":0,\"mode\":\"quick\",\"run\":7,\
\"site\":\"OSLO\",\"state\":\"accepted\"}\n\
settled|LYON|1\nsettled|OSLO|3\n\
states|A|1|1\nstates|A|2|1\nstates|A|3|1\nstates|A|4|1\nstates|X|1|0\nstates|Y|1|1\n\
targets|Y|1|0|0|2|0\n",
);

/// A command is asked over a text of deck A, and its answer is not looked at.
fn is_asked(rt: &HostRuntime, file: &str, name: &str, words: &[&str]) -> Result<(), Fail> {
    ask_of(rt, file, name, words, "*DECK A\nTWO\n")?;
    Ok(())
}

/// What of these commands could change something is refused.
fn are_asked(rt: &HostRuntime, file: &str) -> Result<(), Fail> {
    is_asked(rt, file, "run", &["LYON", "2", "full"])?;
    is_asked(rt, file, "try", &["full"])?;
    is_asked(rt, file, "init", &[])?;
    for (name, words) in WAYS {
        is_asked(rt, file, name, words)?;
    }
    Ok(())
}

/// A copy that this command makes has all rows of the library, which keeps them.
fn is_copied(rt: &HostRuntime, file: &str, command: &str) -> Result<(), Fail> {
    let copy = fresh(rt, "all-rows")?;
    answers(rt, &[command, file, &copy], "", SILENT)?;
    take_all(rt, &copy, &[ROWS])?;
    remove(rt, &copy)
}

#[test]
fn questions_refusals_and_copies_change_no_row(rt: HostRuntime) -> Result<(), Fail> {
    let file = library(&rt, "asked")?;
    take_all(&rt, &file, &[SENT, SETTLED, OSLO_SETTLED, YANKED])?;
    are_asked(&rt, &file)?;
    is_copied(&rt, &file, "backup")?;
    is_copied(&rt, &file, "compact")?;
    take_all(&rt, &file, &[ROWS])?;
    remove(&rt, &file)
}

/// Run 3 is sent over HTTP. Afterwards its reply is stored beside the others, and is repeated. A migration from the
/// first schema keeps all rows (rule 10.49), but for marks, whose table it makes; an examination changes none (10.87).
#[test]
fn rows_of_runs_over_http_are_kept(rt: HostRuntime) -> Result<(), Fail> {
    const POST: &str =
        "POST /sites/LYON/runs/3/quick HTTP/1.1\r\nContent-Length: 17\r\n\r\n*IDENT Y\n*YANK X\n";
    const ANSWER: &str =
        "HTTP/1.1 200 OK\r\nContent-Type: application/json\r\nContent-Length: 95\r\nConnection: close\r\n\r\n\
{\"compile\":\"\",\"idents\":[\"Y\"],\"lines\":0,\"mode\":\"quick\",\"run\":3,\"site\":\"LYON\",\
\"state\":\"accepted\"}";
    const FIRST_SCHEMA: Step<'static> = Step::Changes(
        "DROP TABLE settled; DROP TABLE states; DROP TABLE counts; UPDATE meta SET v = 1",
    );
    const MIGRATED: Step<'static> = Step::Answers("migrate", &[], "", SILENT);
    const SOUND: Step<'static> = Step::Examines("sound: decks 1, cards 6, runs 4, replies 375");
    let file = library(&rt, "posted")?;
    take_all(&rt, &file, &[SENT])?;
    serves(&rt, &file, POST, ANSWER)?;
    let steps = [
        YANKED,
        FIRST_SCHEMA,
        MIGRATED,
        SETTLED,
        OSLO_SETTLED,
        SOUND,
        ROWS,
    ];
    take_all(&rt, &file, &steps)?;
    remove(&rt, &file)
}
