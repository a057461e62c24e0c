//! A desk that is refused memory once answers as with ample memory, or NoMemory, and nothing has changed then.
//!
//! Two desks are asked the same. At most one call meets the refusal: its desk is then as the other one, which isn't
//! asked yet, and what it answers next is what the other one does.
use crate::list_desks::desk_over;
use crate::twin_desks::{Ask, Twins, put_again};
use std::alloc::Global;
use std::test::Fail;
use upd_apply::{Applied, apply};
use upd_compile::{CompileFile, Mode, compile_file};
use upd_core::{Library, Serial};
use upd_deck::read_run;
use upd_desk::{Arrival, Reply};
use upd_memory::ListStore;
use upd_testkit::check::{holds, same, same_text};
use upd_text::{Fault, FaultKind};

const DECK_A: &str = "*DECK A\nONE\nTWO\nTHREE\n";

const TRIAL: &str = "*DECK A\nONE\nTWO\nTHREE\n*IDENT X\n*INSERT A.2\nNEW\n";

fn is_memory(fault: Fault) -> Result<(), Fail> {
    same("the fault", fault, FaultKind::NoMemory.without_line())
}

/// A run is read and applied.
fn applied(alloc: Global, library: &mut Library) -> Result<Applied, Fault> {
    let run = read_run(alloc, TRIAL.as_bytes())?;
    apply(alloc, library, &run)
}

/// The same for an empty library, which stays so and is tried again if memory is refused.
fn apply_again(alloc: Global, library: &mut Library) -> Result<Applied, Fail> {
    match applied(alloc, library) {
        Ok(applied) => Ok(applied),
        Err(fault) => {
            is_memory(fault)?;
            holds("no ident", library.idents().is_empty())?;
            Ok(applied(alloc, library)?)
        }
    }
}

/// The compile file in full mode after the first run.
fn compiled(alloc: Global, after: &Library, asked: &[Serial]) -> Result<CompileFile, Fault> {
    compile_file(alloc, after, &Library::new(alloc), Mode::Full, asked)
}

/// The library is compiled, again if memory is refused: the number of lines and of bytes, and whether ONE is first.
fn compile_again(
    alloc: Global,
    after: &Library,
    asked: &[Serial],
) -> Result<(u32, usize, bool), Fail> {
    let file = match compiled(alloc, after, asked) {
        Ok(file) => file,
        Err(fault) => {
            is_memory(fault)?;
            compiled(alloc, after, asked)?
        }
    };
    Ok((
        file.lines,
        file.bytes.len(),
        file.bytes.starts_with(b"ONE "),
    ))
}

/// A run that is read, applied to an empty library and compiled, each again if memory is refused.
#[test]
fn one_run_survives_a_refusal(rt: HostRuntime) -> Result<(), Fail> {
    let mut library = Library::new(rt.alloc());
    let applied = apply_again(rt.alloc(), &mut library)?;
    let found = compile_again(rt.alloc(), &library, &applied.compile)?;
    same("sizes, the first line", found, (4, 388, true))
}

/// Idents are purged back to one.
#[test]
fn purges_survive_a_refusal(rt: HostRuntime) -> Result<(), Fail> {
    const LIST: &[Ask<'_>] = &[
        Ask::Run(1, "full", DECK_A),
        Ask::Run(
            2,
            "full",
            "*IDENT X\n*INSERT A.4\nEND\n*DECK B\nBEE\n*IDENT Y\n*YANK A\n",
        ),
        Ask::Run(3, "full", "*PURGE X,*\n"),
        Ask::Compile,
        Ask::Idents,
    ];
    let wanted = "1 A deck held\n2 X set purged\n3 B deck purged\n4 Y set purged\n";
    let mut twins = Twins::new(rt.alloc());
    let mut last = Vec::new(rt.alloc());
    for asked in LIST {
        last = twins.ask(rt.alloc(), *asked)?.text?;
    }
    same_text("the last answer", std::str::from_utf8(&last)?, wanted)
}

const SET_X: &str = "*IDENT X\n*DELETE A.3\n";

/// Two runs, the settlement of the first, and both runs again. Then a run is settled that isn't there yet, and then one
/// of a lower number. Each is answered by this mark.
const SETTLEMENTS: &[(Ask<'_>, Option<u64>)] = &[
    (Ask::Run(1, "full", DECK_A), None),
    (Ask::Run(2, "full", SET_X), None),
    (Ask::Settle(1), Some(1)),
    (Ask::Run(1, "full", DECK_A), None),
    (Ask::Run(2, "full", SET_X), None),
    (Ask::Settle(3), Some(3)),
    (Ask::Settle(2), Some(3)),
];

fn marks_are_answered(alloc: Global, twins: &mut Twins) -> Result<(), Fail> {
    for (asked, mark) in SETTLEMENTS {
        let answer = twins.ask(alloc, *asked)?;
        same(asked, answer.mark, *mark)?;
    }
    Ok(())
}

#[test]
fn settlements_survive_a_refusal(rt: HostRuntime) -> Result<(), Fail> {
    let mut twins = Twins::new(rt.alloc());
    marks_are_answered(rt.alloc(), &mut twins)?;
    let answer = twins.ask(rt.alloc(), Ask::Run(3, "full", ""))?;
    let settled = FaultKind::Settled.without_line();
    same(
        "settled, a mark",
        (answer.text.err(), answer.mark),
        (Some(settled), None),
    )
}

fn arrival<'a>(number: u64, text: &'a str) -> Arrival<'a> {
    Arrival {
        site: "LYON",
        number,
        mode: "full",
        bytes: text.as_bytes(),
    }
}

/// How a list that arrives at a desk over a store is answered.
fn answers_to(
    alloc: Global,
    store: &mut ListStore,
    list: &[Arrival<'_>],
) -> Result<Vec<Result<Reply, Fault>>, Fault> {
    let mut desk = desk_over(alloc, store);
    let answers = desk.run_all(alloc, list);
    *store = desk.close();
    answers
}

/// One that was answered arrives at another desk, and is answered alike.
fn arrives_beside(
    alloc: Global,
    store: &mut ListStore,
    arrival: &Arrival<'_>,
    reply: &Reply,
) -> Result<(), Fail> {
    let text = std::str::from_utf8(arrival.bytes)?;
    let wanted = put_again(alloc, store, Ask::Run(arrival.number, "full", text));
    same(text, reply.text.as_slice(), wanted.text?.as_slice())
}

/// Those that were answered arrive at another desk one by one, and are answered alike.
fn all_arrive_beside(
    alloc: Global,
    store: &mut ListStore,
    list: &[Arrival<'_>],
    answers: &[Result<Reply, Fault>],
) -> Result<(), Fail> {
    same("answers", answers.len(), list.len())?;
    for (arrival, answer) in list.iter().zip(answers) {
        match answer {
            Ok(reply) => arrives_beside(alloc, store, arrival, reply)?,
            Err(fault) => is_memory(*fault)?,
        }
    }
    Ok(())
}

/// A list arrives at two desks, at once and one by one, and they are alike then. One that is refused memory is as good
/// as not sent.
fn arrives_at_both(alloc: Global, twins: &mut Twins, list: &[Arrival<'_>]) -> Result<(), Fail> {
    match answers_to(alloc, &mut twins.first, list) {
        Ok(answers) => all_arrive_beside(alloc, &mut twins.second, list, &answers)?,
        Err(fault) => is_memory(fault)?,
    }
    twins.are_alike(alloc)
}

/// A list of runs and their repeats that arrive together.
#[test]
fn runs_that_arrive_together_survive_a_refusal(rt: HostRuntime) -> Result<(), Fail> {
    let list = [
        arrival(7, DECK_A),
        arrival(6, SET_X),
        arrival(7, DECK_A),
        arrival(6, SET_X),
    ];
    arrives_at_both(rt.alloc(), &mut Twins::new(rt.alloc()), &list)
}
