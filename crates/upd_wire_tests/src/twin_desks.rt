//! Two desks over lists that are asked the same, where one request for memory may be refused.
use crate::list_desks::desk_over;
use std::alloc::Global;
use std::test::Fail;
use upd_memory::ListStore;
use upd_testkit::check::{holds, same_text};
use upd_text::{Fault, FaultKind};

/// What is asked of a desk: a run of the site LYON, with its number and mode; a settlement; a listing.
#[derive(Clone, Copy, Debug)]
pub enum Ask<'a> {
    Run(u64, &'a str, &'a str),
    Settle(u64),
    Compile,
    Idents,
    Yanks,
}

/// An answer, the mark that a settlement answers, and how many cards the desk has looked at.
#[derive(Drop)]
pub struct Answer {
    pub text: Result<Vec<u8>, Fault>,
    pub mark: Option<u64>,
    pub work: u64,
}

impl Answer {
    fn is_lost(&self) -> bool {
        matches!(&self.text, Err(fault) if fault.kind == FaultKind::NoMemory)
    }

    fn is(&self, other: &Answer) -> bool {
        let same = match (&self.text, &other.text) {
            (Ok(one), Ok(two)) => one.as_slice() == two.as_slice(),
            (Err(one), Err(two)) => one == two,
            _ => false,
        };
        same && self.mark == other.mark && self.work == other.work
    }
}

/// Asks a desk over a store.
fn put(alloc: Global, store: &mut ListStore, asked: Ask<'_>) -> Answer {
    let mut desk = desk_over(alloc, store);
    let mut mark = None;
    let text = match asked {
        Ask::Run(number, mode, text) => desk
            .arrive(alloc, "LYON", number, mode, text.as_bytes())
            .map(|reply| reply.text),
        Ask::Settle(number) => match desk.settle_site(alloc, "LYON", number) {
            Ok(settled) => {
                mark = Some(settled);
                Ok(Vec::new(alloc))
            }
            Err(fault) => Err(fault),
        },
        Ask::Compile => desk.full_compile(alloc).map(|file| file.bytes),
        Ask::Idents => desk.ident_list(alloc),
        Ask::Yanks => desk.yank_list(alloc),
    };
    let work = desk.work();
    *store = desk.close();
    Answer { text, mark, work }
}

/// Asks, and once more if memory is refused.
pub fn put_again(alloc: Global, store: &mut ListStore, asked: Ask<'_>) -> Answer {
    let answer = put(alloc, store, asked);
    if answer.is_lost() {
        put(alloc, store, asked)
    } else {
        answer
    }
}

/// The rows of a store in all tables.
fn rows_of(alloc: Global, store: &ListStore) -> Result<String, Fail> {
    Ok(format!(in alloc; "{:?}", store.tables())?)
}

/// Two stores that show the same.
#[derive(Drop)]
pub struct Twins {
    pub first: ListStore,
    pub second: ListStore,
}

impl Twins {
    pub fn new(alloc: Global) -> Twins {
        Twins {
            first: ListStore::new(alloc),
            second: ListStore::new(alloc),
        }
    }

    /// Asks the first, and once more if memory is refused: both have the same rows then.
    fn ask_first(&mut self, alloc: Global, asked: Ask<'_>) -> Result<Answer, Fail> {
        let answer = put(alloc, &mut self.first, asked);
        if answer.is_lost() {
            self.are_alike(alloc)?;
            Ok(put(alloc, &mut self.first, asked))
        } else {
            Ok(answer)
        }
    }

    /// Asks both: the answer, which both give.
    pub fn ask(&mut self, alloc: Global, asked: Ask<'_>) -> Result<Answer, Fail> {
        let answer = self.ask_first(alloc, asked)?;
        let wanted = put_again(alloc, &mut self.second, asked);
        holds(asked, answer.is(&wanted))?;
        Ok(answer)
    }

    /// Both have the same rows in all tables.
    pub fn are_alike(&self, alloc: Global) -> Result<(), Fail> {
        let first = rows_of(alloc, &self.first)?;
        let second = rows_of(alloc, &self.second)?;
        same_text("the tables", first.as_str(), second.as_str())
    }
}
