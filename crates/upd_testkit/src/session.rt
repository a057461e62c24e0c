//! A desk that is asked in text, beside the reference desk, which has to answer the same.
use crate::applying::{card_ref, name};
use crate::asks::{Ask, Sent, lyon, shown};
use crate::check::same_text;
use crate::reference_desk::ReferenceDesk;
use crate::replies::{Line, accepted, compile_lines, refused};
use std::alloc::Global;
use std::test::Fail;
use upd_desk::Desk;
use upd_row_store::RowStore;
use upd_text::Fault;

/// A desk beside the reference desk.
#[derive(Drop)]
pub struct Session<S: RowStore> {
    pub desk: Desk<S>,
    pub reference: ReferenceDesk,
    pub alloc: Global,
}

impl<S: RowStore> Session<S> {
    /// A desk over an empty library.
    pub fn new(alloc: Global, store: S) -> Session<S> {
        Session::over(store, ReferenceDesk::new(alloc))
    }

    /// A desk over the library that the reference desk has.
    pub fn over(store: S, reference: ReferenceDesk) -> Session<S> {
        let alloc = reference.library.allocator();
        Session {
            desk: Desk::open(store),
            reference,
            alloc,
        }
    }

    /// The answer of both.
    pub fn ask(&mut self, ask: Ask<'_>) -> Result<String, Fail> {
        let answer = self.ask_desk(ask)?;
        let wanted = self.reference.answer(ask)?;
        same_text(ask, answer.as_str(), wanted.as_str())?;
        Ok(answer)
    }

    /// Both are asked the same, one question after the other.
    pub fn ask_all(&mut self, asks: &[Ask<'_>]) -> Result<(), Fail> {
        for ask in asks {
            self.ask(*ask)?;
        }
        Ok(())
    }

    /// The answer of the desk only, or the fault in its place.
    pub fn ask_desk(&mut self, ask: Ask<'_>) -> Result<String, Fail> {
        let answer = self.answer(ask)?;
        shown(self.alloc, answer)
    }

    /// The answer of the desk only, as its bytes; a mark as its digits.
    pub fn answer(&mut self, ask: Ask<'_>) -> Result<Result<Vec<u8>, Fault>, Fail> {
        match ask {
            Ask::Run(sent) => Ok(self.reply(sent)),
            Ask::Lyon(number, mode, text) => Ok(self.reply(lyon(number, mode, text))),
            Ask::Settle(site, number) => self.mark(site, number),
            Ask::Compile => Ok(self.compile_file()),
            Ask::Deck(deck) => Ok(self.desk.deck_list(self.alloc, &name(deck)?)),
            Ask::Card(card) => Ok(self.desk.card_list(self.alloc, card_ref(card)?)),
            Ask::Idents => Ok(self.desk.ident_list(self.alloc)),
            Ask::Yanks => Ok(self.desk.yank_list(self.alloc)),
        }
    }

    fn compile_file(&mut self) -> Result<Vec<u8>, Fault> {
        let file = self.desk.full_compile(self.alloc);
        file.map(|file| file.bytes)
    }

    fn reply(&mut self, sent: Sent<'_>) -> Result<Vec<u8>, Fault> {
        let bytes = sent.text.as_bytes();
        let reply = self
            .desk
            .arrive(self.alloc, sent.site, sent.number, sent.mode, bytes);
        reply.map(|reply| reply.text)
    }

    fn mark(&mut self, site: &str, number: u64) -> Result<Result<Vec<u8>, Fault>, Fail> {
        match self.desk.settle_site(self.alloc, site, number) {
            Ok(mark) => Ok(Ok(format!(in self.alloc; "{mark}")?.into_bytes())),
            Err(fault) => Ok(Err(fault)),
        }
    }

    /// The answer of both is this text: a reply, a listing, a mark, or a fault.
    pub fn says(&mut self, ask: Ask<'_>, wanted: &str) -> Result<(), Fail> {
        let answer = self.ask(ask)?;
        same_text(ask, answer.as_str(), wanted)
    }

    /// The run is accepted: it introduces these idents, and its compile file has these lines.
    pub fn accepts(
        &mut self,
        sent: Sent<'_>,
        idents: &[&str],
        lines: &[Line<'_>],
    ) -> Result<(), Fail> {
        let wanted = accepted(self.alloc, sent, idents, lines)?;
        self.says(Ask::Run(sent), wanted.as_str())
    }

    /// The run is refused by this fault, as "CardUnknown 13 at 2", and that is stored.
    pub fn refuses(&mut self, sent: Sent<'_>, fault: &str) -> Result<(), Fail> {
        let wanted = refused(self.alloc, sent, fault)?;
        self.says(Ask::Run(sent), wanted.as_str())
    }

    /// The full compile file has these lines.
    pub fn compiles(&mut self, lines: &[Line<'_>]) -> Result<(), Fail> {
        let wanted = compile_lines(self.alloc, lines, "\n")?;
        self.says(Ask::Compile, wanted.as_str())
    }
}
