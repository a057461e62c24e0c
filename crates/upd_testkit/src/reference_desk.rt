//! The reference desk: a library, and lists of the runs with their answers and of the marks. It stores no status.
use crate::applying::{card_ref, name};
use crate::asks::{Ask, Sent, lyon, shown};
use crate::replies::{accepted_with, refused};
use std::alloc::Global;
use std::test::Fail;
use upd_apply::apply;
use upd_compile::{CompileFile, Mode, compile_file, list_card, list_deck, list_idents, list_yanks};
use upd_core::ident::name_at;
use upd_core::{Library, Name, Serial};
use upd_deck::read_run;
use upd_text::Fault;

/// A run with its answer.
#[derive(Drop)]
pub struct StoredRun {
    pub site: String,
    pub number: u64,
    pub mode: String,
    pub text: String,
    pub answer: String,
}

/// A desk that works everything out again for each answer.
pub struct ReferenceDesk {
    pub library: Library,
    /// The number of accepted runs.
    pub accepted: u64,
    /// Each run that has a reply, settled or not.
    pub stored: Vec<StoredRun>,
    /// The settlements that raised a mark: a site's mark is the largest of its numbers.
    pub marks: Vec<(String, u64)>,
}

// By hand: see CONTRIBUTING.md.
impl Drop for ReferenceDesk {
    fn drop(self) {
        let ReferenceDesk {
            library: _,
            accepted: _,
            stored: _,
            marks: _,
        } = self;
    }
}

impl ReferenceDesk {
    /// A desk over an empty library.
    pub fn new(alloc: Global) -> ReferenceDesk {
        ReferenceDesk::over(Library::new(alloc))
    }

    /// A desk over a library, with no runs.
    pub fn over(library: Library) -> ReferenceDesk {
        let alloc = library.allocator();
        ReferenceDesk {
            library,
            accepted: 0,
            stored: Vec::new(alloc),
            marks: Vec::new(alloc),
        }
    }

    fn alloc(&self) -> Global {
        self.library.allocator()
    }

    /// The answer as text: a reply, a listing, a mark, or a fault.
    pub fn answer(&mut self, ask: Ask<'_>) -> Result<String, Fail> {
        let alloc = self.alloc();
        match ask {
            Ask::Run(sent) => self.arrive(sent),
            Ask::Lyon(number, mode, text) => self.arrive(lyon(number, mode, text)),
            Ask::Settle(site, number) => self.settle(site, number),
            Ask::Compile => self.compile_all(),
            Ask::Deck(deck) => shown(alloc, list_deck(alloc, &self.library, &name(deck)?)),
            Ask::Card(card) => shown(alloc, list_card(alloc, &self.library, card_ref(card)?)),
            Ask::Idents => shown(alloc, list_idents(alloc, &self.library)),
            Ask::Yanks => shown(alloc, list_yanks(alloc, &self.library)),
        }
    }

    /// The full compile file of the library.
    fn compile_all(&self) -> Result<String, Fail> {
        let file = compile_file(self.alloc(), &self.library, &self.library, Mode::Full, &[]);
        shown(self.alloc(), file.map(|file| file.bytes))
    }

    /// The answer to an arrival: its reply, or its fault.
    fn arrive(&mut self, sent: Sent<'_>) -> Result<String, Fail> {
        if let Some(fault) = self.refused_unread(sent) {
            return self.fault(fault);
        }
        match self.stored_run(sent) {
            Some(run) => self.repeat(run, sent),
            None => self.store(sent),
        }
    }

    /// Why an arrival is refused before its text is read, if it is.
    fn refused_unread(&self, sent: Sent<'_>) -> Option<&'static str> {
        if let Some(fault) = refused_on_admission(sent.site, sent.number) {
            return Some(fault);
        }
        if Mode::read(sent.mode).is_none() {
            return Some("BadMode (25) at 0");
        }
        if sent.text.len() > 65_536 {
            return Some("RunLong (1) at 0");
        }
        if sent.number <= self.mark(sent.site) {
            return Some("Settled (27) at 0");
        }
        None
    }

    /// The run that came before under the same site and number.
    fn stored_run(&self, sent: Sent<'_>) -> Option<&StoredRun> {
        self.stored.iter().find(|run| run.site.as_str() == sent.site && run.number == sent.number)
    }

    fn fault(&self, text: &str) -> Result<String, Fail> {
        Ok(String::from_str(self.alloc(), text)?)
    }

    fn repeat(&self, run: &StoredRun, sent: Sent<'_>) -> Result<String, Fail> {
        if run.mode.as_str() == sent.mode && run.text.as_str() == sent.text {
            self.fault(run.answer.as_str())
        } else {
            self.fault("RunChanged (26) at 0")
        }
    }

    fn store(&mut self, sent: Sent<'_>) -> Result<String, Fail> {
        let answer = self.reply_to(sent)?;
        let run = with_answer(self.alloc(), sent, answer.as_str())?;
        self.stored.push(run)?;
        Ok(answer)
    }

    /// The reply to a run that is new.
    fn reply_to(&mut self, sent: Sent<'_>) -> Result<String, Fail> {
        let mode = Mode::read(sent.mode).ok_or("no mode")?;
        match self.run(mode, sent.text) {
            Ok((idents, file)) => self.accepted_reply(sent, &idents, &file),
            Err(fault) => refused_by(self.alloc(), sent, fault),
        }
    }

    /// Applies a run and compiles it: the idents that it introduced and its compile file, or the first refusal.
    fn run(&mut self, mode: Mode, text: &str) -> Result<(Vec<Serial>, CompileFile), Fault> {
        let alloc = self.alloc();
        let run = read_run(alloc, text.as_bytes())?;
        let mut after = self.library.copy()?;
        let applied = apply(alloc, &mut after, &run)?;
        let file = compile_file(alloc, &after, &self.library, mode, &applied.compile)?;
        self.library = after;
        self.accepted = self.accepted.saturating_add(1);
        Ok((applied.idents, file))
    }

    fn accepted_reply(
        &self,
        sent: Sent<'_>,
        idents: &[Serial],
        file: &CompileFile,
    ) -> Result<String, Fail> {
        let names = self.names(idents)?;
        let compile = escaped(self.alloc(), &file.bytes)?;
        accepted_with(self.alloc(), sent, &names, &compile, file.lines as usize)
    }

    fn names(&self, idents: &[Serial]) -> Result<Vec<Name>, Fail> {
        let mut names = Vec::new(self.alloc());
        for serial in idents {
            names.push(name_at(self.library.idents(), *serial).ok_or("no name")?)?;
        }
        Ok(names)
    }

    /// The mark of a site.
    pub fn mark(&self, site: &str) -> u64 {
        let mut found = 0;
        for (known, mark) in &self.marks {
            if known.as_str() == site {
                found = found.max(*mark);
            }
        }
        found
    }

    /// Settles a site up to a number: the mark afterwards, or the fault.
    fn settle(&mut self, site: &str, number: u64) -> Result<String, Fail> {
        if let Some(fault) = refused_on_admission(site, number) {
            return self.fault(fault);
        }
        let alloc = self.alloc();
        if number > self.mark(site) {
            self.marks.push((String::from_str(alloc, site)?, number))?;
        }
        Ok(format!(in alloc; "{}", self.mark(site))?)
    }
}

/// Why a key is refused, if it is.
fn refused_on_admission(site: &str, number: u64) -> Option<&'static str> {
    let is_spelled = site.bytes().all(|byte| b"ABCDEFGHIJKLMNOPQRSTUVWXYZ0123456789".contains(
        &byte,
    ));
    if site.is_empty() || site.len() > 8 || !is_spelled {
        return Some("BadSite (23) at 0");
    }
    if number == 0 || number > 999_999_999 {
        return Some("BadNumber (24) at 0");
    }
    None
}

/// A run with its answer, to be stored.
fn with_answer(alloc: Global, sent: Sent<'_>, answer: &str) -> Result<StoredRun, Fail> {
    Ok(StoredRun {
        site: String::from_str(alloc, sent.site)?,
        number: sent.number,
        mode: String::from_str(alloc, sent.mode)?,
        text: String::from_str(alloc, sent.text)?,
        answer: String::from_str(alloc, answer)?,
    })
}

/// Bytes as a text of JSON has them.
fn escaped(alloc: Global, bytes: &[u8]) -> Result<String, Fail> {
    let mut text = String::new(alloc);
    for byte in bytes {
        match byte {
            b'"' => text.push_str("\\\"")?,
            b'\\' => text.push_str("\\\\")?,
            b'\n' => text.push_str("\\n")?,
            b'\t' => text.push_str("\\t")?,
            _ => text.push(char::from(*byte))?,
        }
    }
    Ok(text)
}

/// The reply to a run that is refused by a fault.
fn refused_by(alloc: Global, sent: Sent<'_>, fault: Fault) -> Result<String, Fail> {
    let (name, number) = (fault.kind.name(), fault.kind.number());
    refused(
        alloc,
        sent,
        &format!(in alloc; "{name} {number} at {}", fault.at)?,
    )
}
