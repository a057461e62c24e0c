//! The desk over a store.

ghost use Rattle.std.specs.Prelude.{◌≡◌, ◌+◌, ◌≤◌, ◌⊎◌, [], Ok, IfErr, IfOk, OnErr};
ghost use Rattle.std.specs.Result.{result_map_both};
ghost use Rattle.upd_desk.specs.Arrivals.{arrival_view, check_arrival, check_key};
ghost use Rattle.upd_compile.specs.File.{compile_file_of};
ghost use Rattle.upd_compile.specs.Listings.{card_listing, deck_listing, ident_listing, yank_listing};
ghost use Rattle.upd_compile.specs.declared.mode.Mode.TheVariants.{Full};
ghost use Rattle.upd_desk.specs.Holding.{AreStored, Arrives, EachHeld, EndsInReply, LooksAt, ReadsNeeded};
ghost use Rattle.upd_desk.specs.Holding.{AreArrivalFaults, IsArrivalFault, IsSettlementFault, IsUnadmitted};
ghost use Rattle.upd_desk.specs.Holding.{AnswersArrival, LeavesQuery, ReadsNeededByAll, RunAll, Settles, Tells, failures_after_all, work_after_all};
ghost use Rattle.upd_desk.specs.Queries.{IsMiss, decks_asked, listing};
ghost use Rattle.upd_desk.specs.Journal.{is_known};
ghost use Rattle.upd_desk.specs.Outcomes.{IsFileFault};
ghost use Rattle.upd_row_store.specs.Keeping.{CountsFailure, FindsRows, IsLost, reads_after};
ghost use Rattle.upd_row_store.specs.Tables.{ListsRuns};
ghost use Rattle.upd_text.specs.Faults.{fault_at};
ghost use Rattle.upd_text.specs.declared.fault.FaultKind.TheVariants.{CardUnknown, DeckUnknown, NoMemory};

use crate::arrival::{Arrival, check_key};
use crate::arrive::arrive_at;
use crate::library_queries::{Query, list, load_listed};
use crate::reply::Reply;
use std::alloc::Global;
use upd_compile::{CompileFile, Mode, compile_active};
use upd_core::{CardRef, Library, Name};
use upd_row_store::{RowStore, StoredRuns};
use upd_text::Fault;

/// A desk: runs arrive at it and act once each, in the order of first arrival. All that it keeps is in its store.
#[derive(Drop)]
pub struct Desk<S: RowStore> {
    store: S,
    work: u64,
}

impl<S: RowStore> Desk<S> {
    /// A desk over a store. It does not call the store.
    pub fn open(store: S) -> Desk<S>
        ensures store { result.store ≡ store }
        ensures work { result.work ≡ 0 }
    {
        Desk { store, work: 0 }
    }

    /// The store of the desk. It is not called.
    pub fn close(self) -> S
        ensures { result ≡ self.store }
    {
        self.store
    }

    /// The number of cards that the last accepted run has looked at: 0 before the first reply, after a repeat and after
    /// a refused run.
    pub fn work(&self) -> u64
        ensures { result ≡ self.now.work }
    {
        self.work
    }

    /// The answer to a run. A run that can't be read, applied or compiled gets a reply as well, which is stored like
    /// any other.
    ///
    /// A fault is at 0 and stores nothing: BadSite, BadNumber, BadMode or RunLong by the admission checks; Settled
    /// where the number is at or below the site's mark; RunChanged where the key has a stored run with another mode or
    /// other bytes; NoMemory or Store, after which the run can be sent again. After Store the run may be in the library
    /// once it is opened again: then the run that is sent again gets its reply.
    ///
    /// ```text
    /// LYON 2 quick *IDENT Y    a reply that has "idents":["Y"] and "state":"accepted"
    /// LYON 2 quick *IDENT Y    a repeat: the same bytes, and nothing changes
    /// LYON 2 full *IDENT Y     RunChanged at 0
    /// ```
    pub fn arrive(
        &mut self,
        alloc: Global,
        site: &str,
        number: u64,
        mode: &str,
        bytes: &[u8],
    ) -> Result<Reply, Fault>
        ensures arrives { Arrives S.Meaning (arrival_view site.now number mode.now bytes.now) result
            self.old.store self.new.store }
        ensures work { LooksAt S.Meaning (arrival_view site.now number mode.now bytes.now) result (λ _. self.new.work)
            self.old.store self.new.store }
        ensures reads { ReadsNeeded S.Meaning (arrival_view site.now number mode.now bytes.now) result
            self.old.store self.new.store }
        ensures idle { OnErr result (self.new.work ≡ self.old.work) }
        ensures unadmitted { IsUnadmitted (check_arrival (arrival_view site.now number mode.now bytes.now)) result
            self.old.store self.new.store }
        ensures faults { IfErr result (IsArrivalFault (arrival_view site.now number mode.now bytes.now)) }
        ensures failed { CountsFailure S.Meaning result self.old.store self.new.store }
    {
        let arrival = Arrival {
            site,
            number,
            mode,
            bytes,
        };
        self.arrive_one(alloc, &arrival)
    }

    fn arrive_one(&mut self, alloc: Global, arrival: &Arrival<'_>) -> Result<Reply, Fault>
        ensures { AnswersArrival S.Meaning arrival.now result self.old.store self.new.store self.old.work self.new.work }
    {
        let answered = arrive_at(&mut self.store, alloc, arrival)?;
        self.work = answered.work;
        Ok(answered.reply)
    }

    /// The answers to arrivals one after the other. One that runs out of memory, or whose store fails, gets that fault,
    /// and the next one is tried: where a failure of the disk closed the store, each of the rest gets Store. The list
    /// of answers is reserved first: without memory for it the fault is NoMemory, and nothing is done.
    pub fn run_all(
        &mut self,
        alloc: Global,
        list: &[Arrival<'_>],
    ) -> Result<Vec<Result<Reply, Fault>>, Fault>
        ensures arrives { IfOk result
            (λ answers. RunAll S.Meaning list.now answers.items self.old.store self.new.store) }
        ensures work { EachHeld S.Meaning self.old.store self.new.store
            (λ journal. IfOk result
            (λ answers. self.new.work ≡ work_after_all self.old.work journal list.now answers.items)) }
        ensures reads { IfOk result (λ answers. ReadsNeededByAll S.Meaning list.now answers.items
            self.old.store self.new.store) }
        ensures opens { IfOk result (λ answers. S.is_honest self.new.store → EndsInReply answers.items
            → S.is_open self.new.store) }
        ensures faults { IfOk result (λ answers. AreArrivalFaults list.now answers.items) }
        ensures failed { IfOk result (λ answers. S.failures_of self.new.store
            ≡ failures_after_all answers.items (S.failures_of self.old.store)) }
        ensures none { OnErr result (self.new.store ≡ self.old.store) }
        ensures idle { OnErr result (self.new.work ≡ self.old.work) }
        ensures err { IfErr result (λ fault. fault ≡ fault_at NoMemory 0) }
    {
        let mut answers = Vec::with_capacity(alloc, list.len())?;
        for arrival in list {
            let answer = self.arrive_one(alloc, arrival);
            if answers.push(answer).is_err() {
                unreachable!();
            }
        }
        Ok(answers)
    }

    /// Settles a site's runs up to a number, and answers the site's mark afterwards: a run at or below it is refused
    /// from then on. What is settled stays settled. BadSite or BadNumber, at 0, where the site or the number is not
    /// valid; after NoMemory or Store it can be asked again.
    pub fn settle_site(&mut self, alloc: Global, site: &str, number: u64) -> Result<u64, Fault>
        ensures settles { Settles S.Meaning site.now number result self.old.store self.new.store }
        ensures unread { S.decks_read_of self.new.store ≡ S.decks_read_of self.old.store }
        ensures idle { self.new.work ≡ self.old.work }
        ensures unadmitted { IsUnadmitted (check_key site.now number) result self.old.store self.new.store }
        ensures faults { IfErr result (IsSettlementFault site.now number) }
        ensures failed { CountsFailure S.Meaning result self.old.store self.new.store }
    {
        check_key(site, number)?;
        let mark = self.store.mark(alloc, site)?;
        if number <= mark {
            return Ok(mark);
        }
        self.store.settle_to(alloc, site, number)
    }

    /// Whether a run under this key would be a repeat, RunChanged or Settled: its number is settled, or has a stored run. The
    /// site and the number aren't checked. After NoMemory or Store, at 0, it can be asked again.
    pub fn is_known(&mut self, alloc: Global, site: &str, number: u64) -> Result<bool, Fault>
        ensures known { EachHeld S.Meaning self.old.store self.new.store
            (λ journal. IfOk result (λ known. known ≡ is_known journal site.now number)) }
        ensures unread { S.decks_read_of self.new.store ≡ S.decks_read_of self.old.store }
        ensures lost { IfErr result IsLost }
        ensures leaves { LeavesQuery S.Meaning result self.old.store self.new.store self.old.work self.new.work }
    {
        let mark = self.store.mark(alloc, site)?;
        if number <= mark {
            return Ok(true);
        }
        Ok(self.store.kept_run(alloc, site, number)?.is_some())
    }

    /// The compile file of all decks that aren't common. CallUnknown, CallDepth or CompileLong, at 0, where the walk
    /// meets one; after NoMemory or Store, at 0, it can be asked again.
    pub fn full_compile(&mut self, alloc: Global) -> Result<CompileFile, Fault>
        ensures text { Tells S.Meaning (λ l. compile_file_of Full [] l l)
            (result_map_both (λ file. file) (λ fault. fault) result) self.old.store self.new.store }
        ensures unread { S.decks_read_of self.new.store ≡ S.decks_read_of self.old.store }
        ensures faults { IfErr result (λ fault. IsLost fault ⊎ IsFileFault fault) }
        ensures leaves { LeavesQuery S.Meaning result self.old.store self.new.store self.old.work self.new.work }
    {
        let actives = self.store.load_active(alloc)?;
        compile_active(alloc, &actives, &actives, Mode::Full, &[])
    }

    /// The whole library, as the runs have made it. After NoMemory or Store, at 0, it can be asked again.
    pub fn library(&mut self, alloc: Global) -> Result<Library, Fault>
        ensures library { Tells S.Meaning (λ l. Ok l) result self.old.store self.new.store }
        ensures reads { S.decks_read_of self.new.store ≡ reads_after result (S.decks_read_of self.old.store) }
        ensures lost { IfErr result IsLost }
        ensures leaves { LeavesQuery S.Meaning result self.old.store self.new.store self.old.work self.new.work }
    {
        self.store.load(alloc)
    }

    /// The stored runs in the order in which they were stored, and the settled marks. After NoMemory or Store, at 0, they
    /// can be asked again.
    pub fn stored_runs(&mut self, alloc: Global) -> Result<StoredRuns, Fault>
        ensures lists { FindsRows S.Meaning result self.old.store self.new.store ListsRuns }
        ensures stored { EachHeld S.Meaning self.old.store self.new.store (λ journal. IfOk result (AreStored journal)) }
        ensures unread { S.decks_read_of self.new.store ≡ S.decks_read_of self.old.store }
        ensures lost { IfErr result IsLost }
        ensures leaves { LeavesQuery S.Meaning result self.old.store self.new.store self.old.work self.new.work }
    {
        self.store.stored_runs(alloc)
    }

    /// The cards of a deck, or of `YANK$$$`. DeckUnknown, at 0, where no held deck has the name; after NoMemory or
    /// Store, at 0, it can be asked again.
    pub fn deck_list(&mut self, alloc: Global, name: &Name) -> Result<Vec<u8>, Fault>
        ensures text { Tells S.Meaning (deck_listing name.now)
            (result_map_both (λ text. text.items) (λ fault. fault) result) self.old.store self.new.store }
        ensures reads { EachHeld S.Meaning self.old.store self.new.store
            (λ journal. S.decks_read_of self.new.store ≤ S.decks_read_of self.old.store + 1) }
        ensures faults { IfErr result (λ fault. IsLost fault ⊎ (fault ≡ fault_at DeckUnknown 0)) }
        ensures leaves { LeavesQuery S.Meaning result self.old.store self.new.store self.old.work self.new.work }
    {
        self.ask(alloc, &Query::Deck(*name))
    }

    /// A card with its history. CardUnknown, at 0, where there is no such card; after NoMemory or Store, at 0, it can
    /// be asked again.
    pub fn card_list(&mut self, alloc: Global, card: CardRef) -> Result<Vec<u8>, Fault>
        ensures text { Tells S.Meaning (card_listing card)
            (result_map_both (λ text. text.items) (λ fault. fault) result) self.old.store self.new.store }
        ensures reads { EachHeld S.Meaning self.old.store self.new.store
            (λ journal. S.decks_read_of self.new.store ≤ S.decks_read_of self.old.store + 1) }
        ensures faults { IfErr result (λ fault. IsLost fault ⊎ (fault ≡ fault_at CardUnknown 0)) }
        ensures leaves { LeavesQuery S.Meaning result self.old.store self.new.store self.old.work self.new.work }
    {
        self.ask(alloc, &Query::Card(card))
    }

    /// The directory. After NoMemory or Store, at 0, it can be asked again.
    pub fn ident_list(&mut self, alloc: Global) -> Result<Vec<u8>, Fault>
        ensures text { Tells S.Meaning (λ l. Ok (ident_listing l))
            (result_map_both (λ text. text.items) (λ fault. fault) result) self.old.store self.new.store }
        ensures reads { EachHeld S.Meaning self.old.store self.new.store
            (λ journal. S.decks_read_of self.new.store ≤ S.decks_read_of self.old.store) }
        ensures lost { IfErr result IsLost }
        ensures leaves { LeavesQuery S.Meaning result self.old.store self.new.store self.old.work self.new.work }
    {
        self.ask(alloc, &Query::Idents)
    }

    /// The yank cards with their targets. After NoMemory or Store, at 0, they can be asked again.
    pub fn yank_list(&mut self, alloc: Global) -> Result<Vec<u8>, Fault>
        ensures text { Tells S.Meaning (λ l. Ok (yank_listing l))
            (result_map_both (λ text. text.items) (λ fault. fault) result) self.old.store self.new.store }
        ensures reads { EachHeld S.Meaning self.old.store self.new.store
            (λ journal. S.decks_read_of self.new.store ≤ S.decks_read_of self.old.store) }
        ensures lost { IfErr result IsLost }
        ensures leaves { LeavesQuery S.Meaning result self.old.store self.new.store self.old.work self.new.work }
    {
        self.ask(alloc, &Query::Yanks)
    }

    /// Loads what a listing is made of, and lists it.
    fn ask(&mut self, alloc: Global, query: &Query) -> Result<Vec<u8>, Fault>
        ensures text { Tells S.Meaning (listing query.now)
            (result_map_both (λ text. text.items) (λ fault. fault) result) self.old.store self.new.store }
        ensures reads { EachHeld S.Meaning self.old.store self.new.store
            (λ journal. S.decks_read_of self.new.store ≤ S.decks_read_of self.old.store + decks_asked query.now) }
        ensures faults { IfErr result (λ fault. IsLost fault ⊎ IsMiss query.now fault) }
        ensures leaves { LeavesQuery S.Meaning result self.old.store self.new.store self.old.work self.new.work }
    {
        let library = load_listed(&mut self.store, alloc, query)?;
        list(alloc, &library, query)
    }
}
