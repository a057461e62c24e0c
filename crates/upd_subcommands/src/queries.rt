//! Commands that ask: the text that answers a query about a library.
ghost use Rattle.std.specs.Prelude.{◌≡◌, ◌≢◌, IfErr, IfOk};
ghost use Rattle.std.specs.Result.{result_map_both};
ghost use Rattle.upd_desk.specs.Holding.{Tells};
ghost use Rattle.upd_row_store.specs.Keeping.{CountsFailure, FindsRows, IsLost, Keeps};
ghost use Rattle.upd_subcommands.specs.DeskCommands.{AsksQuery, IsAnswered, TellsOfRuns, view_text};
ghost use Rattle.upd_subcommands.specs.Status.{exit_status};
ghost use Rattle.upd_views.specs.IdentReport.{show};
ghost use Rattle.upd_views.specs.RunLines.{IsRunList};
ghost use Rattle.upd_views.specs.SiteLines.{AreSiteLines};
ghost use Rattle.upd_text.specs.Outcome.{GivesAt};
ghost use Rattle.upd_text.specs.declared.fault.FaultKind.TheVariants.{Store};

use crate::exit_status::DONE;
use crate::streams::write_out;
use std::alloc::Global;
use std::io::Write;
use upd_core::{Library, Name};
use upd_desk::Desk;
use upd_edit::{active_text, as_of, source};
use upd_row_store::RowStore;
use upd_text::Fault;
use upd_views::{blame, page, run_list, show, site_lines};
use upd_words::{Query, View};

/// The text that answers a query goes to the output. Nothing changes.
pub(crate) fn answer_query<S: RowStore, W: Write>(
    alloc: Global,
    desk: &mut Desk<S>,
    query: &Query,
    output: &mut W,
) -> Result<u8, Fault>
    ensures asks { AsksQuery S.Meaning query.now
        result desk.old.store desk.new.store (W.contents output.old) (W.contents output.new) }
    ensures status { IfOk result (λ status. status ≡ 0) }
    ensures silent { IfErr result (λ fault. exit_status fault.kind ≡ 1 → output.new ≡ output.old) }
{
    match query_text(alloc, desk, query) {
        Ok(text) => match write_out(output, &text) {
            Ok(()) => Ok(DONE),
            Err(fault) => Err(fault),
        },
        Err(fault) => Err(fault),
    }
}

/// The text that answers a query. Nothing changes.
fn query_text<S: RowStore>(
    alloc: Global,
    desk: &mut Desk<S>,
    query: &Query,
) -> Result<Vec<u8>, Fault>
    ensures { IsAnswered S.Meaning query.now
        (result_map_both (λ text. text.items) (λ fault. fault) result) desk.old.store desk.new.store }
{
    match query {
        Query::Compile => match desk.full_compile(alloc) {
            Ok(file) => Ok(file.bytes),
            Err(fault) => Err(fault),
        },
        Query::Deck(name) => desk.deck_list(alloc, name),
        Query::Card(card) => desk.card_list(alloc, *card),
        Query::Idents => desk.ident_list(alloc),
        Query::Yanks => desk.yank_list(alloc),
        Query::Show(name) => show_at(alloc, desk, name),
        Query::Runs => runs_at(alloc, desk),
        Query::Sites => sites_at(alloc, desk),
        Query::View(view) => view_at(alloc, desk, view),
    }
}

/// What an ident did, and the run that introduced it.
fn show_at<S: RowStore>(alloc: Global, desk: &mut Desk<S>, name: &Name) -> Result<Vec<u8>, Fault>
    ensures text { TellsOfRuns S.Meaning (show name.now)
        (result_map_both (λ text. text.items) (λ fault. fault) result) desk.old.store desk.new.store }
    ensures same { Keeps S.Meaning desk.old.store desk.new.store }
    ensures failed { CountsFailure S.Meaning result desk.old.store desk.new.store }
{
    let library = desk.library(alloc)?;
    let stored = desk.stored_runs(alloc)?;
    match show(alloc, &library, &stored.runs, name) {
        Ok(text) => Ok(text),
        Err(fault) => Err(fault),
    }
}

/// The list of the stored runs.
fn runs_at<S: RowStore>(alloc: Global, desk: &mut Desk<S>) -> Result<Vec<u8>, Fault>
    ensures lines { FindsRows S.Meaning result desk.old.store desk.new.store (λ rows text. IsRunList rows.runs text.items) }
    ensures lost { IfErr result IsLost }
    ensures same { Keeps S.Meaning desk.old.store desk.new.store }
    ensures failed { CountsFailure S.Meaning result desk.old.store desk.new.store }
{
    let stored = desk.stored_runs(alloc)?;
    match run_list(alloc, stored.runs) {
        Ok(text) => Ok(text),
        Err(error) => Err(Fault::from(error)),
    }
}

/// The list of the sites.
fn sites_at<S: RowStore>(alloc: Global, desk: &mut Desk<S>) -> Result<Vec<u8>, Fault>
    ensures lines { FindsRows S.Meaning result desk.old.store desk.new.store
        (λ rows text. AreSiteLines rows.runs rows.settled text.items) }
    ensures lost { IfErr result IsLost }
    ensures same { Keeps S.Meaning desk.old.store desk.new.store }
    ensures failed { CountsFailure S.Meaning result desk.old.store desk.new.store }
{
    let stored = desk.stored_runs(alloc)?;
    match site_lines(alloc, &stored.runs, &stored.marks) {
        Ok(text) => Ok(text),
        Err(error) => Err(Fault::from(error)),
    }
}

/// A view of the library that a desk holds.
fn view_at<S: RowStore>(alloc: Global, desk: &mut Desk<S>, view: &View) -> Result<Vec<u8>, Fault>
    ensures text { Tells S.Meaning (view_text view.now)
        (result_map_both (λ text. text.items) (λ fault. fault) result) desk.old.store desk.new.store }
    ensures same { Keeps S.Meaning desk.old.store desk.new.store }
    ensures failed { CountsFailure S.Meaning result desk.old.store desk.new.store }
{
    let library = desk.library(alloc)?;
    match view_text(alloc, &library, view) {
        Ok(text) => Ok(text),
        Err(fault) => Err(fault),
    }
}

/// A view of a library.
fn view_text(alloc: Global, library: &Library, view: &View) -> Result<Vec<u8>, Fault>
    ensures text { GivesAt (λ text. text.items) result (view_text view.now library.now) }
    ensures kind { IfErr result (λ fault. fault.kind ≢ Store) }
{
    match view {
        View::Blame(name) => blame(alloc, library, name),
        View::Page => match page(alloc, library) {
            Ok(text) => Ok(text),
            Err(fault) => Err(fault),
        },
        View::Text(name) => active_text(alloc, library, name),
        View::TextAt { deck, since } => {
            let earlier = as_of(alloc, library, since)?;
            active_text(alloc, &earlier, deck)
        }
        View::Source(name) => match source(alloc, library, name) {
            Ok(file) => Ok(file.bytes),
            Err(fault) => Err(fault),
        },
    }
}
