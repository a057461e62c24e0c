//! What of a library is loaded for a run.

ghost use Rattle.std.specs.Prelude.{◌≡◌, ◌++◌, length, map, true, IfOk, OnOk};
ghost use Rattle.upd_core.specs.Parts.{part_of};
ghost use Rattle.upd_desk.specs.Compiling.{references_of};
ghost use Rattle.upd_desk.specs.Holding.{FindsMade, OnlyReads, ReadsAtMost};
ghost use Rattle.upd_partial.specs.Needed.{decks_needed};
ghost use Rattle.upd_partial.specs.Needless.{is_plain};
ghost use Rattle.upd_row_store.specs.Keeping.{OpensOk};

use std::alloc::{AllocError, Global};
use upd_core::{CardRef, Counted, CountedCard, Library};
use upd_deck::Run;
use upd_partial::needs::{any_names_yank_card, cards_named, is_plain};
use upd_row_store::RowStore;
use upd_text::Fault;

/// What a run is applied to: the directory, `YANK$$$`, and the decks that it needs.
pub(crate) fn load_needed<S: RowStore>(
    store: &mut S,
    alloc: Global,
    run: &Run<'_>,
) -> Result<Library, Fault>
    ensures found { FindsMade S.Meaning result store.old store.new
        (λ l rows found. found ≡ part_of (decks_needed run.now l) l) }
    ensures reads { ReadsAtMost S.Meaning result store.old store.new (λ l. length (decks_needed run.now l)) }
    ensures opens { OpensOk S.Meaning result store.new }
    ensures leaves { OnlyReads S.Meaning result store.old store.new }
{
    if is_plain(run) {
        load_named(store, alloc, run)
    } else {
        store.load(alloc)
    }
}

/// The references of all cards that are loaded, by deck (`YANK$$$` first) and place.
pub(crate) fn references(alloc: Global, library: &Library) -> Result<Vec<CardRef>, AllocError>
    ensures { IfOk result (λ cards. cards.items ≡ references_of library.now) }
{
    let counted = Counted::new(library);
    let mut cards = Vec::new(alloc);
    add_references(&mut cards, &counted.yanks(alloc)?)?;
    add_references(&mut cards, &counted.others(alloc)?)?;
    Ok(cards)
}

fn add_references(cards: &mut Vec<CardRef>, counted: &[CountedCard<'_>]) -> Result<(), AllocError>
    ensures { OnOk result (cards.new.items ≡ cards.old.items ++ map (λ k. k.card) counted.now) }
{
    for card in counted {
        cards.push(card.reference())?;
    }
    Ok(())
}

/// What a run that neither yanks nor purges is applied to: all decks if it names a yank card, else those of its cards.
/// Whether it names a yank card is seen before any deck is read.
fn load_named<S: RowStore>(store: &mut S, alloc: Global, run: &Run<'_>) -> Result<Library, Fault>
    requires plain { is_plain run.now ≡ true }
    ensures found { FindsMade S.Meaning result store.old store.new
        (λ l rows found. found ≡ part_of (decks_needed run.now l) l) }
    ensures reads { ReadsAtMost S.Meaning result store.old store.new (λ l. length (decks_needed run.now l)) }
    ensures opens { OpensOk S.Meaning result store.new }
    ensures leaves { OnlyReads S.Meaning result store.old store.new }
{
    let cards = cards_named(alloc, run)?;
    let homes = store.homes_of(alloc, &cards)?;
    if !homes.may_be_yanks {
        return store.load_decks(alloc, &homes.decks);
    }
    let head = store.load_decks(alloc, &[])?;
    if any_names_yank_card(&cards, &head) {
        store.load(alloc)
    } else if homes.decks.is_empty() {
        Ok(head)
    } else {
        store.load_decks(alloc, &homes.decks)
    }
}
