//! Yanks: `*YANK`, `*SELYANK`, `*YANKDECK`, and their targets.
ghost use Rattle.std.specs.Prelude.{◌≡◌, ◌+◌, ◌^◌, ◌<◌, ◌&&◌, ◌||◌, ◌==◌, ℕ, [], ◌∷◌, ◌++◌, map, Ok, Err, None, Some, MatchResult, OnOk};
ghost use Rattle.std.specs.List.{filter};
ghost use Rattle.upd_text.specs.declared.fault.FaultKind.TheVariants.{NoIdent};
ghost use Rattle.upd_text.specs.Outcome.{Does, Gives};
ghost use Rattle.upd_deck.specs.Items.{SelYank, Yank, YankDeck};
ghost use Rattle.upd_core.specs.declared.target.Target.TheVariants.{Set};
ghost use Rattle.upd_apply.specs.Marks.{AreMarked, has_set};
ghost use Rattle.upd_apply.specs.Numbers.{next_most};
ghost use Rattle.upd_apply.specs.Step.{carried_out, judged, yank_judged};
ghost use Rattle.upd_apply.specs.Names.{is_in};
ghost use Rattle.upd_core.specs.Targets.{is_same};
ghost use Rattle.upd_apply.specs.Yanks.{deck_targets, decks_yanked, older_ages, once, pair_targets, pairs_yanked, sets_yanked};

use crate::names::{AgeRange, ident_ages, known_deck, known_ident};
use crate::state::{CurrentSet, InsertPoint, State, check_limits};
use std::alloc::AllocError;
use upd_core::{Card, Ident, Library, Serial, Target};
use upd_deck::{IdentIn, NameRange};
use upd_text::{FaultKind, Name};

impl State {
    /// `*YANK` of names and ranges.
    pub(crate) fn yank_sets(&mut self, text: &[u8], ranges: &[NameRange]) -> Result<(), FaultKind>
        requires { next_most self.old + 1 < 2 ^ 32 }
        ensures done { Does result self.new (carried_out (judged (Yank ranges.now) text.now self.old) self.old) }
        ensures no_set { self.old.current_set ≡ None → result ≡ Err NoIdent }
    {
        let current_set = self.known_set()?;
        let targets = sets_yanked(&self.library, current_set.ident, ranges)?;
        self.put_yank(current_set, text, targets)
    }

    /// `*SELYANK`: idents, each in one deck.
    pub(crate) fn yank_pairs(&mut self, text: &[u8], pairs: &[IdentIn]) -> Result<(), FaultKind>
        requires { next_most self.old + 1 < 2 ^ 32 }
        ensures done { Does result self.new (carried_out (judged (SelYank pairs.now) text.now self.old) self.old) }
        ensures no_set { self.old.current_set ≡ None → result ≡ Err NoIdent }
    {
        let current_set = self.known_set()?;
        let targets = pairs_yanked(&self.library, current_set.ident, pairs)?;
        self.put_yank(current_set, text, targets)
    }

    /// `*YANKDECK`: whole decks.
    pub(crate) fn yank_decks(&mut self, text: &[u8], names: &[Name]) -> Result<(), FaultKind>
        requires { next_most self.old + 1 < 2 ^ 32 }
        ensures done { Does result self.new (carried_out (judged (YankDeck names.now) text.now self.old) self.old) }
        ensures no_set { self.old.current_set ≡ None → result ≡ Err NoIdent }
    {
        let current_set = self.known_set()?;
        let targets = decks_yanked(&self.library, current_set.ident, names)?;
        self.put_yank(current_set, text, targets)
    }

    /// Appends a yank card of the current set, with these targets.
    fn put_yank(
        &mut self,
        current_set: CurrentSet,
        text: &[u8],
        targets: Vec<Target>,
    ) -> Result<(), FaultKind>
        requires current_set { self.old.current_set ≡ Some current_set }
        requires number { current_set.next + 1 < 2 ^ 32 }
        ensures { Does result self.new
            (carried_out (yank_judged text.now (λ _ _. Ok targets.items) self.old) self.old) }
    {
        let CurrentSet { ident, next } = current_set;
        let card = Card::new(self.library.allocator(), ident, next, text, targets)?;
        self.library.push_yank(card)?;
        check_limits(&self.library)?;
        self.current_set = Some(CurrentSet {
            ident,
            next: next + 1,
        });
        self.insert_point = InsertPoint::Nowhere;
        Ok(())
    }
}

/// The targets of `*YANK` by a set: the idents of each range.
pub(crate) fn sets_yanked(
    library: &Library,
    set: Serial,
    ranges: &[NameRange],
) -> Result<Vec<Target>, FaultKind>
    ensures { Gives (λ found. found.items) result (sets_yanked ranges.now set library.now) }
{
    let mut found = Vec::new(library.allocator());
    let mut marks = Vec::new(library.allocator());
    for range in ranges {
        let ages = older_ages(library, set, range)?;
        add_sets(&mut found, &mut marks, library.idents(), ages)?;
    }
    Ok(found)
}

/// The targets of `*SELYANK` by a set: an ident in a deck for each pair.
pub(crate) fn pairs_yanked(
    library: &Library,
    set: Serial,
    pairs: &[IdentIn],
) -> Result<Vec<Target>, FaultKind>
    ensures { Gives (λ found. found.items) result (pairs_yanked pairs.now set library.now) }
{
    let mut found = Vec::new(library.allocator());
    for pair in pairs {
        let target = pair_target(library, set, pair)?;
        add_target(&mut found, target)?;
    }
    Ok(found)
}

/// The targets of `*YANKDECK` by a set: a deck for each name.
pub(crate) fn decks_yanked(
    library: &Library,
    set: Serial,
    names: &[Name],
) -> Result<Vec<Target>, FaultKind>
    ensures { Gives (λ found. found.items) result (decks_yanked names.now set library.now) }
{
    let mut found = Vec::new(library.allocator());
    for name in names {
        let target = deck_target(library, set, name)?;
        add_target(&mut found, target)?;
    }
    Ok(found)
}

/// The ages of a range of idents, all older than a set; else Reserved, IdentUnknown, RangeOrder or YankSelf.
fn older_ages(library: &Library, set: Serial, range: &NameRange) -> Result<AgeRange, FaultKind>
    ensures { result ≡ older_ages set library.now range.now }
{
    let ages = ident_ages(library, range)?;
    if set <= ages.to {
        return Err(FaultKind::YankSelf);
    }
    Ok(ages)
}

/// An ident in a deck, both older than a set; else Reserved, DeckUnknown, IdentUnknown or YankSelf.
fn pair_target(library: &Library, set: Serial, pair: &IdentIn) -> Result<Target, FaultKind>
    ensures { MatchResult result
        (λ target. pair_targets set library.now pair.now ≡ Ok (target ∷ []))
        (λ e. pair_targets set library.now pair.now ≡ Err e) }
{
    let deck = known_deck(library, &pair.deck)?;
    let ident = known_ident(library, &pair.ident)?;
    if set <= deck || set <= ident {
        return Err(FaultKind::YankSelf);
    }
    Ok(Target::SetIn(ident, deck))
}

/// A deck older than a set; else Reserved, DeckUnknown or YankSelf.
fn deck_target(library: &Library, set: Serial, name: &Name) -> Result<Target, FaultKind>
    ensures { MatchResult result
        (λ target. deck_targets set library.now name.now ≡ Ok (target ∷ []))
        (λ e. deck_targets set library.now name.now ≡ Err e) }
{
    let deck = known_deck(library, name)?;
    if set <= deck {
        return Err(FaultKind::YankSelf);
    }
    Ok(Target::Deck(deck))
}

/// Adds the idents of a range that aren't in `found` yet. The flags by serial avoid a search of `found` for each ident:
/// for each would go over all that was found.
fn add_sets(
    found: &mut Vec<Target>,
    marks: &mut Vec<bool>,
    idents: &[Ident],
    ages: AgeRange,
) -> Result<(), AllocError>
    requires marked { AreMarked marks.old.items found.old.items }
    requires apart { once is_same found.old.items ≡ found.old.items }
    ensures sets { OnOk result (found.new.items
        ≡ once is_same (found.old.items
        ++ map Set (map (λ i. i.age) (filter (λ i. i.held && is_in ages i.age) idents.now)))) }
    ensures marked { OnOk result (AreMarked marks.new.items found.new.items) }
{
    for ident in idents {
        if ident.held && ages.has(ident.age) {
            add_set(found, marks, ident.age)?;
        }
    }
    Ok(())
}

/// Adds an ident that isn't in `found` yet.
fn add_set(found: &mut Vec<Target>, marks: &mut Vec<bool>, serial: Serial) -> Result<(), AllocError>
    requires marked { AreMarked marks.old.items found.old.items }
    requires apart { once is_same found.old.items ≡ found.old.items }
    ensures set { OnOk result (found.new.items ≡ once is_same (found.old.items ++ Set serial ∷ [])) }
    ensures marked { OnOk result (AreMarked marks.new.items found.new.items) }
{
    if !has_set(marks, serial) {
        mark(marks, serial)?;
        found.push(Target::Set(serial))?;
    }
    Ok(())
}

/// The flag of a serial; false past the last flag.
fn has_set(marks: &[bool], serial: Serial) -> bool
    ensures { result ≡ has_set marks.now serial }
{
    let serial = serial as usize;
    serial < marks.len() && marks[serial]
}

/// Sets the flag of a serial.
fn mark(marks: &mut Vec<bool>, serial: Serial) -> Result<(), AllocError>
    ensures { OnOk result ((z : ℕ) → has_set marks.new.items z ≡ (has_set marks.old.items z || (z == serial))) }
{
    let serial = serial as usize;
    if marks.len() <= serial {
        marks.resize(serial + 1, false)?;
    }
    marks[serial] = true;
    Ok(())
}

/// Adds a target that isn't in `found` yet.
fn add_target(found: &mut Vec<Target>, target: Target) -> Result<(), AllocError>
    requires { once is_same found.old.items ≡ found.old.items }
    ensures { OnOk result (found.new.items ≡ once is_same (found.old.items ++ target ∷ [])) }
{
    if !found.contains(&target) {
        found.push(target)?;
    }
    Ok(())
}
