//! Decks of an edited text.

ghost use Rattle.std.specs.Prelude.{◌≡◌, ◌+◌, ◌++◌, ◌∷◌, [], List, length, IfErr, IfOk, OnOk};
ghost use Rattle.upd_text.specs.Units.{Bytes};
ghost use Rattle.upd_core.specs.Status.{live_of};
ghost use Rattle.upd_correct.specs.Causes.{IsTextCause, refusal_at_0};
ghost use Rattle.upd_correct.specs.EditedText.{lines_in};
ghost use Rattle.upd_correct.specs.LineReads.{HasDecks, IsTakenAs};
ghost use Rattle.upd_correct.specs.ReadDecks.{AreReadFrom};
ghost use Rattle.upd_correct.specs.Refusals.{refusals_at, refusals_of};

use crate::edited_lines::cut_text;
use crate::plan::{deck_problem, set_problem};
use crate::read_line::{LineRead, read_line};
use crate::refusal::{CorrectError, Problem, Refusal};
use std::alloc::{AllocError, Global};
use std::marker::Model;
use upd_core::{Library, Live};
use upd_text::Name;

/// A deck of an edited text.
#[derive(Drop)]
pub(crate) struct EditedDeck<'a> {
    pub(crate) name: Name,
    pub(crate) common: bool,
    pub(crate) noprop: bool,
    /// The text of its first line.
    pub(crate) first: &'a [u8],
    /// The texts of its further lines.
    pub(crate) lines: Vec<&'a [u8]>,
}

impl<'a> Model for EditedDeck<'a> {
    ghost use Rattle.std.specs.Prelude.{map};
    ghost use Rattle.upd_correct.specs.EditedText.{NewDeck};

    ghost Value = { NewDeck };

    ghost view = { λ d. record {
      name = d.name;
      common = d.common;
      noprop = d.noprop;
      first = d.first.now;
      lines = map (λ t. t.now) d.lines.items;
    } };
}

impl<'a> EditedDeck<'a> {
    /// A deck of one line.
    pub(crate) fn new(
        alloc: Global,
        name: Name,
        common: bool,
        noprop: bool,
        first: &'a [u8],
    ) -> EditedDeck<'a>
        ensures { result ≡ record { name = name; common = common; noprop = noprop; first = first.now; lines = [] } }
    {
        EditedDeck {
            name,
            common,
            noprop,
            first,
            lines: Vec::new(alloc),
        }
    }

    /// Adds a line.
    fn push_line(&mut self, text: &'a [u8]) -> Result<(), AllocError>
        ensures { OnOk result (self.new ≡ record self.old { lines = self.old.lines ++ text.now ∷ [] }) }
    {
        self.lines.push(text)?;
        Ok(())
    }
}

/// The decks of an edited text, where nothing is wrong with it nor with the name of the set.
pub(crate) fn decks_of<'a>(
    alloc: Global,
    library: &Library,
    live: &Live,
    set: &[u8],
    text: &'a [u8],
) -> Result<Vec<EditedDeck<'a>>, CorrectError>
    requires { live.now ≡ live_of library.now }
    ensures given { IfOk result (λ decks. HasDecks text.now decks.items) }
    ensures clean { OnOk result (refusals_of library.now set.now text.now ≡ []) }
    ensures refused { IfErr result (IsTextCause library.now set.now text.now) }
{
    let mut refusals = Vec::new(alloc);
    refuse(&mut refusals, 0, 0, set_problem(library, set))?;
    let decks = read_decks(alloc, library, live, set, text, &mut refusals)?;
    if refusals.is_empty() {
        Ok(decks)
    } else {
        Err(CorrectError::Refused(refusals))
    }
}

/// The decks of an edited text. Each line with a problem adds a refusal.
fn read_decks<'a>(
    alloc: Global,
    library: &Library,
    live: &Live,
    set: &[u8],
    text: &'a [u8],
    refusals: &mut Vec<Refusal>,
) -> Result<Vec<EditedDeck<'a>>, AllocError>
    requires { live.now ≡ live_of library.now }
    ensures { IfOk result (λ decks.
        AreReadFrom library.now set.now refusals.old.items (lines_in text.now) decks.items refusals.new.items) }
{
    let lines = cut_text(alloc, text)?;
    let mut decks = Vec::new(alloc);
    for (i, line) in lines.iter().enumerate() {
        let read = read_line(alloc, line)?;
        take_line(library, live, set, i + 1, read, &mut decks, refusals)?;
    }
    Ok(decks)
}

/// Adds a line to the decks that are read so far, and a refusal if it has a problem.
fn take_line<'a>(
    library: &Library,
    live: &Live,
    set: &[u8],
    number: usize,
    read: LineRead<'a>,
    decks: &mut Vec<EditedDeck<'a>>,
    refusals: &mut Vec<Refusal>,
) -> Result<(), AllocError>
    requires { live.now ≡ live_of library.now }
    ensures { (earlier : List Refusal) (lines : List Bytes) (bytes : Bytes) → number ≡ length lines + 1
        → IsTakenAs bytes read.entry
        → AreReadFrom library.now set.now earlier lines decks.old.items refusals.old.items
        → OnOk result (AreReadFrom library.now set.now earlier (lines ++ bytes ∷ []) decks.new.items refusals.new.items) }
{
    match read {
        LineRead::Head(deck) => {
            let problem = deck_problem(library, live, set, decks, &deck);
            refuse(refusals, number, 1, problem)?;
            decks.push(deck)?;
        }
        LineRead::Card(text) => match decks.pop() {
            Some(mut deck) => {
                deck.push_line(text)?;
                decks.push(deck)?;
            }
            None => refuse(refusals, number, 1, Some(Problem::NoDeck))?,
        },
        LineRead::Wrong { column, problem } => refuse(refusals, number, column, Some(problem))?,
    }
    Ok(())
}

/// Adds the refusal of a problem, if there is one.
fn refuse(
    refusals: &mut Vec<Refusal>,
    line: usize,
    column: usize,
    problem: Option<Problem>,
) -> Result<(), AllocError>
    ensures { OnOk result (refusals.new.items ≡ refusals.old.items ++ refusals_at line column problem) }
{
    if let Some(problem) = problem {
        refusals.extend_from_slice(&[Refusal {
            line,
            column,
            problem,
        }])?;
    }
    Ok(())
}

/// The refusal of a problem that is not one of a line.
pub(crate) fn refusal_at_0(alloc: Global, problem: Problem) -> Result<Vec<Refusal>, AllocError>
    ensures { IfOk result (λ refusals. refusals.items ≡ refusal_at_0 problem ∷ []) }
{
    Vec::from_slice(
        alloc,
        &[Refusal {
            line: 0,
            column: 0,
            problem,
        }],
    )
}
