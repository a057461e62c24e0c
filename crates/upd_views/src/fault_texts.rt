//! What the faults mean.

ghost use Rattle.std.specs.Prelude.{◌≡◌, ◌++◌, List, ℕ, true, codes, decimal, Some, IsSome};
ghost use Rattle.std.specs.List.{find};
ghost use Rattle.std.specs.Option.{option_map};
ghost use Rattle.upd_views.specs.Escaped.{begins};
ghost use Rattle.upd_views.specs.FaultTexts.{IsCalled, explained, fault_list, fault_text, has_three_lines, is_called};
ghost use Rattle.upd_text.specs.Faults.{fault_name, fault_number};
ghost use Rattle.upd_text.specs.declared.fault.FaultKind.{FaultKind};

use itoa::Buffer;
use upd_text::FaultKind;

/// The text of the fault whose name, in letters of any case, or whose number in digits, is this word. None where no fault
/// has it.
///
/// It has three lines, each with LF: the name with the number and the meaning, where the fault comes from, and what to
/// do.
pub fn explain(word: &[u8]) -> Option<&'static str>
    ensures { option_map (λ text. text.now) result ≡ explained word.now }
{
    let kind = first_called(word, &FAULTS)?;
    Some(fault_text(kind))
}

/// The first of these faults whose name or number is a word.
fn first_called(word: &[u8], kinds: &[FaultKind]) -> Option<FaultKind>
    ensures { result ≡ find (is_called word.now) kinds.now }
{
    for kind in kinds {
        if is_called(word, *kind) {
            return Some(*kind);
        }
    }
    None
}

/// Whether a word is a fault's name, in letters of any case, or its number in digits.
fn is_called(word: &[u8], kind: FaultKind) -> bool
    ensures { result ≡ is_called word.now kind }
{
    word.eq_ignore_ascii_case(kind.name().as_bytes())
        || word == Buffer::new().format(kind.number()).as_bytes()
}

/// A line for each fault, in order of number: the number and the name.
pub fn fault_list() -> &'static str
    ensures { result.now ≡ fault_list }
{
    FAULT_LIST
}

#[tactic(auto, using(crate::proofs::ExplainLemmas::from_one, crate::proofs::ExplainLemmas::to_last))]
fn fault_text(kind: FaultKind) -> &'static str
    ensures { result.now ≡ fault_text kind }
{
    FAULT_TEXTS[kind.number() as usize - 1]
}

/// Each fault is explained by its name and by its number, with one text of three lines that begins with both. No other
/// word is explained.
pub fn each_fault_has_one_text()
    ensures named { (kind : FaultKind) → explained (fault_name kind) ≡ Some (fault_text kind) }
    ensures numbered { (kind : FaultKind) → explained (decimal (fault_number kind)) ≡ Some (fault_text kind) }
    ensures own { (kind : FaultKind) → begins (fault_text kind)
        (fault_name kind ++ codes " (" ++ decimal (fault_number kind) ++ codes "): ") ≡ true }
    ensures lines { (kind : FaultKind) → has_three_lines (fault_text kind) ≡ true }
    ensures only { (word : List ℕ) → IsSome (explained word) → IsCalled word }
{}

/// What `fault_list` returns.
const FAULT_LIST: &str = "\
1 RunLong\n2 TooManyLines\n3 BadByte\n4 LineLong\n5 BadName\n6 BadCard\n7 BadField\n\
8 NoIdent\n9 TextNowhere\n10 NameTaken\n11 IdentUnknown\n12 DeckUnknown\n\
13 CardUnknown\n14 RangeOrder\n15 DeckCard\n16 YankText\n17 YankSelf\n18 Reserved\n\
19 Full\n20 CallUnknown\n21 CallDepth\n22 CompileLong\n23 BadSite\n24 BadNumber\n\
25 BadMode\n26 RunChanged\n27 Settled\n28 NoMemory\n29 Store\n30 BadFrame\n31 CutFrame\n\
32 Read\n33 Write\n";

/// The faults, in order of number.
const FAULTS: [FaultKind; 33] = [
    FaultKind::RunLong,
    FaultKind::TooManyLines,
    FaultKind::BadByte,
    FaultKind::LineLong,
    FaultKind::BadName,
    FaultKind::BadCard,
    FaultKind::BadField,
    FaultKind::NoIdent,
    FaultKind::TextNowhere,
    FaultKind::NameTaken,
    FaultKind::IdentUnknown,
    FaultKind::DeckUnknown,
    FaultKind::CardUnknown,
    FaultKind::RangeOrder,
    FaultKind::DeckCard,
    FaultKind::YankText,
    FaultKind::YankSelf,
    FaultKind::Reserved,
    FaultKind::Full,
    FaultKind::CallUnknown,
    FaultKind::CallDepth,
    FaultKind::CompileLong,
    FaultKind::BadSite,
    FaultKind::BadNumber,
    FaultKind::BadMode,
    FaultKind::RunChanged,
    FaultKind::Settled,
    FaultKind::NoMemory,
    FaultKind::Store,
    FaultKind::BadFrame,
    FaultKind::CutFrame,
    FaultKind::Read,
    FaultKind::Write,
];

/// Their texts.
pub const FAULT_TEXTS: [&str; 33] = [
    "RunLong (1): the run has more than 65,536 bytes\n\
        from: an arrival, or a text to be corrected; at 0\n\
        do: cut it in two\n",
    "TooManyLines (2): the run has more than 2,000 lines\n\
        from: reading the run; at 0\n\
        do: cut it in two; a longer deck is continued by *INSERT at its last card\n",
    "BadByte (3): the line has a byte that isn't printable ASCII or a tab\n\
        from: reading the run; at the line\n\
        do: remove UTF-8, form feeds and CRs that no LF follows\n",
    "LineLong (4): the line has more than 80 bytes without its trailing blanks\n\
        from: reading the run; at the line\n\
        do: break the line\n",
    "BadName (5): a field is not a name, a pair or a range of names\n\
        from: reading the run, at the line; or a question, at 0\n\
        do: compare the line with those in man upd; over HTTP, check that the client sent the line ends\n",
    "BadCard (6): a field is not a card reference\n\
        from: reading the run, at the line; or a question, at 0\n\
        do: write the name, a point and the number, as A.2\n",
    "BadField (7): there is a field too many or too few, an empty one, or a second of *COMDECK other than NOPROP\n\
        from: reading the run; at the line\n\
        do: compare the line with those in man upd\n",
    "NoIdent (8): a correction or a yank without a current set\n\
        from: a line of the run; at the line\n\
        do: put *IDENT NAME before it; a purge ends the current set\n",
    "TextNowhere (9): text without an insertion point\n\
        from: a line of the run; at the line\n\
        do: put *DECK, *INSERT or another directive before it; a misspelt directive is text too\n",
    "NameTaken (10): a new ident has a name that is in use\n\
        from: a line of the run; at the line\n\
        do: choose another name\n",
    "IdentUnknown (11): no set or deck has this name\n\
        from: a line of the run, at the line; or a question, at 0\n\
        do: look at upd idents; the run that adds it may not have arrived yet\n",
    "DeckUnknown (12): no deck has this name\n\
        from: a line of the run, at the line; or a question, at 0\n\
        do: look at upd idents; the run that adds it may not have arrived yet\n",
    "CardUnknown (13): there is no such card\n\
        from: a line of the run, at the line; or a question, at 0\n\
        do: look at upd list; the run that adds it may not have arrived yet\n",
    "RangeOrder (14): the range runs backwards, or over two decks\n\
        from: a line of the run; at the line\n\
        do: name the earlier one first, and both in one deck\n",
    "DeckCard (15): a deck's first card, or its own ident, where it may not be named\n\
        from: a line of the run; at the line\n\
        do: leave the deck's first card out; *PURDECK removes a whole deck\n",
    "YankText (16): text that would go into YANK$$$\n\
        from: a line of the run; at the line\n\
        do: leave YANK$$$ out\n",
    "YankSelf (17): a yank of an ident that isn't older than its own set\n\
        from: a line of the run; at the line\n\
        do: yank only what is older than the set\n",
    "Reserved (18): the name YANK$$$ where it isn't allowed\n\
        from: a line of the run; at the line\n\
        do: leave YANK$$$ out\n",
    "Full (19): a limit of the library would be passed\n\
        from: a line of the run; at the line\n\
        do: purge what is no longer needed; upd idents shows how many idents there ever were\n",
    "CallUnknown (20): an active call of what is not a held common deck\n\
        from: the compile file; at 0\n\
        do: add the common deck, or delete the call\n",
    "CallDepth (21): calls are more than 8 deep\n\
        from: the compile file; at 0\n\
        do: look for common decks that call each other\n",
    "CompileLong (22): more than 10,000 lines, or more than 10,000 calls followed\n\
        from: the compile file; at 0\n\
        do: use quick or normal, which write fewer decks; upd source FILE DECK writes the lines of one\n",
    "BadSite (23): the site isn't 1 to 8 of A-Z and 0-9\n\
        from: an arrival or a settlement; at 0\n\
        do: correct the command or the path; nothing was stored\n",
    "BadNumber (24): the number isn't 1 to 999,999,999\n\
        from: an arrival or a settlement; at 0\n\
        do: correct the command or the path; nothing was stored\n",
    "BadMode (25): the mode isn't full, quick or normal\n\
        from: an arrival, or a run that is tried; at 0\n\
        do: correct the command or the path; nothing was stored\n",
    "RunChanged (26): the number was used for another run or mode\n\
        from: an arrival; at 0\n\
        do: look with upd list, since the first run stays and may have acted; then send the rest under a new number\n",
    "Settled (27): the site has settled this number\n\
        from: an arrival; at 0\n\
        do: take a greater number for a new run; a repeat had its reply\n",
    "NoMemory (28): out of memory\n\
        from: any call; at 0\n\
        do: send it again\n",
    "Store (29): the file is no library, is in use, can't be written, has a second hard link, or is damaged\n\
        from: the library's file; at the schema that was found, or 0; in a spool at the frame\n\
        do: let upd examine FILE say which of these it is, and what to do; migrate an older schema\n",
    "BadFrame (30): the frame or request can't be read\n\
        from: a spool, at the frame; or a request over HTTP, at 0\n\
        do: correct it, and send it again\n",
    "CutFrame (31): the input ended inside a frame or request\n\
        from: a spool, at the frame; or a request over HTTP, at 0\n\
        do: send all of it again\n",
    "Read (32): reading failed, or the address can't be bound\n\
        from: the input, or a server; at 0, in a spool at the frame\n\
        do: give it a file or a pipe, or another address\n",
    "Write (33): writing failed\n\
        from: the output, or the COPY of upd backup; at 0, in a spool at the frame\n\
        do: send the run again for its reply, since it may be stored; for a COPY free space, or take another path\n",
];
