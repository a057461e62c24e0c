//! A page of HTML that shows a library.

ghost use Rattle.std.specs.Prelude.{◌≡◌, ◌++◌, false, IfOk, OnOk};
ghost use Rattle.std.specs.List.{flat_map};
ghost use Rattle.std.specs.Result.{IsOkUnless};
ghost use Rattle.upd_views.specs.LibraryPage.{block, card_item, card_summary, deck_item, deck_summary};
ghost use Rattle.upd_views.specs.LibraryPage.{element, end_part, history_lines, names_outside, page, page_head, start_part};
ghost use Rattle.upd_core.specs.Library.{all_decks};
ghost use Rattle.upd_text.specs.Faults.{fault_at};
ghost use Rattle.upd_text.specs.declared.fault.FaultKind.TheVariants.{NoMemory};

use crate::appending::{push_deck_line, status_letter};
use crate::deck_blame::push_blame_line;
use crate::escaping::push_escaped;
use std::alloc::{AllocError, Global};
use upd_compile::listings::{push_entries, push_targets};
use upd_compile::text_parts::push_parts;
use upd_compile::{list_idents, list_yanks};
use upd_core::{Card, Deck, Ident, Library, Live, Serial};
use upd_text::Fault;

/// What the page begins with: its style, and how its lines are read. It names nothing outside of the page.
pub const PAGE_HEAD: &str = "\
<!DOCTYPE html>
<html lang=\"en\">
<head>
<meta charset=\"utf-8\">
<title>Program library</title>
<style>
body { font-family: sans-serif; margin: 2em; }
pre, summary { font-family: monospace; white-space: pre; }
summary { cursor: pointer; }
details details, details pre { margin: 0 0 0 2em; }
.I > summary { color: gray; }
</style>
</head>
<body>
<h1>Program library</h1>
<p>A deck opens at a click. A card's line has A (active) or I (inactive), its name, who switched it last, and its text;
its history opens at a click.</p>
";

/// The library as one page of HTML, with no script and nothing from outside: the listing of its idents, each deck with
/// its cards and their histories, and the listing of its yanks. The only error is NoMemory.
pub fn page(alloc: Global, library: &Library) -> Result<Vec<u8>, Fault>
    ensures ok { IfOk result (λ html. html.items ≡ page library.now) }
    ensures err { IsOkUnless result (fault_at NoMemory 0) }
{
    let idents = list_idents(alloc, library)?;
    let yanks = list_yanks(alloc, library)?;
    let live = library.live_yanks()?;
    let mut html = Vec::new(alloc);
    push_start(&mut html, &idents)?;
    push_decks(&mut html, library, &live)?;
    push_end(&mut html, &yanks)?;
    Ok(html)
}

/// What a page begins with has no script, and names nothing outside of the page.
pub fn pages_need_nothing_outside()
    ensures { names_outside page_head ≡ false }
{}

#[tactic(auto, unfolding(crate::specs::LibraryPage::start_part))]
fn push_start(html: &mut Vec<u8>, idents: &[u8]) -> Result<(), AllocError>
    ensures { OnOk result (html.new.items ≡ html.old.items ++ start_part idents.now) }
{
    push_head(html)?;
    push_block(html, b"Idents", idents)?;
    html.extend_from_slice(b"<h2>Decks</h2>\n")
}

#[tactic(auto, unfolding(crate::specs::LibraryPage::end_part))]
fn push_end(html: &mut Vec<u8>, yanks: &[u8]) -> Result<(), AllocError>
    ensures { OnOk result (html.new.items ≡ html.old.items ++ end_part yanks.now) }
{
    push_block(html, b"Yanks", yanks)?;
    html.extend_from_slice(b"</body>\n</html>\n")
}

#[tactic(auto, unfolding(crate::specs::LibraryPage::page_head))]
fn push_head(html: &mut Vec<u8>) -> Result<(), AllocError>
    ensures { OnOk result (html.new.items ≡ html.old.items ++ page_head) }
{
    html.extend_from_slice(PAGE_HEAD.as_bytes())
}

/// Appends an escaped text between two fixed pieces.
#[tactic(auto, unfolding(crate::specs::LibraryPage::element))]
fn push_element(html: &mut Vec<u8>, start: &[u8], text: &[u8], end: &[u8]) -> Result<(), AllocError>
    ensures { OnOk result (html.new.items ≡ html.old.items ++ element start.now text.now end.now) }
{
    html.extend_from_slice(start)?;
    push_escaped(html, text)?;
    html.extend_from_slice(end)
}

#[tactic(auto, unfolding(crate::specs::LibraryPage::block))]
fn push_block(html: &mut Vec<u8>, heading: &[u8], text: &[u8]) -> Result<(), AllocError>
    ensures { OnOk result (html.new.items ≡ html.old.items ++ block heading.now text.now) }
{
    push_parts(html, &[b"<h2>", heading, b"</h2>\n"])?;
    push_element(html, b"<pre>", text, b"</pre>\n")
}

/// Appends the decks, `YANK$$$` first.
fn push_decks(html: &mut Vec<u8>, library: &Library, live: &Live) -> Result<(), AllocError>
    ensures { OnOk result (html.new.items ≡ html.old.items
        ++ flat_map (deck_item library.now.idents live.now.targets) (all_decks library.now)) }
{
    push_deck_item(html, library.idents(), live, 0, library.yanks())?;
    push_deck_items(html, library.idents(), live, library.decks())
}

fn push_deck_items(
    html: &mut Vec<u8>,
    idents: &[Ident],
    live: &Live,
    decks: &[Deck],
) -> Result<(), AllocError>
    ensures { OnOk result (html.new.items
        ≡ html.old.items ++ flat_map (deck_item idents.now live.now.targets) decks.now) }
{
    for deck in decks {
        push_deck_item(html, idents, live, deck.ident, &deck.cards)?;
    }
    Ok(())
}

#[tactic(auto, unfolding(crate::specs::LibraryPage::deck_item))]
fn push_deck_item(
    html: &mut Vec<u8>,
    idents: &[Ident],
    live: &Live,
    deck: Serial,
    cards: &[Card],
) -> Result<(), AllocError>
    ensures { OnOk result (html.new.items ≡ html.old.items
        ++ deck_item idents.now live.now.targets (record { ident = deck; cards = cards.now })) }
{
    push_deck_summary(html, idents, deck)?;
    push_card_items(html, idents, live, deck, cards)?;
    html.extend_from_slice(b"</details>\n")
}

#[tactic(auto, unfolding(crate::specs::LibraryPage::deck_summary))]
fn push_deck_summary(html: &mut Vec<u8>, idents: &[Ident], deck: Serial) -> Result<(), AllocError>
    ensures { OnOk result (html.new.items ≡ html.old.items ++ deck_summary idents.now deck) }
{
    let mut heading = Vec::new(*html.allocator());
    push_deck_line(&mut heading, idents, deck)?;
    push_element(html, b"<details><summary>", &heading, b"</summary>\n")
}

fn push_card_items(
    html: &mut Vec<u8>,
    idents: &[Ident],
    live: &Live,
    deck: Serial,
    cards: &[Card],
) -> Result<(), AllocError>
    ensures { OnOk result (html.new.items
        ≡ html.old.items ++ flat_map (card_item idents.now live.now.targets deck) cards.now) }
{
    for card in cards {
        push_card_item(html, idents, live, deck, card)?;
    }
    Ok(())
}

#[tactic(auto, unfolding(crate::specs::LibraryPage::card_item))]
fn push_card_item(
    html: &mut Vec<u8>,
    idents: &[Ident],
    live: &Live,
    deck: Serial,
    card: &Card,
) -> Result<(), AllocError>
    ensures { OnOk result (html.new.items ≡ html.old.items ++ card_item idents.now live.now.targets deck card.now) }
{
    let mut history = Vec::new(*html.allocator());
    push_history(&mut history, idents, live, deck, card)?;
    push_summary(html, idents, live, deck, card)?;
    push_element(html, b"<pre>", &history, b"</pre></details>\n")
}

#[tactic(auto, unfolding(crate::specs::LibraryPage::card_summary))]
fn push_summary(
    html: &mut Vec<u8>,
    idents: &[Ident],
    live: &Live,
    deck: Serial,
    card: &Card,
) -> Result<(), AllocError>
    ensures { OnOk result (html.new.items ≡ html.old.items ++ card_summary idents.now live.now.targets deck card.now) }
{
    let mut line = Vec::new(*html.allocator());
    push_blame_line(&mut line, idents, live, deck, card)?;
    html.extend_from_slice(b"<details class=\"")?;
    html.extend_from_slice(status_letter(live, deck, card))?;
    html.extend_from_slice(b"\">")?;
    push_element(html, b"<summary>", &line, b"</summary>")
}

fn push_history(
    text: &mut Vec<u8>,
    idents: &[Ident],
    live: &Live,
    deck: Serial,
    card: &Card,
) -> Result<(), AllocError>
    ensures { OnOk result (text.new.items ≡ text.old.items ++ history_lines idents.now live.now.targets deck card.now) }
{
    push_entries(text, idents, live, deck, &card.history)?;
    push_targets(text, idents, &card.targets)
}
