//! What a store of rows promises, a library made of its rows, and moves of a deck's cards made of each card at once.
//!
//! A run that puts cards in at many places moves the cards behind each. Here is found how far each card moves in all, and
//! which cards of an ident, with numbers in a row, move equally far: a store moves these together.
#![tactic(auto)]

pub mod active;
pub mod asked;
pub mod assemble;
mod by_card;
pub mod meaning;
pub mod moves;
mod parts;
pub mod pieces;
pub mod plans;
pub mod ranges;
pub mod right;
pub mod shift;
pub mod shifts;
mod sorted_rows;
pub mod store;

pub use active::assembled_active;
pub use asked::{
    DeckOf, Homes, ages_of_decks, card_set, cards_once, decks_by_age, homes_by_age, keep_states,
    reads_with, states_among, states_by_key,
};
pub use assemble::{
    age_of, assembled, assembled_card, assembled_deck, assembled_part, assembled_with_rest,
    deck_named, held_ages,
};
pub use meaning::Meaning;
pub use moves::{Move, are_behind, moves_of, part_ahead};
pub use pieces::{Piece, pieces_of, place_by};
pub use plans::{DeckPlan, plans_of};
pub use ranges::{CardRange, CardRows, Gone, GoneCards, gone_cards, gone_of};
pub use shift::Shift;
pub use shifts::shifts_of;
pub use sorted_rows::by_age;
pub use store::{RowStore, StoredRuns};
