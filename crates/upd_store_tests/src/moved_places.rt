//! How far cards move, by the moves of purges that take much away at near places.
use std::alloc::Global;
use std::test::Fail;
use upd_row_store::{Move, Piece, pieces_of, place_by};
use upd_testkit::check::{holds, same};

/// Cards 1 to 3 and 5 of eight go: the others come to 0, 1, 2, 3. Then 2 to 4 and 6 to 7 of nine.
const MOVES: [[Move; 2]; 2] = [
    [Move { from: 4, by: -3 }, Move { from: 3, by: -1 }],
    [Move { from: 5, by: -3 }, Move { from: 5, by: -2 }],
];

/// The position of each card that stays, before and after.
const PLACES: [[(u32, u32); 4]; 2] = [
    [(0, 0), (4, 1), (6, 2), (7, 3)],
    [(0, 0), (1, 1), (5, 2), (8, 3)],
];

fn are_at(pieces: &[Piece], places: &[(u32, u32)]) -> Result<(), Fail> {
    for (before, after) in places {
        same(before, place_by(pieces, *before), Some(*after))?;
    }
    Ok(())
}

fn come_to(alloc: Global, moves: &[Move], places: &[(u32, u32)]) -> Result<(), Fail> {
    match pieces_of(alloc, moves) {
        Some(pieces) => are_at(&pieces, places),
        None => holds("the moves are in order", false),
    }
}

#[test]
fn cards_behind_what_goes_at_near_places_move_once(rt: HostRuntime) -> Result<(), Fail> {
    for (moves, places) in MOVES.iter().zip(PLACES.iter()) {
        come_to(rt.alloc(), moves, places)?;
    }
    Ok(())
}
