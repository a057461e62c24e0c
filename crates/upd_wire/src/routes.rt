//! Routes, and what each asks.

ghost use Rattle.std.specs.Prelude.{◌≡◌, ℕ, List};
ghost use Rattle.std.specs.Str.{bytes_eq};
ghost use Rattle.upd_wire.specs.Calls.{Gives, asked};
ghost use Rattle.upd_wire.specs.Parameters.{segments_of};
ghost use Rattle.upd_wire.specs.Paths.{AreBytes, ArePlain};
ghost use Rattle.upd_wire.specs.Routes.{call_of, method_of};

use crate::call::{DeskCall, Refusal};
use crate::parameters::{card_in, name_in, number_in, text_in};
use crate::table::RouteMatch;
use http::Method;
use std::alloc::Global;
use upd_text::FaultKind;

/// A route of the desk.
#[derive(Clone, Copy, Debug, PartialEq, Eq)]
pub enum Route {
    Run,
    Settled,
    Compile,
    Deck,
    Card,
    Idents,
    Yanks,
}

impl Route {
    /// The one method that it has.
    pub fn method(self) -> Method
        ensures { result ≡ method_of self }
    {
        match self {
            Route::Run | Route::Settled => Method::POST,
            _ => Method::GET,
        }
    }

    /// Whether a method is its own.
    pub(crate) fn takes(self, method: &[u8]) -> bool
        ensures { result ≡ bytes_eq method.now (method_of self) }
    {
        method == self.method().as_str().as_bytes()
    }
}

/// What a path asks by its route, its parameters and the body.
pub(crate) fn call_of(alloc: Global, found: &RouteMatch, body: Vec<u8>) -> Result<DeskCall, Refusal>
    ensures { Gives asked result (call_of found.now.route (segments_of found.now.params.path.now) body.items) }
{
    match found.route {
        Route::Run => {
            let site = text_in(alloc, found.parameter("site"), FaultKind::BadSite)?;
            let number = number_in(alloc, found.parameter("number"))?;
            let mode = text_in(alloc, found.parameter("mode"), FaultKind::BadMode)?;
            Ok(DeskCall::Run {
                site,
                number,
                mode,
                body,
            })
        }
        Route::Settled => {
            let site = text_in(alloc, found.parameter("site"), FaultKind::BadSite)?;
            let number = number_in(alloc, found.parameter("number"))?;
            Ok(DeskCall::Settle { site, number })
        }
        Route::Compile => Ok(DeskCall::Compile),
        Route::Deck => {
            let name = name_in(alloc, found.parameter("name"))?;
            Ok(DeskCall::Deck(name))
        }
        Route::Card => {
            let card = card_in(alloc, found.parameter("ident"), found.parameter("number"))?;
            Ok(DeskCall::Card(card))
        }
        Route::Idents => Ok(DeskCall::Idents),
        Route::Yanks => Ok(DeskCall::Yanks),
    }
}

/// A path has a route exactly where its segments match the parts of that route, which are words and parameters. So no
/// path has two routes.
#[tactic(auto, using(crate::proofs::RouteLemmas::plain))]
pub fn routes_are_plain()
    ensures { (path : List ℕ) → AreBytes path → (route : Route) → ArePlain path route }
{}
