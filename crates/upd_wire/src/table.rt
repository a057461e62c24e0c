//! The routes of the desk in one router.

ghost use Rattle.std.specs.Prelude.{◌≡◌, [], true, IfOk, IfSome, OnOk, unwrap_or};
ghost use Rattle.std.specs.Option.{option_map};
ghost use Rattle.matchit.specs.Params.{AllText, named};
ghost use Rattle.upd_wire.specs.Parameters.{captures, segments_of};
ghost use Rattle.upd_wire.specs.Routes.{is_free, parameters_of, route_of, routes, with_route};

use crate::routes::Route;
use matchit::{InsertError, Params, Router};
use std::alloc::{AllocError, Global};

/// The routes of the desk by their paths. One table serves all requests.
#[derive(Drop)]
pub struct RouteTable {
    router: Router<Route>,
    ghost whole: { router ≡ routes },
}

impl RouteTable {
    /// The table of all routes.
    pub fn new(alloc: Global) -> Result<RouteTable, AllocError> {
        let router = router(alloc)?;
        Ok(RouteTable { router })
    }

    /// The route of a path. Does not allocate.
    pub(crate) fn find<'t, 'p>(&'t self, path: &'p str) -> Option<RouteMatch<'t, 'p>>
        ensures route { option_map (λ found. found.route) result ≡ route_of path.now }
        ensures path { IfSome result (λ found. found.params.path.now ≡ path.now) }
    {
        match self.router.at(path) {
            Ok(found) => Some(RouteMatch {
                route: *found.value,
                params: found.params,
            }),
            Err(_) => None,
        }
    }
}

/// The route of a path, and what its parameters captured.
#[derive(Debug, Drop)]
pub struct RouteMatch<'t, 'p> {
    pub(crate) route: Route,
    params: Params<'t, 'p>,
    ghost text: { ∥ AllText (captures params) ∥₁ },
    ghost segments: { captures params ≡ parameters_of route (segments_of params.path.now) },
}

impl<'t, 'p> RouteMatch<'t, 'p> {
    /// The segment that a parameter captured, or an empty text if the route has no parameter of this name.
    pub(crate) fn parameter(&self, name: &str) -> &'p str
        ensures { result.now ≡ unwrap_or (named name.now (parameters_of self.now.route (segments_of self.now.params.path.now))) [] }
    {
        self.params.get(name).unwrap_or("")
    }
}

#[tactic(auto, unfolding(matchit::proofs::OnLiterals::matchit_on_literals))]
fn router(alloc: Global) -> Result<Router<Route>, AllocError>
    ensures { IfOk result (λ router. router ≡ routes) }
{
    let mut router = Router::new(alloc);
    add(
        &mut router,
        "/sites/{site}/runs/{number}/{mode}",
        Route::Run,
    )?;
    add(
        &mut router,
        "/sites/{site}/settled/{number}",
        Route::Settled,
    )?;
    add(&mut router, "/compile", Route::Compile)?;
    add(&mut router, "/decks/{name}", Route::Deck)?;
    add(&mut router, "/cards/{ident}/{number}", Route::Card)?;
    add(&mut router, "/idents", Route::Idents)?;
    add(&mut router, "/yanks", Route::Yanks)?;
    Ok(router)
}

fn add(router: &mut Router<Route>, text: &str, route: Route) -> Result<(), AllocError>
    requires { is_free text.now router.old ≡ true }
    ensures { OnOk result (router.new ≡ with_route text.now route router.old) }
{
    match router.insert(text, route) {
        Ok(()) => Ok(()),
        Err(InsertError::OutOfMemory) => Err(AllocError),
        Err(_) => unreachable!(),
    }
}
