//! The routes: a method and a path each.
ghost use Rattle.std.specs.Prelude.{◌≡◌, IfOk, IsUtf8, Some, None, codes};
ghost use Rattle.cpi_http.specs.Routes.{all_routes, method_of, word_of_route, route_of};

use http::Method;
use matchit::{InsertError, Router};
use std::alloc::{AllocError, Global};
use std::marker::Model;
use std::str;

/// A route: what a method and a path ask for.
#[derive(Clone, Copy, PartialEq, Eq)]
pub enum Route {
    Items,
    Tables,
    Table,
    TableRevision,
    Work,
    Quotes,
    Quote,
    Plan,
    Import,
}

impl Route {
    /// The only method of the route.
    pub fn method(self) -> Method
        ensures { result ≡ method_of self }
    {
        match self {
            Route::Quote | Route::Plan => Method::PUT,
            Route::Import => Method::POST,
            _ => Method::GET,
        }
    }

    /// The word of the record that asks for the same.
    pub fn word(self) -> &'static [u8]
        ensures { result.now ≡ word_of_route self }
    {
        match self {
            Route::Items => b"items".as_slice(),
            Route::Tables => b"tables".as_slice(),
            Route::Table | Route::TableRevision => b"table".as_slice(),
            Route::Work => b"work".as_slice(),
            Route::Quotes => b"quotes".as_slice(),
            Route::Quote => b"quote".as_slice(),
            Route::Plan => b"plan".as_slice(),
            Route::Import => b"import".as_slice(),
        }
    }
}

// The router of all routes. The error is that memory ran out: no two routes conflict.
fn all_routes(alloc: Global) -> Result<Router<Route>, InsertError>
    ensures { IfOk result (λ router. router ≡ all_routes) }
{
    let mut router = Router::new(alloc);
    router.insert("/items", Route::Items)?;
    router.insert("/tables", Route::Tables)?;
    router.insert("/table/{month}/{form}", Route::Table)?;
    router.insert("/table/{month}/{form}/{revision}", Route::TableRevision)?;
    router.insert("/work/{month}", Route::Work)?;
    router.insert("/quotes/{first}/{last}", Route::Quotes)?;
    router.insert("/quote/{slot}/{month}", Route::Quote)?;
    router.insert("/plan/{year}", Route::Plan)?;
    router.insert("/import", Route::Import)?;
    Ok(router)
}

/// The routes of the office in a router, which is made once and kept from message to message.
#[derive(Drop)]
pub struct Routes {
    router: Router<Route>,
}

impl Model for Routes {
    ghost use Rattle.std.specs.Prelude.{◌≡◌};
    ghost use Rattle.cpi_http.specs.Routes.{Routes, all_routes};

    ghost Value = { Routes };

    ghost view = { λ r. r.router };

    ghost invariant = { λ r. r.router ≡ all_routes };
}

impl Routes {
    /// Makes the router. The error is that memory ran out: no two routes conflict.
    pub fn new(alloc: Global) -> Result<Routes, AllocError> {
        match all_routes(alloc) {
            Ok(router) => Ok(Routes { router }),
            Err(_) => Err(AllocError),
        }
    }

    /// The route of a method and a path; none if there is no such path, or if its method is another.
    pub(crate) fn route_of(&self, method: &[u8], path: &[u8]) -> Option<Route>
        requires text { IsUtf8 path.now }
        ensures { result ≡ route_of method.now path.now }
    {
        let route = *self.router.at(str::from_utf8(path).unwrap()).ok()?.value;
        if method != route.method().as_str().as_bytes() {
            return None;
        }
        Some(route)
    }
}

/// Routes, each computed by the check.
pub fn examples()
    ensures items { route_of (codes "GET") (codes "/items") ≡ Some Route.Items }
    ensures tables { route_of (codes "GET") (codes "/tables") ≡ Some Route.Tables }
    ensures table { route_of (codes "GET") (codes "/table/2026-01/text") ≡ Some Route.Table }
    ensures table_revision { route_of (codes "GET") (codes "/table/2026-01/text/2") ≡ Some Route.TableRevision }
    ensures work { route_of (codes "GET") (codes "/work/2026-01") ≡ Some Route.Work }
    ensures quotes { route_of (codes "GET") (codes "/quotes/2026-01/2026-02") ≡ Some Route.Quotes }
    ensures quote { route_of (codes "PUT") (codes "/quote/1/2026-01") ≡ Some Route.Quote }
    ensures plan { route_of (codes "PUT") (codes "/plan/2026") ≡ Some Route.Plan }
    ensures import { route_of (codes "POST") (codes "/import") ≡ Some Route.Import }
    ensures other_method { route_of (codes "DELETE") (codes "/items") ≡ None }
    ensures empty_part { route_of (codes "GET") (codes "/table//text") ≡ None }
    ensures query { route_of (codes "GET") (codes "/items?a=b") ≡ None }
{}
