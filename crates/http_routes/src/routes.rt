//! The five routes, by `matchit`.
ghost use Rattle.std.specs.Prelude.{◌≡◌, IfOk, OnOk, Some, is_some, true, option_map, slice_get, ◌<◌, length};
ghost use Rattle.http_routes.specs.Pages.{added, page_rows};
ghost use Rattle.http_routes.specs.Paths.{page_of, pieces};

use crate::page::Page;
use gs1_keys::Memory;
use matchit::{InsertError, Router};
use std::alloc::Global;

/// The router of the five routes.
#[derive(Drop)]
pub struct Routes {
    router: Router<Page>,
    ghost routed: { router ≡ page_rows },
}

/// Adds a route that fits beside the others.
fn add(router: &mut Router<Page>, route: &str, page: Page) -> Result<(), Memory>
    requires { is_some (added route.now page router.old) ≡ true }
    ensures { OnOk result (added route.now page router.old ≡ Some router.new) }
{
    match router.insert(route, page) {
        Ok(()) => Ok(()),
        Err(InsertError::OutOfMemory) => Err(Memory),
        Err(_) => unreachable!(),
    }
}

fn router(alloc: Global) -> Result<Router<Page>, Memory>
    ensures { IfOk result (λ r. r ≡ page_rows) }
{
    let mut router = Router::new(alloc);
    add(
        &mut router,
        "/stations/{station}/requests/{number}",
        Page::Requests,
    )?;
    add(&mut router, "/batches/{batch}", Page::Report)?;
    add(
        &mut router,
        "/batches/{batch}/events/{from}/{count}",
        Page::Events,
    )?;
    add(&mut router, "/items/{gtin}/{serial}", Page::Item)?;
    add(&mut router, "/units/{sscc}", Page::Unit)?;
    Ok(router)
}

/// The page that a path names, if there is one.
fn page_at(router: &Router<Page>, path: &str) -> Option<Page>
    requires { router.now ≡ page_rows }
    ensures { result ≡ page_of (pieces path.now) }
{
    match router.at(path) {
        Ok(found) => Some(*found.value),
        Err(_) => None,
    }
}

impl Routes {
    /// The five routes.
    pub fn new(alloc: Global) -> Result<Routes, Memory> {
        Ok(Routes {
            router: router(alloc)?,
        })
    }

    /// The page that a path names, if there is one.
    pub fn page(&self, path: &str) -> Option<Page>
        ensures { result ≡ page_of (pieces path.now) }
    {
        page_at(&self.router, path)
    }
}
