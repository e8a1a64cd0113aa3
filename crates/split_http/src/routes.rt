// The routes of the host.
ghost use Rattle.std.specs.Prelude.{◌≡◌, ◌↔◌, IfOk, IsTrue, option_map, slice_index_or};
ghost use Rattle.split_http.specs.Places.{endpoint_of, has_verb, id_text, IsId, IsRouted};
ghost use Rattle.split_http.specs.Rows.{route_rows};

use crate::{Allow, PathText, Verb};
use http_heads::capped_number;
use matchit::{InsertError, Router};
use split_base::NoMemory;
use std::alloc::Global;

/// What a path leads to.
#[derive(Clone, Copy, Debug, PartialEq, Eq)]
pub enum Place {
    /// `/instances`, by POST: a creation.
    Instances,
    /// `/instances/{id}`, by GET or HEAD: the status of an instance.
    Instance,
    /// `/instances/{id}/audit`, by GET or HEAD: the audit of a division of goods.
    Audit,
    /// `/instances/{id}/bids`, by POST: a bid.
    Bids,
    /// `/instances/{id}/bid`, by GET or HEAD: the own bid.
    Bid,
    /// `/instances/{id}/certificate`, by GET or HEAD.
    Certificate,
    /// `/instances/{id}/close`, by POST: a close.
    Close,
    /// `/instances/{id}/division`, by GET or HEAD.
    Division,
    /// `/instances/{id}/report`, by GET or HEAD.
    Report,
    /// `/instances/{id}/winner`, by GET or HEAD: adjusted winner for two players.
    Winner,
    /// `/instances/{id}/withdraw`, by POST: a withdrawal.
    Withdraw,
}

/// Where a request leads.
#[derive(Clone, Copy, Debug, PartialEq, Eq)]
pub struct Route {
    /// What it asks for.
    pub place: Place,
    /// The id of the instance, which is at least 1; 0 if the path names none in plain
    /// decimal.
    pub id: u32,
}

/// Why a request leads nowhere.
#[derive(Clone, Copy, Debug, PartialEq, Eq)]
pub enum RouteFault {
    /// No route has the path.
    NoRoute,
    /// The route hasn't the method; these it has.
    Method {
        /// The methods of the route.
        allow: Allow,
    },
}

/// The routes of the host, as a router of `matchit`.
#[derive(Drop)]
pub struct Routes {
    router: Router<(Place, Allow)>,
    ghost rows: { router ≡ route_rows },
}

impl Routes {
    /// All routes of the host.
    pub fn new(alloc: Global) -> Result<Routes, NoMemory> {
        match make_router(alloc) {
            Ok(router) => Ok(Routes { router }),
            Err(_) => Err(NoMemory),
        }
    }

    /// Where a request with this method and path leads; a target without a path leads nowhere. It
    /// takes no memory.
    ///
    /// - `NoRoute` is returned exactly when no route has the path.
    /// - `Method` is returned exactly when a route has the path, but not the method.
    pub fn find(&self, verb: Verb, path: Option<&PathText>) -> Result<Route, RouteFault>
        ensures { IsRouted verb (option_map (λ p. p.now) path.entry) result }
    {
        let Some(path) = path else {
            return Err(RouteFault::NoRoute);
        };
        let Some((place, allow)) = find_endpoint(&self.router, path.as_str()) else {
            return Err(RouteFault::NoRoute);
        };
        if !admits(allow, verb) {
            return Err(RouteFault::Method { allow });
        }
        let id = number(id_bytes(path.as_str().as_bytes()));
        Ok(Route { place, id })
    }
}

// All routes, each with its place and methods.
fn make_router(alloc: Global) -> Result<Router<(Place, Allow)>, InsertError>
    ensures { IfOk result (λ router. router ≡ route_rows) }
{
    let get = Allow::GetHead;
    let post = Allow::Post;
    let mut router = Router::new(alloc);
    router.insert("/instances", (Place::Instances, post))?;
    router.insert("/instances/{id}", (Place::Instance, get))?;
    router.insert("/instances/{id}/audit", (Place::Audit, get))?;
    router.insert("/instances/{id}/bids", (Place::Bids, post))?;
    router.insert("/instances/{id}/bid", (Place::Bid, get))?;
    router.insert("/instances/{id}/certificate", (Place::Certificate, get))?;
    router.insert("/instances/{id}/close", (Place::Close, post))?;
    router.insert("/instances/{id}/division", (Place::Division, get))?;
    router.insert("/instances/{id}/report", (Place::Report, get))?;
    router.insert("/instances/{id}/winner", (Place::Winner, get))?;
    router.insert("/instances/{id}/withdraw", (Place::Withdraw, post))?;
    Ok(router)
}

// A path that the router doesn't know isn't a route.
fn find_endpoint(router: &Router<(Place, Allow)>, path: &str) -> Option<(Place, Allow)>
    requires { router.now ≡ route_rows }
    ensures { result ≡ endpoint_of path.now }
{
    match router.at(path) {
        Ok(found) => Some(*found.value),
        Err(_) => None,
    }
}

// A route that can be read answers HEAD as well as GET.
fn admits(allow: Allow, verb: Verb) -> bool
    ensures { result ≡ has_verb allow verb }
{
    match allow {
        Allow::Post => verb == Verb::Post,
        Allow::GetHead => verb == Verb::Get || verb == Verb::Head,
    }
}

// The number after the greatest id.
const PAST_IDS: u64 = 4_294_967_296;

// The bytes between `/instances/` and the next slash or the end.
fn id_bytes(path: &[u8]) -> &[u8]
    ensures { result.now ≡ id_text path.now }
{
    let rest = &path[path.len().min(11)..];
    let mut size = 0;
    while size < rest.len() && rest[size] != b'/' {
        size += 1;
    }
    &rest[..size]
}

// A number has one spelling, so none begins with a zero.
fn leads_zero(text: &[u8]) -> bool
    ensures { IsTrue result ↔ (slice_index_or text.now 0 0 ≡ 48) }
{
    match text.first() {
        Some(byte) => *byte == b'0',
        None => false,
    }
}

// The number that is there in plain decimal, from 1 to the greatest `u32`; otherwise 0.
fn number(text: &[u8]) -> u32
    ensures { IsId text.now result }
{
    if leads_zero(text) {
        return 0;
    }
    match capped_number(text, PAST_IDS) {
        Some(number) => { if number < PAST_IDS { number as u32 } else { 0 } }
        None => 0,
    }
}
