// What a server answers requests with.
use split_http::Routes;
use split_solve::Solver;

/// What a server answers requests with, besides its file: the routes of paths, and what finds
/// divisions.
#[derive(Drop)]
pub struct Tools<'a, R, G> {
    /// What finds divisions, with the means of the server.
    pub solver: Solver<'a, R, G>,
    /// Where each path leads.
    pub routes: &'a Routes,
}
