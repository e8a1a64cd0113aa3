// The first stop of a route, as a step of the recursion over sets of riders takes it from the costs of a smaller set.

/// Where the first rider gets off, and what the route of the others costs from there, in cents.
#[derive(Clone, Copy, Default)]
pub(crate) struct FirstStop {
    /// The place of the rider.
    pub(crate) place: u8,
    /// The cost of the route of the others.
    pub(crate) rest: u32,
}
