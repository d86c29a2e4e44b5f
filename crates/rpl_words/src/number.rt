use route_types::Row;

/// A number of a statement: one that is written, or the parameter `$x` of the policy, without its `$`.
#[derive(Debug, Drop)]
pub enum RplNumber<N> {
    Fixed(N),
    Parameter(Row<u8>),
}

/// A set of a statement: the name of a set, the parameter `$x` of the policy, without its `$`, or the
/// elements, one or more.
#[derive(Debug, Drop)]
pub enum RplSet<E> {
    Named(Row<u8>),
    Parameter(Row<u8>),
    Listed(Row<E>),
}
