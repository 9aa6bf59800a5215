use crate::Fairings;
use rkt_request::{ConfigTable, Managed};
use rkt_route::{Catcher, Route};

/// What was built of a rocket, taken apart.
#[derive(Drop)]
pub struct BuildingPartsOf<H, K, N, V, F> {
    /// In mounting order.
    pub routes: Vec<Route<H, N>>,
    /// In the order in which they were registered.
    pub catchers: Vec<Catcher<K>>,
    pub fairings: Fairings<F>,
    pub managed: Managed<V>,
    pub table: ConfigTable,
}
