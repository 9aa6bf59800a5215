use rkt_fairing::Fairings;
use rkt_request::{Config, ConfigTable, Managed};
use rkt_router::Router;

/// What was ignited of a rocket, taken apart.
#[derive(Drop)]
pub struct IgnitedPartsOf<F, H, K, N, V> {
    pub router: Router<H, K, N>,
    pub fairings: Fairings<F>,
    pub config: Config,
    pub managed: Managed<V>,
    /// What the configuration was read of.
    pub table: ConfigTable,
}
