//! Why a rocket does not ignite.
use crate::IgniteCall;
use rkt_base::Seq;
use rkt_fairing::Info;
use rkt_request::BadConfig;
use rkt_router::Collisions;
use std::marker::Model;
use thiserror::Error;

/// A sentinel that is to abort the launch: its type, and the file, the line and the column where it stands.
#[derive(Debug, Drop)]
pub struct Aborted {
    pub type_name: &'static str,
    pub location: (&'static str, u32, u32),
}

impl Model for Aborted {
    ghost use Rattle.rkt_ignition.specs.Aborted.{SeenAborted};

    ghost Value = { SeenAborted };

    ghost view = { λ a.
        record { type_name = a.type_name.now; file = a.location.0.now; line = a.location.1; column = a.location.2 } };
}

/// Why a rocket does not ignite.
#[derive(Debug, Drop, Error)]
pub enum IgniteError {
    /// So many callbacks were called, and another waits.
    #[error("ignite callback limit")]
    IgniteLimit {
        calls: Seq<IgniteCall>,
    },
    /// A call was not done, or a singleton came after one of its key had ignited.
    #[error("launch fairing(s) failed")]
    FailedFairings {
        /// Those that failed, in the order in which they did.
        infos: Seq<Info>,
        calls: Seq<IgniteCall>,
    },
    /// A setting does not take its text.
    #[error("failed to extract configuration")]
    Config(BadConfig),
    /// Routes or catchers collide.
    #[error("collisions detected")]
    Collisions(Collisions),
    /// Sentinels are to abort the launch.
    #[error("sentinel(s) aborted")]
    SentinelAborts(Seq<Aborted>),
}
