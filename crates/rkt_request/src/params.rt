//! Parameters of a request, by the segments behind the base of its route.
ghost use Rattle.std.specs.Prelude.{◌≡◌, drop, slice_get};
ghost use Rattle.rkt_param.specs.Reads.{MaybeReads, UnlessNoMemory};
ghost use Rattle.rkt_request.specs.Seen.{routed};

use crate::request::Request;
use crate::types::Types;
use rkt_base::Want;
use rkt_param::{FromParam, FromSegments};
use std::alloc::Global;
use std::ops::RangeFrom;

impl<'a, T: Types> Request<'a, T> {
    /// What a decoded segment gives, counted from 0 behind the base of the route; None where there is no such segment.
    pub fn param<P: FromParam>(&self, alloc: Global, n: usize) -> Option<Result<P, Want<P::Error>>>
        ensures { MaybeReads P.reads (slice_get (routed self.now) n) result }
    {
        Some(P::from_param(alloc, self.routed_segment(n)?))
    }

    /// What the decoded segments from one on give, counted from 0 behind the base of the route.
    pub fn segments<P: FromSegments>(
        &self,
        alloc: Global,
        n: RangeFrom<usize>,
    ) -> Result<P, Want<P::Error>>
        ensures { UnlessNoMemory (P.reads (drop n.start (routed self.now))) result }
    {
        P::from_segments(alloc, self.routed_segments(n))
    }
}
