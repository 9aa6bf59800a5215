ghost use Rattle.std.specs.Fn.{FnOnceTakesAt, FnOnceReturnsAt};
ghost use Rattle.std.specs.Prelude.{◌≡◌, ◌++◌, ◌<◌, IfOk, Ok, Some, codes, filter, map, not, option_copied, string_bytes};
ghost use Rattle.rkt_base.specs.Want.{IfRefused, GivesUnlessNoMemory};
ghost use Rattle.rkt_grammar.specs.Grammar.{LeavesAt};
ghost use Rattle.rkt_uri.specs.Origin.{IsOrigin, IsTarget, normalized, pieces, spelling};
ghost use Rattle.rkt_route.specs.Segment.{segment_of};
ghost use Rattle.rkt_route.specs.RouteUri.{MountedUri, SpellsMounted, LeavesMountedAt, IsRebased, default_rank, mounted_at, path_segments, raw_field, static_fields};

use crate::Segment;
use crate::color::rank;
use rkt_base::{NoMemory, Seq, Text, Want};
use rkt_http::{InvalidUri, Origin, Profile, says_what_it_spells};
use std::alloc::{AllocError, Global};
use std::fmt;
use std::marker::Model;

/// Where a route is mounted: a base, and a path below it, maybe with a query.
#[derive(Drop)]
pub struct RouteUri {
    base: Origin,
    unmounted: Origin,
    origin: Origin,
    segments: Seq<Segment>,
    fields: Seq<(Text, Text)>,
    rank: i64,
}

impl Model for RouteUri {
    ghost use Rattle.rkt_route.specs.RouteUri.{MountedUri, IsRead};

    ghost Value = { MountedUri };

    ghost view = { λ u. record { base = u.base; unmounted = u.unmounted; origin = u.origin } };

    ghost invariant = { λ u.
        IsRead (record { base = u.base; unmounted = u.unmounted; origin = u.origin }) u.segments u.fields u.rank };
}

/// The segments between the separators, but for empty ones.
fn read_segments(alloc: Global, text: &str, separator: char) -> Result<Seq<Segment>, NoMemory>
    requires { separator < 128 }
    ensures { IfOk result (λ v. v ≡ map segment_of (pieces separator text.now)) }
{
    let mut segments = Seq::new(alloc);
    for piece in text.split(separator) {
        if !piece.is_empty() {
            segments.push(Segment::from(alloc, piece)?)?;
        }
    }
    Ok(segments)
}

fn read_field(alloc: Global, piece: &str) -> Result<(Text, Text), NoMemory>
    ensures { IfOk result (λ field. field ≡ raw_field piece.now) }
{
    let (name, value) = piece.split_once('=').unwrap_or((piece, ""));
    Ok((Text::new(alloc, name)?, Text::new(alloc, value)?))
}

/// The fields that these segments of a query stand for, but for dynamic ones.
fn read_fields(alloc: Global, segments: &[Segment]) -> Result<Seq<(Text, Text)>, NoMemory>
    ensures { IfOk result (λ v. v ≡ map (λ s. raw_field s.value) (filter (λ s. not s.dynamic) segments.now)) }
{
    let mut fields = Seq::new(alloc);
    for segment in segments {
        if !segment.dynamic {
            fields.push(read_field(alloc, segment.value.as_str())?)?;
        }
    }
    Ok(fields)
}

/// What is read from the whole URI.
#[derive(Drop)]
struct Parts {
    segments: Seq<Segment>,
    fields: Seq<(Text, Text)>,
    rank: i64,
}

fn read_parts(alloc: Global, origin: &Origin) -> Result<Parts, NoMemory>
    ensures segments { IfOk result (λ p. p.segments ≡ path_segments origin.now) }
    ensures fields { IfOk result (λ p. p.fields ≡ static_fields origin.now) }
    ensures rank { IfOk result (λ p. p.rank ≡ default_rank origin.now) }
{
    let query = read_segments(alloc, origin.query().unwrap_or(""), '&')?;
    let segments = read_segments(alloc, origin.path(), '/')?;
    let rank = rank(segments.as_slice(), query.as_slice());
    Ok(Parts {
        segments,
        fields: read_fields(alloc, query.as_slice())?,
        rank,
    })
}

/// A base's path, and behind it what is mounted there.
fn joined(alloc: Global, base: &Origin, uri: &Origin) -> Result<Origin, Want<InvalidUri>>
    requires base_fits { IsTarget Profile.Request base.now }
    requires uri_fits { IsTarget Profile.Route uri.now }
    ensures { GivesUnlessNoMemory result (record { path = base.now.path ++ uri.now.path; query = uri.now.query }) }
{
    let mut text = String::from_str(alloc, base.path())?;
    text.push_str(uri.as_str())?;
    Origin::parse_route(alloc, text.as_str())
}

impl RouteUri {
    /// A path, maybe with a query, mounted at a base, whose own query is dropped.
    pub fn try_new(alloc: Global, base: &str, uri: &str) -> Result<RouteUri, Want<InvalidUri>>
        // What is accepted is a base and a path as the two texts spell them.
        ensures accepted { IfOk result (SpellsMounted base.now uri.now) }
        // What the two texts spell is accepted, unless memory runs out.
        ensures complete { (m : MountedUri) → SpellsMounted base.now uri.now m → GivesUnlessNoMemory result m }
        // A refusal names the place where the base leaves its grammar, or else where the path does.
        ensures refused { IfRefused result (λ e. LeavesMountedAt base.now uri.now e.at) }
    {
        // So the two texts spell one URI at most, and it is this one.
        says_what_it_spells();
        let base = Origin::parse(alloc, base)?;
        let unmounted = Origin::parse_route(alloc, uri)?;
        RouteUri::mounted(alloc, base, unmounted)
    }

    // What is mounted at a base, whose own query is dropped.
    fn mounted(
        alloc: Global,
        mut base: Origin,
        unmounted: Origin,
    ) -> Result<RouteUri, Want<InvalidUri>>
        requires base_fits { IsTarget Profile.Request base }
        requires uri_fits { IsTarget Profile.Route unmounted }
        ensures { GivesUnlessNoMemory result (mounted_at base unmounted) }
    {
        let origin = joined(alloc, &base, &unmounted)?;
        base.clear_query();
        Ok(RouteUri::normalized(alloc, base, unmounted, origin)?)
    }

    // The URI of the normal forms of these parts.
    fn normalized(
        alloc: Global,
        base: Origin,
        unmounted: Origin,
        origin: Origin,
    ) -> Result<RouteUri, NoMemory>
        requires base_fits { IsTarget Profile.Request base }
        requires uri_fits { IsTarget Profile.Route unmounted }
        ensures { IfOk result (λ u.
            u ≡ record { base = normalized base; unmounted = normalized unmounted; origin = normalized origin }) }
    {
        let Ok(base) = base.into_normalized(alloc) else {
            // By calls, in which that is proved once for its type.
            drop(unmounted);
            drop(origin);
            return Err(AllocError);
        };
        let Ok(unmounted) = unmounted.into_normalized(alloc) else {
            drop(base);
            drop(origin);
            return Err(AllocError);
        };
        let Ok(origin) = origin.into_normalized(alloc) else {
            drop(base);
            drop(unmounted);
            return Err(AllocError);
        };
        RouteUri::of_parts(alloc, base, unmounted, origin)
    }

    /// A path mounted at the base `/`.
    pub(crate) fn at_root(alloc: Global, uri: &str) -> Result<RouteUri, Want<InvalidUri>>
        ensures accepted { IfOk result (SpellsMounted (codes "/") uri.now) }
        ensures complete { (m : MountedUri) → SpellsMounted (codes "/") uri.now m → GivesUnlessNoMemory result m }
        ensures refused { IfRefused result (λ e. LeavesAt (IsOrigin Profile.Route) uri.now e.at) }
    {
        RouteUri::try_new(alloc, "/", uri)
    }

    /// The same path, mounted at the base that a text spells.
    pub(crate) fn at_base(&self, alloc: Global, base: &str) -> Result<RouteUri, Want<InvalidUri>>
        ensures accepted { IfOk result (IsRebased self.now base.now) }
        ensures complete { (m : MountedUri) → IsRebased self.now base.now m → GivesUnlessNoMemory result m }
        ensures refused { IfRefused result (λ e. LeavesAt (IsOrigin Profile.Request) base.now e.at) }
    {
        // So what is read again of the path's text is the path.
        says_what_it_spells();
        RouteUri::try_new(alloc, base, self.unmounted.as_str())
    }

    /// The same path, mounted at the base that a closure spells of its own.
    pub(crate) fn at_mapped<F: FnOnce(&Origin) -> Result<String, NoMemory>>(
        &self,
        alloc: Global,
        mapper: F,
    ) -> Result<RouteUri, Want<InvalidUri>>
        requires { FnOnceTakesAt F.FnOnce mapper self.now.base }
        ensures accepted { IfOk result (λ u.
            (text : _) × FnOnceReturnsAt F.FnOnce mapper self.now.base (Ok text) × IsRebased self.now (string_bytes text) u) }
        ensures refused { IfRefused result (λ e. (text : _)
            × FnOnceReturnsAt F.FnOnce mapper self.now.base (Ok text)
            × LeavesAt (IsOrigin Profile.Request) (string_bytes text) e.at) }
    {
        let base = mapper(self.base_origin())?;
        self.at_base(alloc, base.as_str())
    }

    // The URI of these parts, with what is read from them.
    fn of_parts(
        alloc: Global,
        base: Origin,
        unmounted: Origin,
        origin: Origin,
    ) -> Result<RouteUri, NoMemory>
        requires base_fits { IsTarget Profile.Request base }
        requires uri_fits { IsTarget Profile.Route unmounted }
        ensures { IfOk result (λ u. u ≡ record { base = base; unmounted = unmounted; origin = origin }) }
    {
        let parts = read_parts(alloc, &origin)?;
        Ok(RouteUri {
            base,
            unmounted,
            origin,
            segments: parts.segments,
            fields: parts.fields,
            rank: parts.rank,
        })
    }

    /// The path of the base.
    pub fn base(&self) -> &str
        ensures { result.now ≡ self.now.base.path }
    {
        self.base.path()
    }

    /// The whole path, that of the base included.
    pub fn path(&self) -> &str
        ensures { result.now ≡ self.now.origin.path }
    {
        self.origin.path()
    }

    /// The query, without its question mark.
    pub fn query(&self) -> Option<&str>
        ensures { option_copied result ≡ self.now.origin.query }
    {
        self.origin.query()
    }

    /// The whole path, and the query.
    pub fn as_str(&self) -> &str
        ensures { result.now ≡ spelling self.now.origin }
    {
        self.origin.as_str()
    }

    /// The base, which has no query.
    pub fn base_origin(&self) -> &Origin
        ensures value { result.now ≡ self.now.base }
        // It is one that was read as a base.
        ensures fits { IsTarget Profile.Request self.now.base }
    {
        &self.base
    }

    /// Path and query as they were written, without the base.
    pub fn unmounted_origin(&self) -> &Origin
        ensures { result.now ≡ self.now.unmounted }
    {
        &self.unmounted
    }

    /// The whole path, and the query.
    pub fn origin(&self) -> &Origin
        ensures { result.now ≡ self.now.origin }
    {
        &self.origin
    }

    /// The rank of a route that is given none, from -12 to -1: the more static its path, and then its query, the lower.
    pub fn default_rank(&self) -> i64
        ensures { result ≡ default_rank self.now.origin }
    {
        self.rank
    }

    /// The segments of the path.
    pub fn segments(&self) -> &[Segment]
        ensures { result.now ≡ path_segments self.now.origin }
    {
        self.segments.as_slice()
    }

    /// The fields of the query that are not dynamic, each as its name and its value stand.
    pub fn fields(&self) -> &[(Text, Text)]
        ensures { result.now ≡ static_fields self.now.origin }
    {
        self.fields.as_slice()
    }
}

impl fmt::Display for RouteUri {
    ghost output = { λ u. Some (spelling u.origin) };

    fn fmt<W: fmt::Write>(&self, f: &mut fmt::Formatter<W>) -> fmt::Result {
        self.as_str().fmt(f)
    }
}
