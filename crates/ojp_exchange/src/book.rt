//! The book of a list of regions.

ghost use Rattle.std.specs.Prelude.{◌≡◌, ◌<◌, length, IfOk, IfErr, MatchOption};
ghost use Rattle.ojp_exchange.specs.Book.{HasChange, is_home, serves};
ghost use Rattle.ojp_exchange.specs.Kept.{AreKept, ArePointsAt, book_of, HasNoChange, IsSound, IsWellBook, spot_of};
ghost use Rattle.ojp_exchange.specs.Places.{AreEdges, AreWays, IsCodeAt, IsNoCode, IsPairAt, IsSpotAt, NoPairAt};
ghost use Rattle.ojp_exchange.specs.Joins.{AreWellLists, IsJoined, JoinFails};

use crate::collected::{copies_at, regions_of, sorted_codes, sorted_points};
use crate::joins::{first_dispute, first_twice, has_code, stops_in};
use crate::places::{change_from, count_before, count_through, number_of, place_of};
use crate::refusals::BookRefused;
use crate::region_points::RegionPoints;
use crate::spots::{Edge, Spot};
use crate::tables::{EdgeTable, WayTable, edges_of, ways_of};
use ojp_values::{Code, List, NoMemory, Point, StopRef};
use std::alloc::Global;
use std::marker::Model;

/// The most regions of a book, and the most points.
const REGIONS: usize = 32;

const POINTS: usize = 2_000;

/// What a list of regions declares of its exchange points. It is seen as three rising lists: the
/// codes, the exchange points of each region, and the neighbours that each declares.
#[derive(Drop)]
pub struct Book {
    codes: Vec<Code>,
    points: Vec<Point>,
    regions: Vec<Code>,
    edges: EdgeTable,
    ways: WayTable,
}

impl Model for Book {
    ghost use Rattle.ojp_exchange.specs.Book.{Book as Flat};
    ghost use Rattle.ojp_exchange.specs.Kept.{book_of};
    ghost use Rattle.ojp_exchange.specs.Tables.{IsWhole};

    ghost Value = { Flat };

    ghost view = { λ b. book_of b.codes.items b.points.items };

    ghost invariant = { λ b. IsWhole b.codes.items b.points.items b.regions.items b.edges.edges.items b.edges.firsts.items b.ways.ways.items b.ways.firsts.items };
}

impl Book {
    ghost use Rattle.ojp_exchange.specs.Kept.{regions_of};

    /// The book of the lists, or the first reason why they make none.
    pub fn join(alloc: Global, lists: &[RegionPoints]) -> Result<Book, BookRefused>
        requires { AreWellLists lists.now }
        ensures joined { IfOk result (IsJoined lists.now) }
        ensures refused { IfErr result (JoinFails lists.now) }
    {
        let Ok(codes) = sorted_codes(alloc, lists) else {
            return Err(BookRefused::NoMemory);
        };
        if let Some(code) = first_twice(codes.as_slice()) {
            return Err(BookRefused::TwiceRegion(code));
        }
        if codes.as_slice().len() > REGIONS {
            return Err(BookRefused::TooMany);
        }
        let Ok(points) = sorted_points(alloc, lists) else {
            return Err(BookRefused::NoMemory);
        };
        if stops_in(points.as_slice()) > POINTS {
            return Err(BookRefused::TooMany);
        }
        if let Some(found) = first_dispute(codes.as_slice(), points.as_slice()) {
            return Err(BookRefused::Disagree {
                point: found.point,
                left: found.left,
                right: found.right,
            });
        }
        let Ok(book) = Book::with_tables(alloc, codes, points) else {
            return Err(BookRefused::NoMemory);
        };
        Ok(book)
    }

    // The book of the regions with the points, with its tables.
    fn with_tables(alloc: Global, codes: Vec<Code>, points: Vec<Point>) -> Result<Book, NoMemory>
        requires kept { AreKept codes.items points.items }
        requires sound { IsSound (book_of codes.items points.items) }
        ensures { IfOk result (λ book. book ≡ book_of codes.items points.items) }
    {
        let regions = regions_of(alloc, points.as_slice())?;
        let edges = edges_of(alloc, points.as_slice())?;
        let firsts = edges.firsts.as_slice();
        let ways = ways_of(alloc, codes.as_slice(), points.as_slice(), firsts)?;
        Ok(Book {
            codes,
            points,
            regions,
            edges,
            ways,
        })
    }

    /// The regions of the book, rising.
    pub fn regions(&self) -> &[Code]
        ensures { result.now ≡ self.now.codes }
    {
        self.codes.as_slice()
    }

    /// The time that the region `to` declared for a change at the point from the region `from`.
    pub fn change(&self, point: StopRef, from: Code, to: Code) -> Option<u32>
        ensures { MatchOption result (HasNoChange self.now point from to) (λ change. HasChange self.now point from to change) }
    {
        if !has_code(self.codes.as_slice(), &from) {
            return None;
        }
        change_from(self.points.as_slice(), &point, &to, &from)
    }

    /// The regions that declare the point, rising.
    #[tactic(auto, unfolding(crate::specs::Kept::regions_of))]
    pub fn regions_at(&self, point: StopRef) -> &[Code]
        ensures { result.now ≡ regions_of self.now point }
    {
        let points = self.points.as_slice();
        let from = count_before(points, &point);
        let to = count_through(points, &point, from);
        &self.regions.as_slice()[from..to]
    }

    /// Copies of all exchange points by stop and region, or of those at the place.
    pub fn points(&self, alloc: Global, place: Option<StopRef>) -> Result<List<Point>, NoMemory>
        ensures { IfOk result (ArePointsAt self.now place) }
    {
        copies_at(alloc, self.points.as_slice(), place)
    }

    /// The number of places: a place is the number of an exchange point of a region among those of
    /// all regions, by rising stop and region.
    pub fn places(&self) -> usize
        ensures { result ≡ length self.now.spots }
    {
        self.points.len()
    }

    /// The exchange point of a region at the place.
    pub fn spot(&self, place: usize) -> Spot
        requires { place < length self.now.spots }
        ensures { IsSpotAt self.now place result }
    {
        spot_of(&self.points[place])
    }

    /// The place of the region's exchange point, if it declares the stop.
    pub fn place_of(&self, stop: StopRef, region: Code) -> Option<usize>
        ensures { MatchOption result (NoPairAt self.now stop region) (λ place. IsPairAt self.now place stop region) }
    {
        place_of(self.points.as_slice(), &stop, &region)
    }

    /// Where one who arrived at the place may change to, and in what time.
    pub fn edges(&self, place: usize) -> &[Edge]
        requires { place < length self.now.spots }
        ensures { AreEdges self.now place result.now }
    {
        &self.edges.edges[self.edges.firsts[place]..self.edges.firsts[place + 1]]
    }

    /// The places of the region that lead on to another region, rising.
    pub fn ways(&self, region: Code) -> &[usize]
        ensures { AreWays self.now region result.now }
    {
        match self.number_of(region) {
            Some(number) => {
                &self.ways.ways[self.ways.firsts[number]..self.ways.firsts[number + 1]]
            }
            None => &[],
        }
    }

    /// The number of the region among those of the book, if it is one.
    pub fn number_of(&self, region: Code) -> Option<usize>
        ensures { MatchOption result (IsNoCode self.now.codes region) (λ number. IsCodeAt self.now.codes number region) }
    {
        number_of(self.codes.as_slice(), &region)
    }

    /// Whether the stop is the region's own, or the region declares it.
    pub fn serves(&self, region: Code, stop: StopRef) -> bool
        ensures { result ≡ serves self.now region stop }
    {
        if is_home(region, stop.region()) {
            return true;
        }
        self.place_of(stop, region).is_some()
    }

    /// The book is well: its lists rise, it is within its limits and agreed, its spots are exchange
    /// points of its regions, and each link is declared by a region that has its spot there.
    pub fn is_well(&self)
        ensures { IsWellBook self.now }
    {
        let _ = &self.regions;
    }
}

// The exchange point as the book lists it.
fn spot_of(point: &Point) -> Spot
    ensures { result ≡ spot_of point.now }
{
    Spot {
        stop: point.stop,
        region: point.region,
        change: point.change,
    }
}

// Whether the region is that of an own stop.
#[tactic(auto, unfolding(ojp_values::specs::Texts::same))]
fn is_home(region: Code, code: Option<Code>) -> bool
    ensures { result ≡ is_home region code }
{
    match code {
        None => false,
        Some(code) => region == code,
    }
}
