//! The book of the regions is learned from them.

ghost use Rattle.std.specs.Prelude.{◌≡◌, ◌<◌, length, IfOk, Err};
ghost use Rattle.ojp_outside.specs.Causes.{Rose};
ghost use Rattle.ojp_values.specs.declared.replies.PointsReply.TheVariants as points_replies;
ghost use Rattle.ojp_values.specs.declared.replies.Delivery.TheVariants as deliveries;
ghost use Rattle.ojp_links.specs.Seen.{NoneLive};
ghost use Rattle.ojp_links.specs.Calls.{Keeps};
ghost use Rattle.ojp_gateway.specs.Learning.{Hears, IsAlone, IsListOf, IsListing, Learns, RejectsNoneTold};

use ojp_exchange::{Book, BookRefused, RegionPoints};
use ojp_links::{Links, PacedLinks, Runtime, WaitLinks};
use ojp_subrequests::{BeginRefused, SubEnd, SubPoll, Subreply};
use ojp_values::{Ask, Code, Delivery, List, Point, PointsAsk, PointsReply};
use std::alloc::Global;

/// Why no book was learned.
#[derive(Clone, Copy, Debug, PartialEq, Eq)]
pub enum LearnRefused {
    /// The first region whose subrequest failed.
    Region(Code),
    /// What the regions declare makes no book.
    Book(BookRefused),
    /// Memory ran out.
    NoMemory,
}

/// Learns the book over paced links: asks the regions, one after another, for all their exchange points.
pub fn learn_paced<L: PacedLinks>(alloc: Global, links: &mut L) -> Result<Book, LearnRefused>
    requires { NoneLive (L.seen links.old) }
    ensures { Learns (L.seen links.old) (L.seen links.new) result }
{
    learn::<(), L, Resting>(&(), alloc, links)
}

/// The same over links that may wait. It may wait; its promise holds if it returns.
pub fn learn_waiting<R: Runtime, L: WaitLinks>(
    rt: &mut R,
    alloc: Global,
    links: &mut L,
) -> Result<Book, LearnRefused>
    requires { NoneLive (L.seen links.old) }
    ensures { Learns (L.seen links.old) (L.seen links.new) result }
{
    learn::<R, L, Waiting>(rt, alloc, links)
}

// How a subrequest that is alone is brought to its end.
trait Hearing<R, L: Links> {
    fn hear(rt: &R, links: &mut L, sub: Subreply) -> SubEnd
        requires { IsAlone sub (L.seen links.old) }
        ensures { Hears (L.seen links.old) (L.seen links.new) sub result };
}

// Rests after each poll.
struct Resting;

impl<L: PacedLinks> Hearing<(), L> for Resting {
    fn hear(_rt: &(), links: &mut L, sub: Subreply) -> SubEnd {
        let mut sub = sub;
        hear_resting(links, &mut sub)
    }
}

// Waits where nothing came.
struct Waiting;

impl<R: Runtime, L: WaitLinks> Hearing<R, L> for Waiting {
    fn hear(rt: &R, links: &mut L, sub: Subreply) -> SubEnd {
        let mut sub = sub;
        hear_waiting(rt, links, &mut sub)
    }
}

// Polls the subrequest until it is over, with a rest after each poll before.
fn hear_resting<L: PacedLinks>(links: &mut L, sub: &mut Subreply) -> SubEnd
    requires { IsAlone sub.old (L.seen links.old) }
    ensures { Hears (L.seen links.old) (L.seen links.new) sub.old result }
{
    'hearing: loop {
        match sub.poll(links) {
            SubPoll::Pending => links.rest(),
            SubPoll::Moved => links.rest(),
            SubPoll::Over(end) => return end,
        }
    }
}

/// Polls the subrequest, which is all that is live, until it is over, and waits where nothing came. It may wait; its
/// promise holds if it returns.
pub fn hear_waiting<R: Runtime, L: WaitLinks>(rt: &R, links: &mut L, sub: &mut Subreply) -> SubEnd
    requires { IsAlone sub.old (L.seen links.old) }
    ensures { Hears (L.seen links.old) (L.seen links.new) sub.old result }
{
    'hearing: for _ in rt.forever() {
        match sub.poll(links) {
            SubPoll::Pending => {
                // The loop has the runtime lent, so that the links are lent a reference to it.
                let mut lent = rt;
                links.wait(&mut lent)
            }
            SubPoll::Moved => {}
            SubPoll::Over(end) => return end,
        }
    }
    unreachable!()
}

// Asks the regions, one after another, and joins the book of their lists.
fn learn<R, L: Links, H: Hearing<R, L>>(
    rt: &R,
    alloc: Global,
    links: &mut L,
) -> Result<Book, LearnRefused>
    requires { NoneLive (L.seen links.old) }
    ensures { Learns (L.seen links.old) (L.seen links.new) result }
{
    links.is_sound();
    let mut lists = Vec::new(alloc);
    let count = links.regions();
    'asking: for region in 0..count {
        match hear_list::<R, L, H>(rt, alloc, links, region) {
            Ok(list) => {
                if lists.push(list).is_err() {
                    return Err(LearnRefused::NoMemory);
                }
            }
            Err(BeginRefused::Failed) => return Err(LearnRefused::Region(links.code(region))),
            Err(BeginRefused::NoMemory) => return Err(LearnRefused::NoMemory),
        }
    }
    match Book::join(alloc, lists.as_slice()) {
        Ok(book) => {
            book.is_well();
            Ok(book)
        }
        Err(reason) => match reason {
            BookRefused::NoMemory => Err(LearnRefused::NoMemory),
            _ => Err(LearnRefused::Book(reason)),
        },
    }
}

// The exchange points of the region, as it lists them.
fn hear_list<R, L: Links, H: Hearing<R, L>>(
    rt: &R,
    alloc: Global,
    links: &mut L,
    region: usize,
) -> Result<RegionPoints, BeginRefused>
    requires region { region < length (L.seen links.old).fixed.stations }
    requires none_live { NoneLive (L.seen links.old) }
    ensures keeps { Keeps (L.seen links.old) (L.seen links.new) }
    ensures none_live { NoneLive (L.seen links.new) }
    ensures list { IfOk result (IsListOf (L.seen links.old) region) }
    ensures failed { result ≡ Err BeginRefused.Failed → Rose ((L.seen links.old).faults region) ((L.seen links.new).faults region) }
    ensures rejections { RejectsNoneTold (L.seen links.old) (L.seen links.new) }
{
    let code = links.code(region);
    let asking = Ask::Points(PointsAsk { place: None });
    let sub = Subreply::begin(alloc, links, region, asking, true)?;
    match H::hear(rt, links, sub) {
        SubEnd::Heard(delivery) => Ok(RegionPoints {
            code,
            points: listed(delivery),
        }),
        SubEnd::Failed => Err(BeginRefused::Failed),
        SubEnd::NoMemory => Err(BeginRefused::NoMemory),
    }
}

// The points that a delivery lists.
fn listed(delivery: Delivery) -> List<Point>
    requires { IsListing delivery }
    ensures { delivery ≡ deliveries.Points (points_replies.Points result) }
{
    match delivery {
        Delivery::Points(PointsReply::Points(points)) => points,
        Delivery::Points(PointsReply::Fault(_)) => unreachable!(),
        Delivery::Trip(_) => unreachable!(),
        Delivery::Multi(_) => unreachable!(),
        Delivery::Events(_) => unreachable!(),
    }
}
