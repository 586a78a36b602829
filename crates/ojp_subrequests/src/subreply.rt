//! One subrequest over links.
ghost use Rattle.std.specs.Prelude.{◌≡◌, ◌<◌, length, OnErr, IfOk, Err, true, false};
ghost use Rattle.ojp_values.specs.Limits.{IsWell, IsWellAsk};
ghost use Rattle.ojp_values.specs.declared.asks.Ask.{Ask as AskValue};
ghost use Rattle.ojp_values.specs.declared.documents.Doc.TheVariants as docs;
ghost use Rattle.ojp_outside.specs.Causes.{Rose};
ghost use Rattle.ojp_links.specs.Seen.{IsLive};
ghost use Rattle.ojp_links.specs.Calls.{Closes, Keeps, MayReject, Rejects};
ghost use Rattle.ojp_subrequests.specs.Subrequests.{AfterLook, HearsTold, IsHeldIn, IsLookedIn, IsRequestOf, IsSafe, IsSpelled, MakesAsk, OnFailed, OnHeard, Polls, expect_of};

use crate::hearing::{Heard, Hearing};
use ojp_encode::write;
use ojp_grammar::laws::requests_are_short;
use ojp_http::laws::{a_request_gives_its_body, an_open_reply};
use ojp_http::request;
use ojp_links::laws::{
    heard_is_given, kind_is_never_hopeless, one_delivery, sure_is_never_hopeless,
};
use ojp_links::{AskRefused, Expect, Links, More, Sub, fits};
use ojp_outside::{MemSink, WriteFault};
use ojp_values::{Ask, Code, Delivery, Doc, List, NoMemory};
use std::alloc::Global;
use std::marker::Model;

/// How a subrequest ended.
#[derive(Debug, Drop)]
pub enum SubEnd {
    /// With a reply that fits.
    Heard(Delivery),
    /// The region's link failed, or its reply did not fit; its count of faults rose.
    Failed,
    /// Memory ran out.
    NoMemory,
}

/// What a poll of a subrequest found.
#[derive(Debug, Drop)]
pub enum SubPoll {
    /// Nothing came.
    Pending,
    /// Bytes came, and more are needed.
    Moved,
    /// The subrequest is over, and its ask is live no more.
    Over(SubEnd),
}

/// Why no subrequest was begun.
#[derive(Clone, Copy, Debug, PartialEq, Eq)]
pub enum BeginRefused {
    /// The region can't be asked; its count of faults rose.
    Failed,
    /// Memory ran out.
    NoMemory,
}

/// The document in memory.
fn spell(alloc: Global, doc: &Doc) -> Result<MemSink, NoMemory>
    requires { IsWell doc.now }
    ensures { IfOk result (λ text. IsSpelled doc.now text.written) }
{
    let mut text = MemSink::new(alloc, Vec::new(alloc));
    match write(doc, &mut text) {
        Ok(()) => Ok(text),
        // A sink in memory that no write is to fail has only want of memory.
        Err(WriteFault) => Err(NoMemory),
    }
}

/// The request to the region with the code whose body is the document.
fn write_request(alloc: Global, code: &Code, doc: &Doc) -> Result<List<u8>, NoMemory>
    requires { IsWell doc.now }
    ensures { IfOk result (IsRequestOf code.now doc.now) }
{
    let Ok(text) = spell(alloc, doc) else {
        return Err(NoMemory);
    };
    request(alloc, code.text(), text.written())
}

/// The ask of its document.
fn into_ask(doc: Doc) -> Ask
    requires { (ask : AskValue) × (doc ≡ docs.Ask ask) }
    ensures { doc ≡ docs.Ask result }
{
    match doc {
        Doc::Ask(ask) => ask,
        Doc::Delivery(_) => unreachable!(),
    }
}

/// What is expected of the reply.
fn expected(code: Code, ask: Ask, expect_region: bool) -> Expect
    ensures { result ≡ expect_of expect_region code ask }
{
    if expect_region {
        Expect::Region { code, ask }
    } else {
        Expect::Kind(ask)
    }
}

/// One subrequest. What its ask gives is fed to the framing of the reply and to the reader of its document,
/// piece by piece; no bytes are kept but those of the item that a piece cut.
#[derive(Drop)]
pub struct Subreply {
    key: usize,
    region: usize,
    expect: Expect,
    hearing: Hearing,
    is_over: bool,
}

impl Model for Subreply {
    ghost use Rattle.std.specs.Coded.{codes};
    ghost use Rattle.ojp_grammar.specs.contracts.shapes.Shape as shapes;
    ghost use Rattle.ojp_subrequests.specs.Views.{SubView};

    ghost Value = { SubView };

    ghost coded = { Prim.hlevel (codes, shapes.the_row.coded) };

    ghost view = { λ s. record { key = s.key; region = s.region; expect = s.expect; heard = s.hearing; over = s.is_over } };
}

impl Subreply {
    /// Asks a region. With `expect_region` the reply must fit the region, else the ask's kind alone.
    ///
    /// # Errors
    ///
    /// `Failed` where the region can't be asked, and `NoMemory`; no ask is live then that was not before.
    pub fn begin<L: Links>(
        alloc: Global,
        links: &mut L,
        region: usize,
        ask: Ask,
        expect_region: bool,
    ) -> Result<Subreply, BeginRefused>
        requires region { region < length (L.seen links.old).fixed.stations }
        requires well { IsWellAsk ask }
        ensures keeps { Keeps (L.seen links.old) (L.seen links.new) }
        ensures rejections { (L.seen links.new).rejections ≡ (L.seen links.old).rejections }
        ensures made { IfOk result (λ s. MakesAsk (L.seen links.old) (L.seen links.new) region ask expect_region s) }
        ensures refused { OnErr result ((L.seen links.new).live ≡ (L.seen links.old).live) }
        ensures failed { result ≡ Err BeginRefused.Failed → Rose ((L.seen links.old).faults region) ((L.seen links.new).faults region) }
    {
        requests_are_short();
        a_request_gives_its_body();
        let code = links.code(region);
        let doc = Doc::Ask(ask);
        let Ok(bytes) = write_request(alloc, &code, &doc) else {
            return Err(BeginRefused::NoMemory);
        };
        let ask = into_ask(doc);
        match links.ask(region, bytes.as_slice()) {
            Ok(sub) => Ok(Subreply {
                key: sub.key,
                region,
                expect: expected(code, ask, expect_region),
                hearing: Hearing::new(alloc),
                is_over: false,
            }),
            Err(AskRefused::Failed) => Err(BeginRefused::Failed),
            Err(AskRefused::NoMemory) => Err(BeginRefused::NoMemory),
        }
    }

    /// Looks at the ask once, and hears what came.
    pub fn poll<L: Links>(&mut self, links: &mut L) -> SubPoll
        requires { IsHeldIn self.old (L.seen links.old) }
        ensures polls { Polls (L.seen links.old) (L.seen links.new) self.old self.new result }
        ensures told { OnHeard result (HearsTold (L.seen links.old) self.old) }
        ensures failed { OnFailed result (Rose ((L.seen links.old).faults self.old.region) ((L.seen links.new).faults self.old.region)) }
        ensures safe { IsSafe (L.seen links.old) self.old self.old.expect → (L.seen links.new).rejections ≡ (L.seen links.old).rejections }
    {
        heard_is_given();
        sure_is_never_hopeless();
        kind_is_never_hopeless();
        let sub = Sub { key: self.key };
        let more = links.more(&sub);
        links.is_sound();
        self.go_on(links, more)
    }

    /// Ends the ask, if it has not ended. It takes no memory.
    pub fn cancel<L: Links>(self, links: &mut L)
        requires { self.over ≡ false → IsLive (L.seen links.old) self.key }
        ensures closed { self.over ≡ false → Closes (L.seen links.old) (L.seen links.new) self.key }
        ensures nothing { self.over ≡ true → L.seen links.new ≡ L.seen links.old }
    {
        if !self.is_over {
            links.close(Sub { key: self.key });
        }
    }

    /// What a look asks for.
    fn go_on<L: Links>(&mut self, links: &mut L, more: More) -> SubPoll
        requires { IsLookedIn self.old (L.seen links.old) more }
        ensures { AfterLook result more (L.seen links.old) (L.seen links.new) self.old self.new }
    {
        an_open_reply();
        match more {
            More::NotYet => SubPoll::Pending,
            More::Got => self.hear(links),
            More::End => self.reject(links),
            More::Failed => self.close(links, SubEnd::Failed),
            More::NoMemory => self.close(links, SubEnd::NoMemory),
        }
    }

    /// Hears the bytes that came.
    fn hear<L: Links>(&mut self, links: &mut L) -> SubPoll
        requires { IsLookedIn self.old (L.seen links.old) More.Got }
        ensures { AfterLook result More.Got (L.seen links.old) (L.seen links.new) self.old self.new }
    {
        one_delivery();
        let sub = Sub { key: self.key };
        match self.hearing.hear(links.bytes(&sub)) {
            Heard::Open => SubPoll::Moved,
            Heard::Whole(delivery) => {
                if !fits(&self.expect, &delivery) {
                    return self.reject(links);
                }
                self.close(links, SubEnd::Heard(delivery))
            }
            Heard::Refused => self.reject(links),
            Heard::NoMemory => self.close(links, SubEnd::NoMemory),
        }
    }

    /// Closes the ask.
    fn close<L: Links>(&mut self, links: &mut L, end: SubEnd) -> SubPoll
        requires { IsLive (L.seen links.old) self.old.key }
        ensures result { result ≡ SubPoll.Over end }
        ensures over { self.new.over ≡ true }
        ensures closes { Closes (L.seen links.old) (L.seen links.new) self.old.key }
    {
        let sub = Sub { key: self.key };
        self.is_over = true;
        links.close(sub);
        SubPoll::Over(end)
    }

    /// Rejects the ask, whose bytes are hopeless.
    fn reject<L: Links>(&mut self, links: &mut L) -> SubPoll
        requires { MayReject (L.seen links.old) self.old.key self.old.expect }
        ensures result { result ≡ SubPoll.Over SubEnd.Failed }
        ensures over { self.new.over ≡ true }
        ensures rejects { Rejects (L.seen links.old) (L.seen links.new) self.old.key }
    {
        let sub = Sub { key: self.key };
        self.is_over = true;
        links.reject(sub, &self.expect);
        SubPoll::Over(SubEnd::Failed)
    }
}
