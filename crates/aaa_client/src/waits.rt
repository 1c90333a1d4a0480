//! The requests that wait for an answer.
ghost use Rattle.std.specs.Prelude.{◌↔◌, IsTrue, ◌≡◌, ◌≢◌, ◌+◌, ◌*◌, ◌<◌, ◌≤◌, not, length, filter, find, true, None, IfOk, IfSome, OnErr};
ghost use Rattle.std.specs.List.{AllByRecursion};
ghost use Rattle.aaa_defs.specs.declared.TheConstants.{IDENTIFIERS, NAMES, MOST_WAITING};
ghost use Rattle.aaa_defs.specs.Asking.{new_request};
ghost use Rattle.aaa_defs.specs.Request.{IsAsk};
ghost use Rattle.aaa_defs.specs.Waits.{AreApart, nothing, pending_of, pending_under, name_of, socket_of, identifier_of, is_free, after_last, next_name, with_request, forgotten};
ghost use Rattle.aaa_defs.specs.Age.{aged, aged_at as aged_at_lem, after_second};
ghost use Rattle.aaa_defs.specs.Answer.{answered};
ghost use Rattle.aaa_client.specs.Meaning.{meaning, request_in};
ghost use Rattle.aaa_client.specs.Places.{place, request_of};

use crate::answer::{Taken, checked};
use crate::order::{Entry, Order};
use crate::pending::{Pending, socket_and_id};
use crate::request::Ask;
use aaa_defs::{Aged, IDENTIFIERS, MOST_WAITING, NAMES};
use radius_packet::parse;
use std::alloc::{AllocError, Global};
use std::marker::Model;
use switch_event::{AaaDrop, Config};

/// The requests that wait for an answer, at most 960 at once and one for a session, and the name
/// that was used last. A name is a socket and an identifier.
#[derive(Drop)]
pub struct Waits {
    // A place for each name.
    places: Vec<Pending>,
    // Which places are in use, by their sessions.
    order: Order,
    last: Option<u16>,
}

impl Model for Waits {
    ghost use Rattle.std.specs.Prelude.{map};
    ghost use Rattle.aaa_defs.specs.Waits as waits;

    ghost Value = { waits.Waits };

    ghost use Rattle.aaa_client.specs.Places.{Stands, request_of};

    ghost view = { λ w. record { requests = map (request_of w.places.items) w.order; last = w.last } };

    ghost invariant = { λ w. Stands w.places.items w.order };
}

impl Waits {
    /// Nothing waits, and no name was used. Only this call takes memory: about four megabytes.
    /// `AllocError`: there is none.
    pub fn open(alloc: Global) -> Result<Waits, AllocError>
        ensures { IfOk result (λ w. w ≡ nothing) }
    {
        let mut places = Vec::with_capacity(alloc, NAMES)?;
        for _n in 0..NAMES {
            places.push(Pending::empty())?;
        }
        Ok(Waits {
            places,
            order: Order::new(),
            last: None,
        })
    }

    /// Makes these equal to the others. Nothing is allocated.
    pub fn copy_from(&mut self, other: &Waits)
        ensures { self.new ≡ other.now }
    {
        self.order.clear();
        copy_places(
            self.places.as_mut_slice(),
            other.places.as_slice(),
            other.order.entries(),
        );
        self.order.copy_from(&other.order);
        self.last = other.last;
    }

    /// Builds the Access-Request about a host for a session, which now waits for an answer, and gives
    /// its socket and its identifier: the next name of the round from the last used under which nothing
    /// waits.
    ///
    /// The session must have nothing pending, and fewer than 960 requests may be pending. The octets of
    /// the request are those that `pending` gives.
    pub fn ask(&mut self, a: &Ask<'_>, c: &Config, session: u32, auth: [u8; 16]) -> (u8, u8)
        requires ask { IsAsk a.now }
        requires new { pending_of session self.old ≡ None }
        requires room { length self.old.requests < MOST_WAITING }
        ensures socket { result.0 ≡ socket_of (next_name self.old) }
        ensures identifier { result.1 ≡ identifier_of (next_name self.old) }
        ensures free { is_free self.old (name_of result.0 result.1) ≡ true }
        ensures waits { self.new ≡ with_request (new_request c.now a.now session (next_name self.old) auth) self.old }
    {
        let name = self.next_name();
        self.keep(a, c, session, name, auth);
        socket_and_id(name)
    }

    /// The request of a session. None exactly where it has none.
    pub fn pending(&self, session: u32) -> Option<&Pending>
        ensures found { request_in result ≡ pending_of session self.now }
        ensures apart { AreApart self.now }
    {
        match self.order.find(session) {
            Some(name) => Some(&self.places[usize::from(name)]),
            None => None,
        }
    }

    /// A second passes for a session's request. Resend where it has waited for 5 or 10 seconds; GaveUp
    /// where it has waited for 15, and then it is pending no more; Quiet else, and where there is none.
    pub fn second(&mut self, session: u32) -> Aged
        ensures told { result ≡ aged (pending_of session self.old) }
        ensures waits { self.new ≡ after_second session self.old }
    {
        let Some(name) = self.order.find(session) else {
            return Aged::Quiet;
        };
        let at = usize::from(name);
        match aged_at(self.places[at].age() + 1) {
            Aged::GaveUp => {
                self.order.remove(session);
                Aged::GaveUp
            }
            told => {
                let request = &mut self.places[at];
                request.grow();
                told
            }
        }
    }

    /// Forgets the request of a session, where it has one.
    pub fn forget(&mut self, session: u32)
        ensures { self.new ≡ forgotten session self.old }
    {
        self.order.remove(session);
    }

    /// Takes an answer of the server, which has this secret, that came to a socket. The request that it
    /// answers is then pending no more. Where `require` holds, each answer must have a
    /// Message-Authenticator, and else one with EAP.
    ///
    /// Errors: the first check that fails, in the order of `AaaDrop`. All is as before then.
    pub fn answer<'a>(
        &mut self,
        socket: u8,
        b: &'a [u8],
        secret: &[u8],
        require: bool,
    ) -> Result<Taken<'a>, AaaDrop>
        ensures answered { meaning result ≡ answered self.old socket b.now secret.now require }
        ensures taken { IfOk result (λ t. self.new ≡ forgotten t.session self.old) }
        ensures eap { IfOk result (λ t. IfSome t.eap (λ octets. 4 ≤ length octets.items)) }
        ensures dropped { OnErr result (self.new ≡ self.old) }
    {
        let Ok(packet) = parse(b) else {
            return Err(AaaDrop::Malformed);
        };
        let Some(request) = self.under(socket, packet.id) else {
            return Err(AaaDrop::NoRequest);
        };
        let session = request.session();
        match checked(&packet, request.auth, secret, require) {
            Ok(eap) => {
                self.forget(session);
                Ok(Taken {
                    session,
                    packet,
                    eap,
                })
            }
            Err(dropped) => Err(dropped),
        }
    }

    /// Whether as many requests wait as may wait at once.
    pub fn is_full(&self) -> bool
        ensures { IsTrue result ↔ (MOST_WAITING ≤ length self.now.requests) }
    {
        self.order.entries().len() >= MOST_WAITING
    }

    // The request with the name of this socket and identifier. Only the sockets 0 to 3 have names.
    fn under(&self, socket: u8, id: u8) -> Option<&Pending>
        ensures { request_in result ≡ pending_under (name_of socket id) self.now }
    {
        let name = u16::from(socket) * IDENTIFIERS as u16 + u16::from(id);
        self.named(name)
    }

    // The request with a name.
    fn named(&self, name: u16) -> Option<&Pending>
        ensures { request_in result ≡ pending_under name self.now }
    {
        let at = usize::from(name);
        if at >= self.places.len() {
            return None;
        }
        let request = &self.places[at];
        match self.order.find(request.session()) {
            Some(found) if found == name => Some(request),
            _ => None,
        }
    }

    // The next name of the round under which nothing waits.
    fn next_name(&self) -> u16
        requires { length self.now.requests < MOST_WAITING }
        ensures value { result ≡ next_name self.now }
        ensures free { is_free self.now result ≡ true }
        ensures small { result < NAMES }
    {
        let first = after(self.last);
        for step in 0..NAMES {
            let name = (usize::from(first) + step) % NAMES;
            if self.named(name as u16).is_none() {
                return name as u16;
            }
        }
        unreachable!()
    }

    // Builds a request that is sent now, and keeps it.
    fn keep(&mut self, a: &Ask<'_>, c: &Config, session: u32, name: u16, auth: [u8; 16])
        requires ask { IsAsk a.now }
        requires new { pending_of session self.old ≡ None }
        requires room { length self.old.requests < MOST_WAITING }
        requires free { is_free self.old name ≡ true }
        requires name { name < NAMES }
        ensures { self.new ≡ with_request (new_request c.now a.now session name auth) self.old }
    {
        let request = &mut self.places[usize::from(name)];
        request.build(a, c, session, name, auth);
        self.order.insert(session, name);
        self.last = Some(name);
    }
}

// The name after the last one that was used.
fn after(last: Option<u16>) -> u16
    ensures { result ≡ after_last last }
{
    match last {
        Some(last) => ((usize::from(last) + 1) % NAMES) as u16,
        None => 0,
    }
}

// What a second does to a request that has now waited for so many.
fn aged_at(age: u8) -> Aged
    ensures { result ≡ aged_at_lem age }
{
    match age {
        15 => Aged::GaveUp,
        5 | 10 => Aged::Resend,
        _ => Aged::Quiet,
    }
}

// Copies the requests of these entries, each into its place.
fn copy_places(places: &mut [Pending], from: &[Pending], order: &[Entry])
    requires places { length places.old ≡ NAMES }
    requires from { length from.now ≡ NAMES }
    requires names { AllByRecursion (λ e. e.name < NAMES) order.now }
    ensures length { length places.new ≡ NAMES }
    ensures copied { AllByRecursion (λ e. request_of places.new e ≡ request_of from.now e) order.now }
{
    for entry in order {
        let at = usize::from(entry.name);
        let request = &mut places[at];
        request.copy_from(&from[at]);
    }
}
