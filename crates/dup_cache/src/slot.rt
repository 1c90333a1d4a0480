ghost use Rattle.std.specs.Prelude.{◌≡◌, ◌≤◌, [], length, IfOk};
ghost use Rattle.kept_defs.specs.Kept.{is_repeat};

use arrayvec::ArrayVec;
use kept_defs::KEPT_SECONDS;
use std::alloc::{AllocError, Global};
use std::boxed::Box;
use std::marker::Model;
use wire_core::replace;

// Room for a request or a reply: 4,096 octets, the most of a packet (RFC 2865, section 3). Its type
// fixes how many there are: nothing can be reserved beside them.
type Room = ArrayVec<u8, 4096>;

// A request and its reply. The two rooms are taken once, and filled anew.
#[derive(Drop)]
pub(crate) struct Slot {
    moment: u64,
    sport: u16,
    request: Box<Room>,
    reply: Box<Room>,
}

impl Model for Slot {
    ghost use Rattle.kept_defs.specs.Kept.{Entry};

    ghost Value = { Entry };

    ghost view = { λ s. record { moment = s.moment; sport = s.sport; request = s.request.value.items; reply = s.reply.value.items } };
}

impl Slot {
    pub(crate) fn open(alloc: Global) -> Result<Slot, AllocError>
        ensures { IfOk result (λ slot. slot ≡ record { moment = 0; sport = 0; request = []; reply = [] }) }
    {
        let request = Box::new(alloc, Room::new())?;
        let reply = Box::new(alloc, Room::new())?;
        Ok(Slot {
            moment: 0,
            sport: 0,
            request,
            reply,
        })
    }

    pub(crate) fn fill(&mut self, sport: u16, request: &[u8], reply: &[u8], now: u64)
        requires request { length request.now ≤ 4096 }
        requires reply { length reply.now ≤ 4096 }
        ensures { self.new ≡ record { moment = now; sport = sport; request = request.now; reply = reply.now } }
    {
        self.moment = now;
        self.sport = sport;
        replace(request, &mut self.request);
        replace(reply, &mut self.reply);
    }

    // The port and the moment decide first, then the lengths, the first four octets, and the others in
    // groups: the authenticator of a request stands in the first of them.
    pub(crate) fn is_repeat(&self, sport: u16, request: &[u8], now: u64) -> bool
        ensures { result ≡ is_repeat sport request.now now self.now }
    {
        self.sport == sport
            && self.moment <= now
            && now - self.moment <= KEPT_SECONDS
            && self.request.as_slice() == request
    }

    pub(crate) fn moment(&self) -> u64
        ensures { result ≡ self.now.moment }
    {
        self.moment
    }

    pub(crate) fn sport(&self) -> u16
        ensures { result ≡ self.now.sport }
    {
        self.sport
    }

    pub(crate) fn request(&self) -> &[u8]
        ensures value { result.now ≡ self.now.request }
        ensures fits { length result.now ≤ 4096 }
    {
        self.request.as_slice()
    }

    pub(crate) fn reply(&self) -> &[u8]
        ensures value { result.now ≡ self.now.reply }
        ensures fits { length result.now ≤ 4096 }
    {
        self.reply.as_slice()
    }
}
