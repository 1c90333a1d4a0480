// What one turn sends, as datagrams.
ghost use Rattle.std.specs.Prelude.{◌≡◌, ◌↔◌, ◌<◌, ◌≤◌, List, None, length, slice_index_or, IfErr, IfSome, OnErr, OnOk};
ghost use Rattle.wire_defs.specs.Outside.{HasCause};
ghost use Rattle.switch_event.specs.Config.{Config as Settings};
ghost use Rattle.switch_event.specs.Sent.{Sent as Thing, sent_of};
ghost use Rattle.outside_link.specs.Link.{Grows, Same};
ghost use Rattle.serve_defs.specs.Posted.{Home, all_posted, channel_of as channel_of_lem, posted};
ghost use Rattle.serve_loop.specs.Homes.{AreHomes};
ghost use Rattle.serve_loop.specs.Post.{SendsFirst};

use crate::homes::Homes;
use out_tray::Tray;
use outside_core::Failed;
use outside_link::{Addr, Link};
use std::net::Net;
use switch_event::Sent;

/// Where things go: the RADIUS server, and the hosts of the ports.
#[derive(Clone, Copy)]
pub struct Post<'a> {
    /// The address of the RADIUS server.
    pub server: Addr,
    /// Where the hosts are.
    pub homes: &'a Homes,
}

impl<'a> Post<'a> {
    /// Sends the things of a tray in order: a frame by channel 0 to the home of its port, and nowhere
    /// where none is known; a request to the RADIUS server by channel 1 for socket 0, and by channel
    /// k + 2 for socket k from 1 to 3; a reply by channel 2. After [`Failed`] the first of them were
    /// sent.
    pub fn send_all<R: Net, L: Link>(&self, rt: &R, tray: &Tray, link: &mut L) -> Result<(), Failed>
        ensures ok { (c : Settings) (homes : List Home) → c.server ≡ self.now.server
            → AreHomes self.now.homes.now.table homes
            → OnOk result (Grows (L.sent link.old) (L.sent link.new)
            (all_posted c homes tray.now.items)) }
        ensures err { (c : Settings) (homes : List Home) → c.server ≡ self.now.server
            → AreHomes self.now.homes.now.table homes
            → IfErr result (λ _. SendsFirst (L.sent link.old) (L.sent link.new)
            (all_posted c homes tray.now.items)) }
        ensures waits { Same (L.waits link.old) (L.waits link.new) }
        ensures bound { Same (L.bound link.old) (L.bound link.new) }
        ensures cause { HasCause (L.faults link.old) (L.faults link.new) result }
    {
        for n in 0..tray.len() {
            if let Err(Failed) = self.send_item(rt, tray, n, link) {
                return Err(Failed);
            }
        }
        Ok(())
    }

    // The thing of this number, from 0.
    fn send_item<R: Net, L: Link>(
        &self,
        rt: &R,
        tray: &Tray,
        n: usize,
        link: &mut L,
    ) -> Result<(), Failed>
        requires { n < length tray.now.items }
        ensures ok { (c : Settings) (homes : List Home) (d : Thing) → c.server ≡ self.now.server
            → AreHomes self.now.homes.now.table homes
            → OnOk result (Grows (L.sent link.old) (L.sent link.new)
            (posted c homes (slice_index_or tray.now.items n d))) }
        ensures err { OnErr result (Same (L.sent link.old) (L.sent link.new)) }
        ensures waits { Same (L.waits link.old) (L.waits link.new) }
        ensures bound { Same (L.bound link.old) (L.bound link.new) }
        ensures cause { HasCause (L.faults link.old) (L.faults link.new) result }
    {
        match tray.item(n) {
            Some(sent) => self.send(rt, sent, link),
            None => unreachable!(),
        }
    }

    fn send<R: Net, L: Link>(&self, rt: &R, sent: Sent<'_>, link: &mut L) -> Result<(), Failed>
        ensures ok { (c : Settings) (homes : List Home) → c.server ≡ self.now.server
            → AreHomes self.now.homes.now.table homes
            → OnOk result (Grows (L.sent link.old) (L.sent link.new)
            (posted c homes (sent_of sent.entry))) }
        ensures err { OnErr result (Same (L.sent link.old) (L.sent link.new)) }
        ensures waits { Same (L.waits link.old) (L.waits link.new) }
        ensures bound { Same (L.bound link.old) (L.bound link.new) }
        ensures cause { HasCause (L.faults link.old) (L.faults link.new) result }
    {
        match sent {
            Sent::Frame { port, octets } => match self.homes.of(port) {
                Some(at) => link.send(rt, 0, at, octets),
                None => Ok(()),
            },
            Sent::Radius { socket, octets } => match channel_of(socket) {
                Some(channel) => link.send(rt, channel, self.server, octets),
                None => Ok(()),
            },
            Sent::Reply { to, octets } => link.send(rt, 2, to, octets),
        }
    }
}

// The channel of a socket of the RADIUS client, which has the sockets 0 to 3.
fn channel_of(socket: u8) -> Option<u8>
    ensures none { (result ≡ None) ↔ (4 ≤ socket) }
    ensures some { IfSome result (λ channel. channel ≡ channel_of_lem socket) }
{
    match socket {
        0 => Some(1),
        1..=3 => Some(socket + 2),
        _ => None,
    }
}
