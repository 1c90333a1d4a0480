// Datagrams over the sockets of the host.
ghost use Rattle.std.specs.Prelude.{◌≡◌, ◌≤◌, List, None, Some, replicate};
ghost use Rattle.wire_defs.specs.Outside.{HasCause, risen};
ghost use Rattle.outside_core.specs.Counts.{count_after};
ghost use Rattle.outside_link.specs.Link.{Binds, Incoming, NeedsBound, NeedsChannel, Outgoing, Receives, ReceivesAtMost, Same, Sends};

use crate::{CHANNELS, Link};
use outside_core::Failed;
use std::io;
use std::io::ErrorKind;
use std::marker::Model;
use std::net::{IpAddr, Ipv4Addr, Net, SocketAddr, UdpSocket};
use std::time::Duration;
use wire_core::Addr;

// How many milliseconds a receive waits where no other channel had a datagram since it was last
// asked.
const PAUSE: u64 = 2;

/// Six sockets of UDP on 127.0.0.1. It tells the ports that its channels are bound to, and nothing of
/// what they bring and take.
///
/// A receive does not wait, with one exception: where the five receives before it, one for each of
/// the other channels, had nothing, it waits for about two milliseconds. So a server that asks the
/// channels in turn sleeps while nothing comes.
#[derive(Drop)]
pub struct UdpLink {
    /// Each with the port that it was bound to.
    sockets: [Option<(u16, UdpSocket)>; 6],
    /// How many receives in a row had nothing, since the last that waited.
    idle: usize,
    faults: u64,
}

impl Model for UdpLink {
    ghost use Rattle.std.specs.Prelude.{map, length, ◌≡◌};
    ghost use Rattle.outside_link.specs.Sockets.{Sockets, port_of};

    ghost Value = { Sockets };

    ghost view = { λ s. record { bound = map port_of s.sockets; faults = s.faults } };

    ghost invariant = { λ s. length s.sockets ≡ 6 };
}

impl UdpLink {
    /// A link none of whose channels is bound.
    pub fn new() -> Self
        ensures { result ≡ record { bound = replicate 6 None; faults = 0 } }
    {
        UdpLink {
            sockets: [None, None, None, None, None, None],
            idle: 0,
            faults: 0,
        }
    }

    fn fault(&mut self) -> Failed
        ensures value { self.new ≡ record self.old { faults = risen self.old.faults } }
        ensures later { self.old.faults ≤ self.new.faults }
    {
        self.faults = self.faults.saturating_add(1);
        Failed
    }
}

impl Link for UdpLink {
    ghost sent = { λ _. None };

    ghost waits = { λ _. None };

    ghost bound = { λ s. Some s.bound };

    ghost faults = { λ s. s.faults };

    fn bind<R: Net>(&mut self, rt: &R, channel: u8, port: u16) -> Result<(), Failed>
        ensures sent { Same {A = List Outgoing} None None }
        ensures waits { Same {A = List (List Incoming)} None None }
        ensures bound { Binds (Some self.old.bound) (Some self.new.bound) channel port result }
        ensures absent { NeedsChannel (Some self.old.bound) channel result }
        ensures count { self.new.faults ≡ count_after result self.old.faults }
        ensures cause { HasCause self.old.faults self.new.faults result }
    {
        let at = usize::from(channel);
        if at >= CHANNELS {
            return Err(self.fault());
        }
        match open(rt, port) {
            Ok(socket) => {
                self.sockets[at] = Some((port, socket));
                Ok(())
            }
            Err(_) => Err(self.fault()),
        }
    }

    fn send<R: Net>(&mut self, _rt: &R, channel: u8, to: Addr, piece: &[u8]) -> Result<(), Failed>
        ensures sent { Sends None None channel to piece.now result }
        ensures waits { Same {A = List (List Incoming)} None None }
        ensures bound { Same (Some self.old.bound) (Some self.new.bound) }
        ensures unbound { NeedsBound (Some self.old.bound) channel result }
        ensures count { self.new.faults ≡ count_after result self.old.faults }
        ensures cause { HasCause self.old.faults self.new.faults result }
    {
        match self.sockets.get(usize::from(channel)) {
            Some(Some((_, socket))) if send_whole(socket, to, piece) => Ok(()),
            _ => Err(self.fault()),
        }
    }

    fn recv<R: Net>(
        &mut self,
        _rt: &R,
        channel: u8,
        buf: &mut [u8],
    ) -> Result<Option<(Addr, usize)>, Failed>
        ensures most { ReceivesAtMost result buf.new }
        ensures sent { Same {A = List Outgoing} None None }
        ensures waits { Receives None None channel result buf.new }
        ensures bound { Same (Some self.old.bound) (Some self.new.bound) }
        ensures unbound { NeedsBound (Some self.old.bound) channel result }
        ensures count { self.new.faults ≡ count_after result self.old.faults }
        ensures cause { HasCause self.old.faults self.new.faults result }
    {
        let waits = self.idle >= CHANNELS - 1;
        let received = match self.sockets.get(usize::from(channel)) {
            Some(Some((_, socket))) => receive(socket, waits, buf),
            _ => Err(Failed),
        };
        match received {
            Ok(None) => {
                self.idle = if waits { 0 } else { self.idle + 1 };
                Ok(None)
            }
            Ok(Some(found)) => {
                self.idle = 0;
                Ok(Some(found))
            }
            Err(Failed) => Err(self.fault()),
        }
    }
}

fn open<R: Net>(rt: &R, port: u16) -> io::Result<UdpSocket> {
    let at = SocketAddr::new(IpAddr::V4(Ipv4Addr::LOCALHOST), port);
    let socket = UdpSocket::bind(rt, at)?;
    socket.set_read_timeout(Some(Duration::from_millis(PAUSE)))?;
    socket.set_nonblocking(true)?;
    Ok(socket)
}

fn send_whole(socket: &UdpSocket, to: Addr, piece: &[u8]) -> bool {
    let to = SocketAddr::new(IpAddr::V4(Ipv4Addr::from_octets(to.ip)), to.port);
    match socket.send_to(piece, to) {
        Ok(count) => count == piece.len(),
        Err(_) => false,
    }
}

// A datagram that is there; where none is and it may wait, one that comes within the pause.
fn receive(socket: &UdpSocket, waits: bool, buf: &mut [u8]) -> Result<Option<(Addr, usize)>, Failed>
    ensures { ReceivesAtMost result buf.new }
{
    if waits && socket.set_nonblocking(false).is_err() {
        return Err(Failed);
    }
    let got = socket.recv_from(buf);
    if waits && socket.set_nonblocking(true).is_err() {
        return Err(Failed);
    }
    match got {
        Ok((count, SocketAddr::V4(from))) => Ok(Some((
            Addr {
                ip: from.ip().octets(),
                port: from.port(),
            },
            count,
        ))),
        Ok((_, SocketAddr::V6(_))) => Err(Failed),
        Err(e) => match e.kind() {
            ErrorKind::WouldBlock | ErrorKind::TimedOut | ErrorKind::Interrupted => Ok(None),
            _ => Err(Failed),
        },
    }
}
