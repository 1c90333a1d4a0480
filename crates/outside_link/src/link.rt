ghost use Rattle.std.specs.Prelude.{List, ℕ, Option};
ghost use Rattle.wire_defs.specs.Outside.{HasCause};
ghost use Rattle.outside_link.specs.Link.{Binds, Incoming, NeedsBound, NeedsChannel, Outgoing, Ports, Receives, ReceivesAtMost, Same, Sends};

use outside_core::Failed;
use std::net::Net;
use wire_core::Addr;

/// How many channels a link has; their numbers start at 0.
pub const CHANNELS: usize = 6;

/// Where datagrams come from and go, by channels.
pub trait Link {
    /// The datagrams that were sent, where the link tells them.
    ghost sent: { Self → Option (List Outgoing) };

    /// The datagrams that wait on each channel, where it tells them.
    ghost waits: { Self → Option (List (List Incoming)) };

    /// The port that each channel is bound to, where it tells that.
    ghost bound: { Self → Option Ports };

    /// How often it has failed. The count stays at 18,446,744,073,709,551,615.
    ghost faults: { Self → ℕ };

    /// Binds a channel to a port of UDP. It may be bound once more. After [`Failed`], which comes
    /// only where the count of faults rose, and always on a channel that the link does not have,
    /// what is bound is as before.
    fn bind<R: Net>(&mut self, rt: &R, channel: u8, port: u16) -> Result<(), Failed>
        ensures sent { Same (sent self.old) (sent self.new) }
        ensures waits { Same (waits self.old) (waits self.new) }
        ensures bound { Binds (bound self.old) (bound self.new) channel port result }
        ensures absent { NeedsChannel (bound self.old) channel result }
        ensures cause { HasCause (faults self.old) (faults self.new) result };

    /// Sends a datagram. After [`Failed`], which comes only where the count of faults rose, and
    /// always on a channel that is not bound, nothing more was sent.
    fn send<R: Net>(&mut self, rt: &R, channel: u8, to: Addr, piece: &[u8]) -> Result<(), Failed>
        ensures sent { Sends (sent self.old) (sent self.new) channel to piece.now result }
        ensures waits { Same (waits self.old) (waits self.new) }
        ensures bound { Same (bound self.old) (bound self.new) }
        ensures unbound { NeedsBound (bound self.old) channel result }
        ensures cause { HasCause (faults self.old) (faults self.new) result };

    /// Takes the first datagram that waits on a channel: its sender, and how many of its octets
    /// were moved into `buf`, which is as many as fit. It answers None exactly where none waits. It
    /// may wait a while for one. After [`Failed`], which comes only where the count of faults rose,
    /// and always on a channel that is not bound, none was taken.
    fn recv<R: Net>(
        &mut self,
        rt: &R,
        channel: u8,
        buf: &mut [u8],
    ) -> Result<Option<(Addr, usize)>, Failed>
        ensures most { ReceivesAtMost result buf.new }
        ensures sent { Same (sent self.old) (sent self.new) }
        ensures waits { Receives (waits self.old) (waits self.new) channel result buf.new }
        ensures bound { Same (bound self.old) (bound self.new) }
        ensures unbound { NeedsBound (bound self.old) channel result }
        ensures cause { HasCause (faults self.old) (faults self.new) result };
}
