// A whole run: the settings are read, the channels are bound, the clock is asked, and then it serves.
ghost use Rattle.std.specs.Prelude.{◌≡◌, ◌≤◌, ◌<◌, ◌^◌, OnErr, OnOk};
ghost use Rattle.wire_defs.specs.Outside.{HasCause};
ghost use Rattle.event_record.specs.declared.TheConstants.{MOST_EVENTS};
ghost use Rattle.outside_link.specs.Link.{Same};
ghost use Rattle.serve_loop.specs.Ends.{Ends, HasEndCauses, IsBoundTo, IsPartlyBound};

use crate::ending::{Ending, unsettled};
use crate::run::serve_from;
use authenticator::Authenticator;
use outside_core::{Failed, Sink, Source};
use outside_link::{Clock, Link};
use serve_defs::LAST_MOMENT;
use settings_reader::read_settings;
use std::alloc::Global;
use std::net::Net;

// Binds the channels to these ports, in their order.
fn bind_all<R: Net, L: Link>(rt: &R, ports: &[u16; 6], link: &mut L) -> Result<(), Failed>
    ensures sent { Same (L.sent link.old) (L.sent link.new) }
    ensures waits { Same (L.waits link.old) (L.waits link.new) }
    ensures ok { OnOk result (IsBoundTo (L.bound link.old) (L.bound link.new) ports.now) }
    ensures err { OnErr result (IsPartlyBound (L.bound link.old) (L.bound link.new) ports.now) }
    ensures cause { HasCause (L.faults link.old) (L.faults link.new) result }
{
    'channels: for channel in 0..6 {
        link.bind(rt, channel, ports[usize::from(channel)])?;
    }
    Ok(())
}

/// A whole run of a server, with this authenticator. It reads its settings from a source, of which
/// at most `limit` octets count, up to the line that ends them. Then it binds the channels of a link
/// to six ports of UDP: channel 0 is that of the frames, channel 2 that of dynamic requests, and the
/// others are those of the RADIUS client's sockets 0 to 3, in order. It asks the clock, which gives
/// the settings their clock, writes the settings, takes the links of its ports as they come up, and
/// then takes so many turns: each asks the clock and then every channel. The log has room for so
/// many control records.
///
/// Each record is written, its line and then its block as comment lines, before anything of it is
/// sent and before the next datagram is asked for. So the log is a trace, and a run of it writes the
/// blocks that the log shows.
pub fn serve_within<A: Authenticator + Drop, R: Net, S: Source, K: Sink, L: Link, C: Clock>(
    rt: &R,
    alloc: Global,
    ports: &[u16; 6],
    turns: u32,
    limit: usize,
    room: u64,
    source: &mut S,
    out: &mut K,
    link: &mut L,
    clock: &mut C,
) -> Ending
    requires limit { limit < 2 ^ 62 }
    requires room { room ≤ MOST_EVENTS }
    ensures ends { Ends limit room turns ports.now
        (record {
          left = S.left source.old;
          taken = K.taken out.old;
          waits = L.waits link.old;
          sent = L.sent link.old;
          bound = L.bound link.old;
          moments = C.moments clock.old;
        })
        (record {
          left = S.left source.new;
          taken = K.taken out.new;
          waits = L.waits link.new;
          sent = L.sent link.new;
          bound = L.bound link.new;
          moments = C.moments clock.new;
        })
        result }
    ensures cause { HasEndCauses (S.faults source.old) (S.faults source.new) (K.faults out.old)
        (K.faults out.new) (L.faults link.old) (L.faults link.new) result }
{
    let mut config = match read_settings(alloc, limit, source) {
        Ok(config) => config,
        Err(e) => return unsettled(e),
    };
    if let Err(Failed) = bind_all(rt, ports, link) {
        return Ending::LinkFault;
    }
    config.clock = clock.now().min(LAST_MOMENT);
    serve_from::<A, _, _, _, _>(rt, alloc, turns, room, config, out, link, clock)
}
