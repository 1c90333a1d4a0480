// The record of a datagram.
ghost use Rattle.std.specs.Prelude.{◌≡◌, ◌<◌, ◌≤◌, length, true, IfSome};
ghost use Rattle.switch_event.specs.Config.{Config as Settings, are_ports, has_port};
ghost use Rattle.trace_defs.specs.Records.{IsRecord};
ghost use Rattle.serve_defs.specs.declared.TheConstants.{MOST_FRAME, MOST_TAKEN};
ghost use Rattle.serve_defs.specs.Served as served;
ghost use Rattle.serve_loop.specs.Arrived.{arrivals_in, entry_of};

use eth_frame::is_control;
use outside_link::Addr;
use serve_defs::{END_OF_RUN, MOST_FRAME, MOST_TAKEN};
use switch_event::{Config, Event};

/// A record that came: an event of the switch, or a data frame on a port.
#[derive(Clone, Copy)]
pub enum Entry<'a> {
    /// An event, on the one lane that a server has.
    Event(Event<'a>),
    /// A frame that is no EAPOL frame.
    Data { port: u8, octets: &'a [u8] },
}

/// A record that came, and for a frame the sender of its datagram.
#[derive(Clone, Copy)]
pub struct Arrived<'a> {
    pub entry: Entry<'a>,
    pub from: Option<Addr>,
}

/// Whether a datagram ends the run: the octet FF alone on channel 0.
pub fn ends_run(channel: u8, octets: &[u8]) -> bool
    ensures { result ≡ served.ends_run channel octets.now }
{
    channel == 0 && octets == [END_OF_RUN].as_slice()
}

/// The record of a datagram that came from an address on a channel, 0 to 5. None where it is skipped:
/// it is empty or has more than 5,000 octets; on channel 0 its first octet, the port, is not
/// configured, or the frame behind it has more than 2,000 octets; on channels 1 and 3 to 5 it is not
/// from the RADIUS server.
pub fn read_datagram<'a>(
    config: &Config,
    channel: u8,
    from: Addr,
    octets: &'a [u8],
) -> Option<Arrived<'a>>
    requires channel { channel < 6 }
    requires ports { are_ports config.now.ports ≡ true }
    ensures came { arrivals_in result ≡ served.arrivals_of config.now channel
        (record { from = from; octets = octets.now }) }
    ensures may { IfSome result (λ a. IsRecord config.now (entry_of a.entry)) }
{
    if octets.len() > MOST_TAKEN {
        return None;
    }
    match channel {
        0 => frame(config, from, octets),
        1 => answer(config, 0, from, octets),
        2 => request(from, octets),
        _ => answer(config, channel - 2, from, octets),
    }
}

// The port, and behind it a frame.
fn frame<'a>(config: &Config, from: Addr, octets: &'a [u8]) -> Option<Arrived<'a>>
    requires ports { are_ports config.now.ports ≡ true }
    ensures came { arrivals_in result ≡ served.frame_arrival config.now from octets.now }
    ensures may { IfSome result (λ a. IsRecord config.now (entry_of a.entry)) }
{
    match octets {
        [] => None,
        [port, octets @ ..] => {
            if octets.len() > MOST_FRAME || !config.has_port(*port) {
                return None;
            }
            Some(Arrived {
                entry: frame_entry(*port, octets),
                from: Some(from),
            })
        }
    }
}

fn frame_entry<'a>(port: u8, octets: &'a [u8]) -> Entry<'a>
    requires short { length octets.now ≤ MOST_FRAME }
    ensures entry { entry_of result ≡ served.frame_entry port octets.now }
    ensures may { (c : Settings) → are_ports c.ports ≡ true → has_port port c ≡ true
        → IsRecord c (entry_of result) }
{
    if is_control(octets) {
        Entry::Event(Event::Frame { port, octets })
    } else {
        Entry::Data { port, octets }
    }
}

// An answer of the RADIUS server.
fn answer<'a>(config: &Config, socket: u8, from: Addr, octets: &'a [u8]) -> Option<Arrived<'a>>
    requires socket { socket ≤ 4 }
    requires short { length octets.now ≤ MOST_TAKEN }
    ensures came { arrivals_in result ≡ served.answer_arrival config.now socket
        (record { from = from; octets = octets.now }) }
    ensures may { IfSome result (λ a. IsRecord config.now (entry_of a.entry)) }
{
    if octets.is_empty() || !is_from(from, config.server) {
        return None;
    }
    Some(Arrived {
        entry: Entry::Event(Event::Radius { socket, octets }),
        from: None,
    })
}

fn is_from(a: Addr, b: Addr) -> bool
    ensures { result ≡ served.is_from a b }
{
    a.ip[..] == b.ip[..] && a.port == b.port
}

// A dynamic request.
fn request<'a>(from: Addr, octets: &'a [u8]) -> Option<Arrived<'a>>
    requires short { length octets.now ≤ MOST_TAKEN }
    ensures came { arrivals_in result ≡ served.request_arrival
        (record { from = from; octets = octets.now }) }
    ensures may { (c : Settings) → IfSome result (λ a. IsRecord c (entry_of a.entry)) }
{
    if octets.is_empty() {
        return None;
    }
    Some(Arrived {
        entry: Entry::Event(Event::Dynamic { from, octets }),
        from: None,
    })
}
