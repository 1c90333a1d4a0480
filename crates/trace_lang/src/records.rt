// The records of a trace.
ghost use Rattle.std.specs.Prelude.{◌≡◌, IfOk, true, Ok};
ghost use Rattle.wire_defs.specs.Text.{words};
ghost use Rattle.switch_event.specs.Event.Happening.{Second};
ghost use Rattle.trace_defs.specs.Line as defined;
ghost use Rattle.trace_defs.specs.Line.Line.{Sync as IsSync};
ghost use Rattle.trace_defs.specs.declared.line.Line.TheVariants.{Control};
ghost use Rattle.event_record.specs.Record.{event_of};
ghost use Rattle.trace_lang.specs.Meaning.{Means, IsInPlace};

use crate::line::LineErr;
use crate::values::{
    control_choice, hex_octets, ip_of, link_choice, port_of, socket_of, udp_port_of,
};
use crate::words::{first_word, socket_words, three_words, two_words};
use eth_frame::is_control;
use std::alloc::Global;
use switch_event::Config;
use trace_defs::{
    COUNT, LANED, Line, MOST_DATAGRAM_OCTETS, MOST_FRAME_OCTETS, NAME, NUMBER, PORT, Record,
    RecordWord,
};
use wire_core::Addr;

/// A record by its first word and the text behind it.
pub fn read_record(
    alloc: Global,
    c: &Config,
    lane: Option<u8>,
    word: RecordWord,
    rest: &[u8],
) -> Result<Line, LineErr>
    ensures means { Means (defined.record_line c.now lane word (words rest.now)) result }
    ensures place { IfOk result (IsInPlace true) }
{
    match word {
        RecordWord::Frame => read_frame(alloc, c, lane, rest),
        RecordWord::Radius => read_radius(alloc, lane, rest),
        RecordWord::Dyn => read_dyn(alloc, lane, rest),
        RecordWord::Tick => read_tick(lane, rest),
        RecordWord::Link => read_link(c, lane, rest),
        RecordWord::Control => read_control(c, lane, rest),
    }
}

/// `sync`
pub fn read_sync(rest: &[u8]) -> Result<Line, LineErr>
    ensures means { Means (defined.alone (Ok IsSync) (words rest.now)) result }
    ensures place { IfOk result (IsInPlace true) }
{
    if first_word(rest).is_some() {
        return Err(LineErr::Bad { why: COUNT });
    }
    Ok(Line::Sync)
}

// `frame PORT OCTETS`: a frame of the type of EAPOL is a control event, any other is data
fn read_frame(alloc: Global, c: &Config, lane: Option<u8>, rest: &[u8]) -> Result<Line, LineErr>
    ensures means { Means (defined.frame_line c.now lane (words rest.now)) result }
    ensures place { IfOk result (IsInPlace true) }
{
    let (port, text) = two_words(rest).ok_or(LineErr::Bad { why: COUNT })?;
    let port = port_of(port).ok_or(LineErr::Bad { why: NUMBER })?;
    let octets = hex_octets(alloc, text, MOST_FRAME_OCTETS)?;
    if !c.has_port(port) {
        return Err(LineErr::Bad { why: PORT });
    }
    if is_control(octets.as_slice()) {
        return Ok(event_line(lane, Record::Frame { port, octets }));
    }
    match lane {
        Some(_) => Err(LineErr::Bad { why: LANED }),
        None => Ok(Line::Data { port, octets }),
    }
}

// `radius OCTETS` for socket 0, and `radius SOCKET OCTETS`
fn read_radius(alloc: Global, lane: Option<u8>, rest: &[u8]) -> Result<Line, LineErr>
    ensures means { Means (defined.radius_line lane (words rest.now)) result }
    ensures place { IfOk result (IsInPlace true) }
{
    let (socket, text) = socket_words(rest).ok_or(LineErr::Bad { why: COUNT })?;
    let socket = socket_of(socket).ok_or(LineErr::Bad { why: NUMBER })?;
    let octets = hex_octets(alloc, text, MOST_DATAGRAM_OCTETS)?;
    Ok(event_line(lane, Record::Radius { socket, octets }))
}

// `dyn IP PORT OCTETS`
fn read_dyn(alloc: Global, lane: Option<u8>, rest: &[u8]) -> Result<Line, LineErr>
    ensures means { Means (defined.dyn_line lane (words rest.now)) result }
    ensures place { IfOk result (IsInPlace true) }
{
    let (ip, port, text) = three_words(rest).ok_or(LineErr::Bad { why: COUNT })?;
    let ip = ip_of(ip).ok_or(LineErr::Bad { why: NUMBER })?;
    let port = udp_port_of(port, 0).ok_or(LineErr::Bad { why: NUMBER })?;
    let octets = hex_octets(alloc, text, MOST_DATAGRAM_OCTETS)?;
    let from = Addr { ip, port };
    Ok(event_line(lane, Record::Dynamic { from, octets }))
}

// `tick`
fn read_tick(lane: Option<u8>, rest: &[u8]) -> Result<Line, LineErr>
    ensures means { Means (defined.alone (defined.event_line lane Second) (words rest.now)) result }
    ensures place { IfOk result (IsInPlace true) }
{
    if first_word(rest).is_some() {
        return Err(LineErr::Bad { why: COUNT });
    }
    Ok(event_line(lane, Record::Second))
}

// `link PORT up` and `link PORT down`
fn read_link(c: &Config, lane: Option<u8>, rest: &[u8]) -> Result<Line, LineErr>
    ensures means { Means (defined.link_line c.now lane (words rest.now)) result }
    ensures place { IfOk result (IsInPlace true) }
{
    let (port, state) = two_words(rest).ok_or(LineErr::Bad { why: COUNT })?;
    let port = port_of(port).ok_or(LineErr::Bad { why: NUMBER })?;
    let up = link_choice(state).ok_or(LineErr::Bad { why: NAME })?;
    port_event(c, lane, port, Record::Link { port, up })
}

// `control PORT CONTROL`
fn read_control(c: &Config, lane: Option<u8>, rest: &[u8]) -> Result<Line, LineErr>
    ensures means { Means (defined.control_line c.now lane (words rest.now)) result }
    ensures place { IfOk result (IsInPlace true) }
{
    let (port, control) = two_words(rest).ok_or(LineErr::Bad { why: COUNT })?;
    let port = port_of(port).ok_or(LineErr::Bad { why: NUMBER })?;
    let control = control_choice(control).ok_or(LineErr::Bad { why: NAME })?;
    port_event(c, lane, port, Record::SetControl { port, control })
}

fn port_event(c: &Config, lane: Option<u8>, port: u8, event: Record) -> Result<Line, LineErr>
    ensures means { Means (defined.port_event c.now lane port (event_of event)) result }
    ensures place { IfOk result (IsInPlace true) }
{
    if !c.has_port(port) {
        return Err(LineErr::Bad { why: PORT });
    }
    Ok(event_line(lane, event))
}

// A control event in its lane, or in lane 1.
fn event_line(lane: Option<u8>, event: Record) -> Line
    ensures { result ≡ Control (defined.in_lane lane) event }
{
    Line::Control {
        lane: lane.unwrap_or(1),
        what: event,
    }
}
