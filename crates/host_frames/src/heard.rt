ghost use Rattle.std.specs.Prelude.{◌≡◌, ◌≤◌, ◌||◌, not, true, length, Some, IfOk};
ghost use Rattle.std.specs.Str.{bytes_eq};
ghost use Rattle.wire_defs.specs.Ethernet.{is_control, pae_group, is_group as is_group_lem};
ghost use Rattle.wire_defs.specs.Eapol.{eapol_of};
ghost use Rattle.wire_defs.specs.Eap.{eap_of};
ghost use Rattle.switch_defs.specs.Switch.{Port, State, own_address};
ghost use Rattle.switch_defs.specs.Turn.{frame_case, eapol_case, eap_case, eapol_reason as eapol_reason_lem, eap_reason as eap_reason_lem};
ghost use Rattle.host_frames.specs.Heard.{case_of, IsShort};

use switch_event::FrameDrop;
use wire_core::Mac;
use wire_defs::{EapDrop, EapolDrop, Kind, PAE_GROUP};

// The code of a Response (RFC 3748, 4.1).
const RESPONSE: u8 = 2;

/// What a host says (IEEE Std 802.1X-2004, 7.5.4).
#[derive(Clone, Copy, Debug, PartialEq, Eq)]
pub enum Said<'a> {
    /// EAPOL-Start: it wants to begin.
    Start,
    /// EAPOL-Logoff: it wants to end.
    Logoff,
    /// An EAP Response, of at most 1,500 octets, without the padding behind it.
    Packet(&'a [u8]),
}

/// A frame of a host.
#[derive(Clone, Copy, Debug, PartialEq, Eq)]
pub struct Heard<'a> {
    /// The address of the host.
    pub from: Mac,
    /// What it says.
    pub said: Said<'a>,
}

/// Reads a frame of EAPOL that came in on a port of this address, whose link is up or not.
///
/// Errors: the first reason of [`FrameDrop`] that applies, from `Elsewhere` to `NotResponse`.
pub fn read<'a>(own: Mac, up: bool, octets: &'a [u8]) -> Result<Heard<'a>, FrameDrop>
    requires { is_control octets.now ≡ true }
    ensures case { (s : State) (q : Port) → own_address s q.conf.port ≡ own.0 → q.link ≡ up →
        frame_case s octets.now (Some q) ≡ case_of s q result }
    ensures short { IfOk result (λ h. IsShort h.said) }
{
    let Ok(frame) = eth_frame::parse(octets) else {
        unreachable!()
    };
    if is_elsewhere(own, frame.to) {
        return Err(FrameDrop::Elsewhere);
    }
    if is_group(frame.from) {
        return Err(FrameDrop::GroupSource);
    }
    if !up {
        return Err(FrameDrop::Down);
    }
    read_eapol(frame.from, frame.body)
}

// Whether a frame to an address is for others than this port.
fn is_elsewhere(own: Mac, to: Mac) -> bool
    ensures { result ≡ not (bytes_eq to.0 pae_group || bytes_eq to.0 own.0) }
{
    to != Mac(PAE_GROUP) && to != own
}

// The lowest bit of the first octet is set (IEEE Std 802.3, 3.2.3).
fn is_group(address: Mac) -> bool
    ensures { result ≡ is_group_lem address.0 }
{
    address.0[0] % 2 == 1
}

// Reads the body of a frame.
fn read_eapol<'a>(from: Mac, body: &'a [u8]) -> Result<Heard<'a>, FrameDrop>
    requires { length body.now ≤ 1504 }
    ensures case { (s : State) (q : Port) →
        eapol_case s q from.0 (eapol_of body.now) ≡ case_of s q result }
    ensures short { IfOk result (λ h. IsShort h.said) }
{
    match eapol_frame::parse(body) {
        Err(drop) => Err(eapol_reason(drop)),
        Ok(eapol) => match eapol.kind {
            Kind::Start => Ok(Heard {
                from,
                said: Said::Start,
            }),
            Kind::Logoff => Ok(Heard {
                from,
                said: Said::Logoff,
            }),
            Kind::EapPacket => read_eap(from, eapol.body),
        },
    }
}

// Reads the body of an EAPOL packet that carries an EAP packet.
fn read_eap<'a>(from: Mac, body: &'a [u8]) -> Result<Heard<'a>, FrameDrop>
    requires { length body.now ≤ 1500 }
    ensures case { (s : State) (q : Port) →
        eap_case s q from.0 (eap_of body.now) ≡ case_of s q result }
    ensures short { IfOk result (λ h. IsShort h.said) }
{
    match eap_packet::parse(body) {
        Err(drop) => Err(eap_reason(drop)),
        Ok(eap) if eap.code == RESPONSE => Ok(Heard {
            from,
            said: Said::Packet(eap.whole),
        }),
        Ok(_other) => Err(FrameDrop::NotResponse),
    }
}

fn eapol_reason(drop: EapolDrop) -> FrameDrop
    ensures { result ≡ eapol_reason_lem drop }
{
    match drop {
        EapolDrop::Short => FrameDrop::EapolShort,
        EapolDrop::Key => FrameDrop::Key,
        EapolDrop::UnknownType => FrameDrop::EapolType,
        EapolDrop::BodyShort => FrameDrop::BodyShort,
    }
}

fn eap_reason(drop: EapDrop) -> FrameDrop
    ensures { result ≡ eap_reason_lem drop }
{
    match drop {
        EapDrop::Short => FrameDrop::EapShort,
        EapDrop::BadCode => FrameDrop::EapCode,
        EapDrop::BadLength => FrameDrop::EapLength,
    }
}
