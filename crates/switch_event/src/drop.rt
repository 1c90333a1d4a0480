// Why a frame of a host, an answer of the RADIUS server or a dynamic request is dropped: nothing is
// done then, and nothing is sent. Of several reasons the first in the order of its enum counts.
ghost use Rattle.std.specs.Prelude.{◌≡◌};
ghost use Rattle.switch_event.specs.Drop as defined;

/// Why a frame of a host is dropped.
#[derive(Clone, Copy, Debug, PartialEq, Eq)]
pub enum FrameDrop {
    /// Its destination is neither the group address of port access entities nor the address of its
    /// port (IEEE Std 802.1X-2004, 7.8).
    Elsewhere,
    /// Its source is a group address (IEEE Std 802.3, 3.2.3).
    GroupSource,
    /// The link of its port is down, or no such port is configured.
    Down,
    /// It has fewer than 4 octets of EAPOL (IEEE Std 802.1X-2004, 7.5).
    EapolShort,
    /// Its type is 3, EAPOL-Key (IEEE Std 802.1X-2004, 7.5.4).
    Key,
    /// Its type is above 3 (IEEE Std 802.1X-2004, 7.5.4).
    EapolType,
    /// The body of its EAP-Packet is longer than the octets behind the header (IEEE Std 802.1X-2004,
    /// 7.5).
    BodyShort,
    /// It has fewer than 4 octets of EAP (RFC 3748, section 4).
    EapShort,
    /// The code of its EAP packet is not 1 to 4 (RFC 3748, section 4).
    EapCode,
    /// The length of its EAP packet is above the octets there, below 5 for a Request or a Response, or
    /// not 4 for a Success or a Failure (RFC 3748, sections 4.1 and 4.2).
    EapLength,
    /// Its EAP packet is no Response (RFC 3748, section 4.1).
    NotResponse,
    /// Its port is forced open or shut, and it is no EAPOL-Start (IEEE Std 802.1X-2004, 8.2.4).
    Forced,
    /// It is an EAPOL-Logoff of a host that has no session.
    NoSession,
    /// Its host has no session, and its port has as many as it may have.
    PortFull,
}

/// Why an answer of the RADIUS server is dropped (RFC 2865, section 3; RFC 3579, section 3.2).
#[derive(Clone, Copy, Debug, PartialEq, Eq)]
pub enum AaaDrop {
    /// The octets are no RADIUS packet (RFC 2865, section 3).
    Malformed,
    /// No request is pending under the socket and the identifier (RFC 2865, section 3).
    NoRequest,
    /// The code is not Access-Accept, Access-Reject or Access-Challenge (RFC 2865, section 4).
    BadCode,
    /// The authenticator is not that of an answer to the request (RFC 2865, section 3).
    BadAuthenticator,
    /// The Message-Authenticator is wrong, or there is none beside EAP, or none at all while the
    /// settings require it (RFC 3579, section 3.2).
    BadMessageAuth,
    /// The EAP packet has more than 1,496 octets (RFC 3580, section 3.10).
    Oversize,
    /// The EAP is no Request in a Challenge, or no Success or Failure in an Accept or a Reject (RFC
    /// 3579, section 2.1).
    BadEap,
}

/// Why a dynamic request is dropped without a reply.
#[derive(Clone, Copy, Debug, PartialEq, Eq)]
pub enum DynDrop {
    /// The source address is that of no client (RFC 5176, section 6.1).
    Stranger,
    /// The octets are no RADIUS packet (RFC 2865, section 3).
    Malformed,
    /// The packet has more than 4,000 octets.
    Oversize,
    /// The code is neither 40, Disconnect-Request, nor 43, CoA-Request (RFC 5176, section 2.3).
    BadCode,
    /// The authenticator is not the one that the client's secret gives (RFC 5176, section 2.3).
    BadAuthenticator,
    /// The Message-Authenticator is not the one that the client's secret gives (RFC 5176, section 3.4),
    /// or there is none while the settings require it.
    BadMessageAuth,
    /// The Event-Timestamp differs from the clock by more than the window (RFC 5176, section 6.3).
    Stale,
}

impl FrameDrop {
    /// The number of its line, from 1 to 14, in the order in which a frame is looked at.
    pub fn line(self) -> u8
        ensures { result ≡ defined.frame_line self }
    {
        match self {
            FrameDrop::Elsewhere => 1,
            FrameDrop::GroupSource => 2,
            FrameDrop::Down => 3,
            FrameDrop::EapolShort => 4,
            FrameDrop::Key => 5,
            FrameDrop::EapolType => 6,
            FrameDrop::BodyShort => 7,
            FrameDrop::EapShort => 8,
            FrameDrop::EapCode => 9,
            FrameDrop::EapLength => 10,
            FrameDrop::NotResponse => 11,
            FrameDrop::Forced => 12,
            FrameDrop::NoSession => 13,
            FrameDrop::PortFull => 14,
        }
    }
}

impl AaaDrop {
    /// The number of the check that failed, from 1 to 7, in the order of the checks.
    pub fn line(self) -> u8
        ensures { result ≡ defined.answer_line self }
    {
        match self {
            AaaDrop::Malformed => 1,
            AaaDrop::NoRequest => 2,
            AaaDrop::BadCode => 3,
            AaaDrop::BadAuthenticator => 4,
            AaaDrop::BadMessageAuth => 5,
            AaaDrop::Oversize => 6,
            AaaDrop::BadEap => 7,
        }
    }
}

impl DynDrop {
    /// The number of its line among the nineteen by which a request is judged: 7 is that of a repeat.
    pub fn line(self) -> u8
        ensures { result ≡ defined.request_line self }
    {
        match self {
            DynDrop::Stranger => 1,
            DynDrop::Malformed => 2,
            DynDrop::Oversize => 3,
            DynDrop::BadCode => 4,
            DynDrop::BadAuthenticator => 5,
            DynDrop::BadMessageAuth => 6,
            DynDrop::Stale => 8,
        }
    }
}
