// The names that are printed for choices, outcomes and decisions.
ghost use Rattle.std.specs.Prelude.{◌≡◌, ◌++◌};
ghost use Rattle.trace_defs.specs.Output as output;
ghost use Rattle.trace_defs.specs.Text as defined;
ghost use Rattle.trace_print.specs.Pieces.{piece_text};

use crate::piece::Piece;
use switch_event::{AaaDrop, Control, Drop9, DynDrop, FrameDrop, Outcome};
use trace_defs::OtherVlan;

/// The control of a port.
pub fn control_text(control: Control) -> &'static [u8]
    ensures { result.now ≡ defined.control_text control }
{
    match control {
        Control::Auto => b"auto",
        Control::ForceAuth => b"force-auth",
        Control::ForceUnauth => b"force-unauth",
    }
}

/// The state of a link.
pub fn link_text(up: bool) -> &'static [u8]
    ensures { result.now ≡ defined.link_text up }
{
    if up { b"up" } else { b"down" }
}

/// Whether something is switched on.
pub fn switch_text(on: bool) -> &'static [u8]
    ensures { result.now ≡ defined.switch_text on }
{
    if on { b"on" } else { b"off" }
}

/// The word of a VLAN of a port.
pub fn other_vlan_word(other: OtherVlan) -> &'static [u8]
    ensures { result.now ≡ defined.other_vlan_word other }
{
    match other {
        OtherVlan::Restricted => b"restricted",
        OtherVlan::Guest => b"guest",
    }
}

/// An outcome: a word, and what follows it.
pub fn outcome_pieces(o: &Outcome) -> (&'static [u8], Piece<'static>)
    ensures { output.outcome_text o.now ≡ result.0.now ++ piece_text result.1 }
{
    match o {
        Outcome::Done => (b"ok", Piece::Text(b"")),
        Outcome::FrameDropped(why) => (b"drop ", Piece::Text(frame_drop(*why))),
        Outcome::AnswerDropped(why) => (b"drop ", Piece::Text(answer_drop(*why))),
        Outcome::Acked => (b"ack", Piece::Text(b"")),
        Outcome::Naked(cause) => (b"nak ", Piece::Number(u64::from(*cause))),
        Outcome::Again => (b"again", Piece::Text(b"")),
        Outcome::RequestDropped(why) => (b"drop ", Piece::Text(request_drop(*why))),
    }
}

// Why a frame of a host is dropped.
fn frame_drop(why: FrameDrop) -> &'static [u8]
    ensures { result.now ≡ output.frame_drop why }
{
    match why {
        FrameDrop::Elsewhere => b"elsewhere",
        FrameDrop::GroupSource => b"group-source",
        FrameDrop::Down => b"down",
        FrameDrop::EapolShort => b"eapol-short",
        FrameDrop::Key => b"key",
        FrameDrop::EapolType => b"eapol-type",
        FrameDrop::BodyShort => b"body-short",
        FrameDrop::EapShort => b"eap-short",
        FrameDrop::EapCode => b"eap-code",
        FrameDrop::EapLength => b"eap-length",
        FrameDrop::NotResponse => b"not-response",
        FrameDrop::Forced => b"forced",
        FrameDrop::NoSession => b"no-session",
        FrameDrop::PortFull => b"port-full",
    }
}

// Why an answer of the RADIUS server is dropped.
fn answer_drop(why: AaaDrop) -> &'static [u8]
    ensures { result.now ≡ output.answer_drop why }
{
    match why {
        AaaDrop::Malformed => b"malformed",
        AaaDrop::NoRequest => b"no-request",
        AaaDrop::BadCode => b"bad-code",
        AaaDrop::BadAuthenticator => b"bad-authenticator",
        AaaDrop::BadMessageAuth => b"bad-message-auth",
        AaaDrop::Oversize => b"oversize",
        AaaDrop::BadEap => b"bad-eap",
    }
}

// Why a dynamic request is dropped.
fn request_drop(why: DynDrop) -> &'static [u8]
    ensures { result.now ≡ output.request_drop why }
{
    match why {
        DynDrop::Stranger => b"stranger",
        DynDrop::Malformed => b"malformed",
        DynDrop::Oversize => b"oversize",
        DynDrop::BadCode => b"bad-code",
        DynDrop::BadAuthenticator => b"bad-authenticator",
        DynDrop::BadMessageAuth => b"bad-message-auth",
        DynDrop::Stale => b"stale",
    }
}

/// Why a data frame is not forwarded.
pub fn drop_name(why: Drop9) -> &'static [u8]
    ensures { result.now ≡ output.drop_name why }
{
    match why {
        Drop9::Runt => b"runt",
        Drop9::Giant => b"giant",
        Drop9::Control => b"control",
        Drop9::Reserved => b"reserved",
        Drop9::Tagged => b"tagged",
        Drop9::GroupSource => b"group-source",
        Drop9::Down => b"down",
        Drop9::Closed => b"closed",
        Drop9::Unauthorised => b"unauthorised",
    }
}
