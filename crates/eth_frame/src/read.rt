ghost use Rattle.std.specs.Prelude.{◌≡◌, Result};
ghost use Rattle.wire_defs.specs.Ethernet.{Frame as Fields, EthOf, eth_of, is_control as is_control_lem};
ghost use Rattle.wire_defs.specs.declared.EthDrop.{EthDrop as Drop};
ghost use Rattle.eth_frame.specs.Frame.{meaning};

use wire_core::Mac;
use wire_defs::{EthDrop, ethertype};

// The least and the most octets of a frame, without a frame check sequence.
const LEAST: usize = 14;

const MOST: usize = 1518;

/// The fields of a frame; its body is borrowed from the octets that it was read from.
#[derive(Clone, Copy, Debug, PartialEq, Eq)]
pub struct Frame<'a> {
    /// The destination.
    pub to: Mac,
    /// The source.
    pub from: Mac,
    /// The type (IEEE Std 802.3, 3.2.6).
    pub kind: u16,
    /// What follows the type.
    pub body: &'a [u8],
}

/// The fields of a frame. Runt below 14 octets, Giant above 1,518.
pub fn parse(b: &[u8]) -> Result<Frame<'_>, EthDrop>
    ensures grammar { EthOf b.now (meaning result) }
    ensures only { (r : Result Fields Drop) → EthOf b.now r → r ≡ meaning result }
    ensures value { meaning result ≡ eth_of b.now }
{
    if b.len() < LEAST {
        return Err(EthDrop::Runt);
    }
    if b.len() > MOST {
        return Err(EthDrop::Giant);
    }
    Ok(Frame {
        to: Mac([b[0], b[1], b[2], b[3], b[4], b[5]]),
        from: Mac([b[6], b[7], b[8], b[9], b[10], b[11]]),
        kind: u16::from_be_bytes([b[12], b[13]]),
        body: &b[14..],
    })
}

/// Whether octets are a frame of EAPOL: 14 to 1,518 octets with the type 88-8E.
pub fn is_control(b: &[u8]) -> bool
    ensures { result ≡ is_control_lem b.now }
{
    b.len() >= LEAST && b.len() <= MOST && u16::from_be_bytes([b[12], b[13]]) == ethertype::EAPOL
}
