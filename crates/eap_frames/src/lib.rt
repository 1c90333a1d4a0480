//! The frame that carries an EAP packet to a host, put into the tray of an event.
#![tactic(auto)]

ghost use Rattle.std.specs.Prelude.{◌≡◌, ◌≤◌, ◌+◌, [], ◌∷◌, ◌++◌, length};
ghost use Rattle.switch_event.specs.Sent.{ToHost};
ghost use Rattle.switch_event.specs.Frames.{eap_frame};
ghost use Rattle.out_tray.specs.Tray.{spare};
ghost use Rattle.eap_frames.specs.Put.{IsPut};

use arrayvec::ArrayVec;
use out_tray::{Sent, Tray};
use wire_core::Mac;

/// Appends the whole frame that carries an EAP packet, of at most 1,500 octets, from a port with
/// the address `own` to the host `peer`, in EAPOL of version 2 (IEEE Std 802.1X-2004, 7.5). It is
/// not padded. The octets of the packet and 34 more must be at most [`Tray::spare`]. No memory.
pub fn put(port: u8, own: Mac, peer: Mac, eap: &[u8], tray: &mut Tray)
    requires short { length eap.now ≤ 1500 }
    requires room { length eap.now + 34 ≤ spare tray.old }
    ensures items { IsPut (ToHost port (eap_frame peer.0 own.0 eap.now)) tray.old tray.new }
    ensures room { spare tray.new + length eap.now + 34 ≡ spare tray.old }
{
    let mut octets = ArrayVec::new();
    write(own, peer, eap, &mut octets);
    tray.put(Sent::Frame {
        port,
        octets: octets.as_slice(),
    });
}

// Replaces `out` by the frame.
fn write(own: Mac, peer: Mac, eap: &[u8], out: &mut ArrayVec<u8, 1518>)
    requires { length eap.now ≤ 1500 }
    ensures frame { out.new.items ≡ eap_frame peer.0 own.0 eap.now }
    ensures size { length out.new.items ≡ length eap.now + 18 }
{
    let size = eap.len();
    out.clear();
    let _fits = out.try_extend_from_slice(&peer.0);
    let _fits = out.try_extend_from_slice(&own.0);
    let _fits = out.try_extend_from_slice(&[
        0x88,
        0x8e,
        2,
        0,
        (size / 256) as u8,
        (size % 256) as u8,
    ]);
    let _fits = out.try_extend_from_slice(eap);
}

#[cfg(test)]
mod tests {
    use super::put;
    use out_tray::{Sent, Tray};
    use wire_core::Mac;

    #[test]
    fn a_request_for_the_identity_is_a_frame_of_23_octets(rt: HostRuntime) {
        let mut tray = Tray::open(rt.alloc(), 0).expect(&rt, "there is memory");
        let own = Mac([0x02, 0x00, 0x00, 0x01, 0x01, 0x01]);
        let peer = Mac([0x01, 0x80, 0xc2, 0x00, 0x00, 0x03]);
        put(1, own, peer, &[1, 0, 0, 5, 1], &mut tray);
        let frame = [
            0x01, 0x80, 0xc2, 0x00, 0x00, 0x03, 0x02, 0x00, 0x00, 0x01, 0x01, 0x01, 0x88, 0x8e, 2,
            0, 0, 5, 1, 0, 0, 5, 1,
        ];
        assert!(rt;
            matches!(tray.item(0), Some(Sent::Frame { port: 1, octets }) if octets == frame.as_slice())
        );
        assert_eq!(rt; tray.len(), 1);
        assert_eq!(rt; tray.spare(), 100_000 - 23 - 16);
    }
}
