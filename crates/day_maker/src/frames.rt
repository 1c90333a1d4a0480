//! The frames of the hosts.
ghost use Rattle.std.specs.Prelude.{◌≡◌, ◌+◌, ◌≤◌, ◌++◌, ◌∷◌, [], length, replicate};
ghost use Rattle.arrayvec.specs.ArrayVec.{array_vec_len};
ghost use Rattle.wire_defs.specs.Eapol.{eapol_text};
ghost use Rattle.day_defs.specs.Office as office;

use arrayvec::ArrayVec;
use day_defs::PORTS;
use wire_core::{Mac, append, two_octets};
use wire_defs::{PAE_GROUP, ethertype};

// A station beyond the switch, and the type of what is sent to it: IPv4.
const FAR_STATION: Mac = Mac([0x02, 0, 0, 0x0f, 0xff, 0xff]);

const IPV4: u16 = 0x0800;

// EAPOL-Start of version 2 (IEEE Std 802.1X-2004, 7.5.4).
const START: [u8; 4] = [2, 1, 0, 0];

/// The port of a host, whose number is from 1.
pub fn port_of_host(host: u8) -> u8
    requires { 1 ≤ host }
    ensures port { result ≡ office.port_of_host host }
    ensures least { 1 ≤ result }
    ensures most { result ≤ 60 }
{
    (host - 1) % PORTS + 1
}

/// The address of a host.
pub fn address_of_host(host: u8) -> Mac
    ensures { result.0 ≡ office.address_of_host host }
{
    let [high, low] = two_octets(u16::from(host));
    Mac([2, 0, 0, 0, high, low])
}

/// Replaces `out` by the EAPOL-Start of a host.
pub fn start_frame(host: u8, out: &mut ArrayVec<u8, 1518>)
    ensures { out.new.items ≡ office.start_frame host }
{
    eth_frame::write_plain(
        Mac(PAE_GROUP),
        address_of_host(host),
        ethertype::EAPOL,
        &START,
        out,
    );
}

/// Replaces `out` by the Response in which a host gives its identity, to the Request of this identifier.
pub fn response_frame(host: u8, id: u8, out: &mut ArrayVec<u8, 1518>)
    ensures { out.new.items ≡ office.response_frame host id }
{
    let mut packet = ArrayVec::new();
    eapol_frame::write(identity_response(host, id).as_slice(), &mut packet);
    eth_frame::write_plain(
        Mac(PAE_GROUP),
        address_of_host(host),
        ethertype::EAPOL,
        packet.as_slice(),
        out,
    );
}

/// Replaces `out` by the frame of IPv4 that a host sends.
pub fn data_frame(host: u8, out: &mut ArrayVec<u8, 1518>)
    ensures { out.new.items ≡ office.data_frame host }
{
    eth_frame::write_plain(FAR_STATION, address_of_host(host), IPV4, &[0; 46], out);
}

// The EAP packet that gives the identity of a host: at most 12 octets (RFC 3748, 5.1).
fn identity_response(host: u8, id: u8) -> ArrayVec<u8, 12>
    ensures { result.items ≡ office.identity_response id (office.identity_of_host host) }
{
    let mut digits = itoa::Buffer::new();
    let number = digits.format(host).as_bytes();
    let mut out = ArrayVec::new();
    append(&[2, id, 0, 9 + number.len() as u8, 1], &mut out);
    append(b"user", &mut out);
    append(number, &mut out);
    out
}
