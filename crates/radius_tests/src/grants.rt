//! What an Accept grants on a port of VLAN 10 (RFC 3580, section 3.31).

use radius_attrs::Timeout;
use radius_packet::{Builder, parse};
use vlan_policy::{Grant, Unfit, grant};

#[derive(Clone, Copy)]
struct Row {
    attributes: &'static [(u8, &'static [u8])],
    grant: Result<Grant, Unfit>,
}

const TIME: (u8, &[u8]) = (27, &[0, 0, 0, 60]);

const TYPE: (u8, &[u8]) = (64, &[0, 0, 0, 13]);

const MEDIUM: (u8, &[u8]) = (65, &[0, 0, 0, 6]);

const ROWS: [Row; 3] = [
    Row {
        attributes: &[],
        grant: Ok(Grant {
            vlan: 10,
            timeout: Timeout::Unset,
        }),
    },
    Row {
        attributes: &[TIME, TYPE],
        grant: Err(Unfit),
    },
    Row {
        attributes: &[TIME, TYPE, MEDIUM, (81, b"30")],
        grant: Ok(Grant {
            vlan: 30,
            timeout: Timeout::End(60),
        }),
    },
];

fn granted(attributes: &[(u8, &[u8])]) -> Option<Result<Grant, Unfit>> {
    let mut built = Builder::new(2, 0, [0; 16]);
    for (kind, value) in attributes {
        built.put(*kind, value).ok()?;
    }
    let packet = parse(built.octets()).ok()?;
    Some(grant(&packet, 10))
}

#[test]
fn grants_on_a_port_of_vlan_10(rt: HostRuntime) {
    for row in ROWS {
        assert_eq!(rt; granted(row.attributes), Some(row.grant));
    }
}
