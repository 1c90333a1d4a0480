//! Each line at which a frame is dropped, and what is heard, octet by octet.

use crate::{Heard, Said, read};
use eth_frame::is_control;
use std::test::Fail;
use switch_event::FrameDrop;
use wire_core::Mac;

const OWN: Mac = Mac([2, 0, 0, 1, 1, 1]);

const HOST: Mac = Mac([2, 0, 0, 0, 0, 0xaa]);

const GROUP: [u8; 6] = [0x01, 0x80, 0xc2, 0, 0, 3];

// A frame of EAPOL from the host.
fn frame(to: [u8; 6], from: [u8; 6], body: &[u8], rt: HostRuntime) -> Result<Vec<u8>, Fail> {
    let mut octets = Vec::new(rt.alloc());
    octets.extend_from_slice(&to)?;
    octets.extend_from_slice(&from)?;
    octets.extend_from_slice(&[0x88, 0x8e])?;
    octets.extend_from_slice(body)?;
    Ok(octets)
}

// What is heard; none where the octets are no frame of EAPOL.
fn hear(octets: &[u8], up: bool) -> Option<Result<Heard<'_>, FrameDrop>> {
    if !is_control(octets) {
        return None;
    }
    Some(read(OWN, up, octets))
}

// The line at which a frame with this body is dropped, or 0 where it is not.
fn line(body: &[u8], up: bool, rt: HostRuntime) -> Result<u8, Fail> {
    let octets = frame(GROUP, HOST.0, body, rt)?;
    match hear(octets.as_slice(), up) {
        Some(Err(drop)) => Ok(drop.line()),
        _ => Ok(0),
    }
}

// What the host says: 1 for a Start, 2 for a Logoff, 3 and the packet for a Response, 0 for none.
fn said(octets: &[u8]) -> (u8, &[u8]) {
    match hear(octets, true) {
        Some(Ok(heard)) if heard.from == HOST => match heard.said {
            Said::Start => (1, &[]),
            Said::Logoff => (2, &[]),
            Said::Packet(eap) => (3, eap),
        },
        _ => (0, &[]),
    }
}

#[test]
fn a_start_a_logoff_and_a_response_are_heard(rt: HostRuntime) -> Result<(), Fail> {
    let start = frame(GROUP, HOST.0, &[1, 1, 0, 0], rt)?;
    assert_eq!(rt; said(start.as_slice()).0, 1);
    let logoff = frame(OWN.0, HOST.0, &[2, 2, 0, 0, 9, 9], rt)?;
    assert_eq!(rt; said(logoff.as_slice()).0, 2);
    let padded = [1, 0, 0, 8, 2, 1, 0, 8, 1, 0x62, 0x6f, 0x62, 0, 0];
    let response = frame(GROUP, HOST.0, &padded, rt)?;
    let (kind, eap) = said(response.as_slice());
    assert_eq!(rt; kind, 3);
    assert!(rt; eap == [2, 1, 0, 8, 1, 0x62, 0x6f, 0x62].as_slice());
    Ok(())
}

#[test]
fn each_line_comes_before_the_next(rt: HostRuntime) -> Result<(), Fail> {
    let elsewhere = frame([2, 0, 0, 1, 1, 2], GROUP, &[1], rt)?;
    assert_eq!(rt;
        hear(elsewhere.as_slice(), false),
        Some(Err(FrameDrop::Elsewhere))
    );
    let group = frame(GROUP, GROUP, &[1], rt)?;
    assert_eq!(rt;
        hear(group.as_slice(), false),
        Some(Err(FrameDrop::GroupSource))
    );
    assert_eq!(rt; line(&[1], false, rt)?, 3);
    assert_eq!(rt; line(&[1, 3, 0], true, rt)?, 4);
    assert_eq!(rt; line(&[1, 3, 0, 0], true, rt)?, 5);
    assert_eq!(rt; line(&[1, 4, 0, 0], true, rt)?, 6);
    assert_eq!(rt; line(&[1, 0, 0, 6, 2, 1, 0, 5, 1], true, rt)?, 7);
    assert_eq!(rt; line(&[1, 0, 0, 3, 5, 1, 0], true, rt)?, 8);
    assert_eq!(rt; line(&[1, 0, 0, 4, 5, 1, 0, 9], true, rt)?, 9);
    assert_eq!(rt; line(&[1, 0, 0, 5, 2, 1, 0, 6, 1], true, rt)?, 10);
    assert_eq!(rt; line(&[1, 0, 0, 4, 2, 1, 0, 4], true, rt)?, 10);
    assert_eq!(rt; line(&[1, 0, 0, 5, 1, 1, 0, 5, 1], true, rt)?, 11);
    assert_eq!(rt; line(&[1, 0, 0, 4, 3, 1, 0, 4], true, rt)?, 11);
    Ok(())
}
