//! Numbers and addresses, as octets and as text.

use arrayvec::ArrayVec;
use wire_core::{
    Mac, be16, be32, decimal, four_octets, station, station_of, two_octets, upper_digit,
};

const OCTETS: [u8; 5] = [0x01, 0x02, 0x03, 0x88, 0x8e];

// Octets, a place among them, and the numbers of two and of four octets there.
#[derive(Clone, Copy)]
struct Number {
    octets: &'static [u8],
    at: usize,
    two: Option<u16>,
    four: Option<u32>,
}

const NUMBERS: [Number; 7] = [
    Number {
        octets: &OCTETS,
        at: 0,
        two: Some(0x0102),
        four: Some(0x0102_0388),
    },
    Number {
        octets: &OCTETS,
        at: 1,
        two: Some(0x0203),
        four: Some(0x0203_888e),
    },
    Number {
        octets: &OCTETS,
        at: 2,
        two: Some(0x0388),
        four: None,
    },
    Number {
        octets: &OCTETS,
        at: 3,
        two: Some(0x888e),
        four: None,
    },
    Number {
        octets: &OCTETS,
        at: 4,
        two: None,
        four: None,
    },
    Number {
        octets: &OCTETS,
        at: usize::MAX,
        two: None,
        four: None,
    },
    Number {
        octets: &[0xff; 4],
        at: 0,
        two: Some(65535),
        four: Some(4_294_967_295),
    },
];

#[test]
fn numbers_are_read_where_all_their_octets_stand(rt: HostRuntime) {
    for row in NUMBERS {
        assert_eq!(rt; be16(row.octets, row.at), row.two);
        assert_eq!(rt; be32(row.octets, row.at), row.four);
    }
    assert_eq!(rt; be16(&[0xff, 0xff], 0), Some(65535));
}

#[test]
fn numbers_are_written_the_most_significant_octet_first(rt: HostRuntime) {
    assert_eq!(rt; two_octets(0x888e), [0x88, 0x8e]);
    assert_eq!(rt; four_octets(0x0102_888e), [1, 2, 0x88, 0x8e]);
    assert_eq!(rt; upper_digit(9), b'9');
    assert_eq!(rt; upper_digit(15), b'F');
}

// A text, the least and the most number that it may write, and the one that it writes.
#[derive(Clone, Copy)]
struct Decimal {
    text: &'static [u8],
    least: u64,
    most: u64,
    value: Option<u64>,
}

const DECIMALS: [Decimal; 16] = [
    Decimal {
        text: b"0",
        least: 0,
        most: u64::MAX,
        value: Some(0),
    },
    Decimal {
        text: b"7",
        least: 0,
        most: u64::MAX,
        value: Some(7),
    },
    Decimal {
        text: b"00",
        least: 0,
        most: u64::MAX,
        value: None,
    },
    Decimal {
        text: b"07",
        least: 0,
        most: u64::MAX,
        value: None,
    },
    Decimal {
        text: b"",
        least: 0,
        most: u64::MAX,
        value: None,
    },
    Decimal {
        text: b"-1",
        least: 0,
        most: u64::MAX,
        value: None,
    },
    Decimal {
        text: b"+1",
        least: 0,
        most: u64::MAX,
        value: None,
    },
    Decimal {
        text: b"1 ",
        least: 0,
        most: u64::MAX,
        value: None,
    },
    Decimal {
        text: b"1a",
        least: 0,
        most: u64::MAX,
        value: None,
    },
    Decimal {
        text: b"0",
        least: 1,
        most: 4094,
        value: None,
    },
    Decimal {
        text: b"1",
        least: 1,
        most: 4094,
        value: Some(1),
    },
    Decimal {
        text: b"4094",
        least: 1,
        most: 4094,
        value: Some(4094),
    },
    Decimal {
        text: b"4095",
        least: 1,
        most: 4094,
        value: None,
    },
    Decimal {
        text: b"18446744073709551615",
        least: 0,
        most: u64::MAX,
        value: Some(u64::MAX),
    },
    Decimal {
        text: b"18446744073709551616",
        least: 0,
        most: u64::MAX,
        value: None,
    },
    Decimal {
        text: b"99999999999999999999999999",
        least: 0,
        most: u64::MAX,
        value: None,
    },
];

#[test]
fn decimal_numbers_have_no_leading_zero_and_a_range(rt: HostRuntime) {
    for row in DECIMALS {
        assert_eq!(rt; decimal(row.text, row.least, row.most), row.value);
    }
}

const STATION: Mac = Mac([0x00, 0x10, 0xa4, 0x23, 0x19, 0xc0]);

// A text, and the address that it writes.
#[derive(Clone, Copy)]
struct Station {
    text: &'static [u8],
    mac: Option<Mac>,
}

const STATIONS: [Station; 10] = [
    Station {
        text: b"00-10-A4-23-19-C0",
        mac: Some(STATION),
    },
    Station {
        text: b"00:10:a4:23:19:c0",
        mac: Some(STATION),
    },
    Station {
        text: b"0010.a423.19C0",
        mac: Some(STATION),
    },
    Station {
        text: b"0010a42319c0",
        mac: Some(STATION),
    },
    Station {
        text: b"--0.0:10a42319c0..",
        mac: Some(STATION),
    },
    Station {
        text: b"00-10-A4-23-19-C",
        mac: None,
    },
    Station {
        text: b"00-10-A4-23-19-C00",
        mac: None,
    },
    Station {
        text: b"00-10-A4-23-19-CG",
        mac: None,
    },
    Station {
        text: b"00 10 A4 23 19 C0",
        mac: None,
    },
    Station {
        text: b"",
        mac: None,
    },
];

#[test]
fn a_station_is_written_in_upper_case_and_read_in_either(rt: HostRuntime) {
    let mut out = ArrayVec::new();
    out.push(b'x');
    station(STATION, &mut out);
    assert_eq!(rt; out.as_slice(), b"00-10-A4-23-19-C0".as_slice());
    for row in STATIONS {
        assert_eq!(rt; station_of(row.text), row.mac);
    }
}
