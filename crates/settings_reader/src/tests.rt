// Settings from sources in memory: how each reading ends, and what is left of the source then.
use crate::{SettingsErr, read_settings};
use outside_core::{MemSource, Source};
use std::test::Fail;
use trace_defs::{MISSING, PLACE, WORD};

const LIMIT: usize = 1 << 16;

const SERVER: &[u8] = b"# a server\r\nserver 192.0.2.20 1812 73\n";

// How many octets a source has left.
fn left(source: &mut MemSource) -> usize {
    let mut buf = [0; 64];
    source.read(&mut buf).unwrap_or(0)
}

#[test]
fn settings_end_with_their_last_line(rt: HostRuntime) -> Result<(), Fail> {
    let text = b"server 192.0.2.20 1812 73\nport 3 30 auto\nbegin\nlink 3 down\n".as_slice();
    let mut source = MemSource::new(rt.alloc(), text, 64, &[])?;
    let config = read_settings(rt.alloc(), LIMIT, &mut source)?;
    assert_eq!(rt; config.server.port, 1812);
    assert_eq!(rt; config.ports.len(), 1);
    assert_eq!(rt; left(&mut source), b"link 3 down\n".len());
    let mut whole = MemSource::new(rt.alloc(), b"server 192.0.2.20 1812 73\nbegin", 1, &[])?;
    assert_eq!(rt;
        read_settings(rt.alloc(), LIMIT, &mut whole)?.server.port,
        1812
    );
    Ok(())
}

#[test]
fn settings_are_refused_by_line_and_reason(rt: HostRuntime) -> Result<(), Fail> {
    let rows: [(&[u8], u64, u8); 5] = [
        (b"", 1, MISSING),
        (SERVER, 3, MISSING),
        (b"begin", 1, MISSING),
        (b"server 192.0.2.20 1812 73\n\nserve 1", 3, WORD),
        (b"server 192.0.2.20 1812 73\ntick\nbegin\n", 2, PLACE),
    ];
    for (text, line, why) in rows {
        let mut source = MemSource::new(rt.alloc(), text, 64, &[])?;
        let refused = read_settings(rt.alloc(), LIMIT, &mut source);
        assert_eq!(rt; refused.err(), Some(SettingsErr::Refused { line, why }));
    }
    Ok(())
}

#[test]
fn settings_end_within_their_limit(rt: HostRuntime) -> Result<(), Fail> {
    let text = b"server 192.0.2.20 1812 73\nbegin\n#".as_slice();
    for (limit, wanted) in [(32, None), (31, Some(SettingsErr::TooLong))] {
        let mut source = MemSource::new(rt.alloc(), text, 64, &[])?;
        assert_eq!(rt; read_settings(rt.alloc(), limit, &mut source).err(), wanted);
    }
    Ok(())
}

#[test]
fn a_read_that_fails_ends_the_settings(rt: HostRuntime) -> Result<(), Fail> {
    let mut source = MemSource::new(rt.alloc(), b"server 192.0.2.20 1812 73\nbegin\n", 1, &[9])?;
    let failed = read_settings(rt.alloc(), LIMIT, &mut source);
    assert_eq!(rt; failed.err(), Some(SettingsErr::ReadFault));
    assert_eq!(rt; left(&mut source), 1);
    Ok(())
}
