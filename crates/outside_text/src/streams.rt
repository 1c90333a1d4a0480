// Octets from a source, and a text into a sink.
ghost use Rattle.std.specs.Prelude.{◌≡◌, ◌≤◌, ◌<◌, ℕ, List, [], ◌∷◌, length, take, OnOk, OnErr, IfOk, MatchOption};
ghost use Rattle.std.specs.Io.KnownBytes.{Appends, Keeps, Consumes, IsAtEnd};
ghost use Rattle.wire_defs.specs.Outside.{HasCause};
ghost use Rattle.outside_text.specs.Streams.{GivesOctet, GivesPiece, TakesWhole, Says};

use outside_core::{Failed, Sink, Source};

/// The next octet, or none at the end of input.
pub fn read_octet<S: Source>(source: &mut S) -> Result<Option<u8>, Failed>
    ensures octets { GivesOctet (S.left source.old) (S.left source.new) result }
    ensures cause { HasCause (S.faults source.old) (S.faults source.new) result }
{
    let mut octet = [0];
    let count = source.read(&mut octet)?;
    if count == 0 {
        Ok(None)
    } else {
        Ok(Some(octet[0]))
    }
}

/// The next octets, as many as `buf` has room for and none beyond the first line feed; none only at
/// the end of input. `buf` must have room for one.
pub fn read_piece<'a, S: Source>(source: &mut S, buf: &'a mut [u8]) -> Result<&'a [u8], Failed>
    requires room { 0 < length buf.old }
    ensures octets { GivesPiece (S.left source.old) (S.left source.new) result }
    ensures most { IfOk result (λ piece. length piece.now ≤ length buf.old) }
    ensures cause { HasCause (S.faults source.old) (S.faults source.new) result }
{
    let count = source.read_line(buf)?;
    Ok(&buf[..count])
}

/// Writes a whole text. After a failure the sink has taken a proper prefix of it.
pub fn write_whole<K: Sink>(out: &mut K, text: &[u8]) -> Result<(), Failed>
    ensures octets { TakesWhole (K.taken out.old) (K.taken out.new) text.now result }
    ensures cause { HasCause (K.faults out.old) (K.faults out.new) result }
{
    let mut at = 0;
    while at < text.len() {
        let count = out.write(&text[at..])?;
        if count == 0 {
            return Err(Failed);
        }
        at += count;
    }
    Ok(())
}

/// Writes a text as far as the sink takes it.
pub fn say<K: Sink>(err: &mut K, text: &[u8])
    ensures said { Says (K.taken err.old) (K.taken err.new) (K.faults err.old)
        (K.faults err.new) text.now }
{
    let _told = write_whole(err, text);
}
