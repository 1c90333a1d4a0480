// What a line is once it is read.
use event_record::{Octets, Record};

/// What a line means.
#[derive(Drop)]
pub enum Line {
    /// Nothing: a comment, or no word.
    Blank,
    /// The settings end.
    Begin,
    /// The phase ends.
    Sync,
    /// A setting, which is put into the settings.
    Setting,
    /// A control event in a lane, 1 to 3.
    Control { lane: u8, what: Record },
    /// A data frame on a port.
    Data { port: u8, octets: Octets },
}
