use crate::octets::Octets;
use crate::record::Record;

/// A record of a trace.
#[derive(Drop)]
pub enum TraceRecord {
    /// A control event in a lane, 1 to 3.
    Control { lane: u8, what: Record },
    /// A data frame that came in on a port.
    Data { port: u8, octets: Octets },
}
