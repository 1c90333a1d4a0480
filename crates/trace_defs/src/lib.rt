//! A trace as definitions: its lines, the reasons to refuse one, its phases and what is printed for
//! it. They stand in specs/; here are the words that a line begins with, the limits, and what a
//! line is once it is read.
#![tactic(auto)]

mod given;
mod keyword;
mod limit;
mod line;
mod reason;

pub use event_record::{Octets, Record};
pub use given::{
    BRIDGE, CLOCK, DYN_WINDOW, GUEST_WAIT, NAS, QUIET_PERIOD, REAUTH, REAUTH_MAX, REAUTH_PERIOD,
    REQUIRE_MA, SEED, SERVER, SERVER_TIMEOUT,
};
pub use keyword::{Keyword, OtherVlan, RecordWord, SettingWord, Timing};
pub use limit::{MOST_CLIENTS, MOST_DATAGRAM_OCTETS, MOST_FRAME_OCTETS, MOST_LINE_OCTETS};
pub use line::Line;
pub use reason::{
    COUNT, HEX, LANE, LANED, LONG, MISSING, NAME, NUMBER, OCTET, PLACE, PORT, TWICE, WORD,
};
