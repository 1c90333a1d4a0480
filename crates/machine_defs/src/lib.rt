//! The four machines that decide over a host (IEEE Std 802.1X-2004, 8.2; RFC 4137, 7) as tables of rows, the
//! chain of rows that settles a session, and the values that can arise. All of it stands in specs/, with its
//! laws in proofs/.
#![tactic(auto)]
