//! What one event sends, in order: frames to hosts, RADIUS packets to the server, replies to clients.
//! All memory is taken when a tray is opened.
#![tactic(auto)]

mod tray;
mod way;

pub use switch_event::Sent;
pub use tray::Tray;
