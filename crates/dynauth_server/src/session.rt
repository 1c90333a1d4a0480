//! The sessions that a request names (RFC 5176, section 3).
ghost use Rattle.std.specs.Prelude.{◌≡◌, filter};
ghost use Rattle.dynauth_defs.specs.Session.{matching};
ghost use Rattle.dynauth_server.specs.Found.{first_of_them};
ghost use Rattle.dynauth_server.specs.Sought.{names};

use crate::naming::{Sought, sought_by};
use crate::roll::Roll;
use radius_packet::Packet;

// What is wanted of a session that is named.
#[derive(Clone, Copy)]
pub(crate) struct Found {
    pub(crate) number: u32,
    pub(crate) authorised: bool,
}

// The first session that the request names, and whether it names others. The attributes are read once,
// whatever sessions there are.
pub(crate) fn named<R: Roll>(p: &Packet<'_>, roll: &R) -> (Option<Found>, bool)
    ensures { result ≡ first_of_them (matching p.now.attributes (R.rows roll.now)) }
{
    match sought_by(p) {
        Some(sought) => having(&sought, roll),
        None => (None, false),
    }
}

// The first session that has what is sought, and whether others have it.
fn having<R: Roll>(sought: &Sought<'_>, roll: &R) -> (Option<Found>, bool)
    ensures { result ≡ first_of_them (filter (names sought.now) (R.rows roll.now)) }
{
    let mut found = None;
    for n in 0..roll.len() {
        if let Some(row) = roll.row(n) {
            if sought.names(&row) {
                if found.is_some() {
                    return (found, true);
                }
                found = Some(Found {
                    number: row.number,
                    authorised: row.authorised,
                });
            }
        }
    }
    (found, false)
}
