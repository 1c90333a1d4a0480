//! The sixteen places of one port.

ghost use Rattle.std.specs.Prelude.{◌≡◌, ◌≤◌, ◌+◌, length};
ghost use Rattle.session_table.specs.Rows.{FoundBy, count_held, holds_mac, is_free, is_held};

use switch_event::limit::HOSTS_A_PORT;
use wire_core::Mac;

// A place of sixteen, from one on, at which an address is held.
pub(crate) fn find_in(hosts: &[Option<Mac>], first: usize, mac: Mac) -> Option<usize>
    requires { first + 16 ≤ length hosts.now }
    ensures { FoundBy (holds_mac mac.0 hosts.now) first result }
{
    for k in 0..HOSTS_A_PORT {
        if let Some(host) = hosts[first + k] {
            if host == mac {
                return Some(first + k);
            }
        }
    }
    None
}

// A place of sixteen, from one on, at which nothing is held.
pub(crate) fn free_in(hosts: &[Option<Mac>], first: usize) -> Option<usize>
    requires { first + 16 ≤ length hosts.now }
    ensures { FoundBy (is_free hosts.now) first result }
{
    for k in 0..HOSTS_A_PORT {
        if hosts[first + k].is_none() {
            return Some(first + k);
        }
    }
    None
}

// At how many of sixteen places, from one on, something is held.
pub(crate) fn count_in(hosts: &[Option<Mac>], first: usize) -> usize
    requires { first + 16 ≤ length hosts.now }
    ensures { result ≡ count_held (is_held hosts.now) first 16 }
{
    let mut held = 0;
    for k in 0..HOSTS_A_PORT {
        if hosts[first + k].is_some() {
            held += 1;
        }
    }
    held
}
