//! The client from which a request comes (RFC 5176, section 6.1).
ghost use Rattle.std.specs.Prelude.{◌≡◌};
ghost use Rattle.std.specs.Option.{option_map};
ghost use Rattle.std.specs.Str.{bytes_eq};
ghost use Rattle.dynauth_defs.specs.Judge.{client_of as client_of_lem, place_of};
ghost use Rattle.dynauth_server.specs.Known.{known};

use dup_cache::Kept;
use switch_event::Client;

/// The first client that has this address, with its secret, and the replies that are kept for it.
/// None where no client has it. There must be a list of kept replies for each client, in the same
/// order.
pub fn client_of<'a, 'c>(
    ip: [u8; 4],
    clients: &'c [Client],
    kept: &'a [Kept],
) -> Option<(&'c Client, &'a Kept)>
    ensures { option_map known result ≡ client_of_lem ip clients.now kept.now }
{
    clients
        .iter()
        .zip(kept)
        .find(|known| has_address(known.0, ip))
}

/// The place of the first client that has this address, and so of the replies that are kept for it.
/// None where no client has it.
pub fn client_place(ip: [u8; 4], clients: &[Client]) -> Option<usize>
    ensures { result ≡ place_of ip clients.now }
{
    clients.iter().position(|client| has_address(client, ip))
}

fn has_address(client: &Client, ip: [u8; 4]) -> bool
    ensures { result ≡ bytes_eq client.now.ip ip }
{
    client.ip == ip
}
