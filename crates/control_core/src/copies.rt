//! The replies that are kept: lists are opened, and copied.

ghost use Rattle.std.specs.Prelude.{◌≡◌, ◌≤◌, [], length, map, IfOk};

use dup_cache::Kept;
use std::alloc::{AllocError, Global};
use switch_event::Config;

/// For each client of the settings an empty list of replies.
pub(crate) fn opened_kept(alloc: Global, c: &Config) -> Result<Vec<Kept>, AllocError>
    ensures { IfOk result (λ kept. kept.items ≡ map (λ client. []) c.now.clients) }
{
    let mut kept = Vec::with_capacity(alloc, c.clients.len())?;
    for _client in c.clients.as_slice() {
        let none = Kept::open(alloc)?;
        kept.push(none)?;
    }
    Ok(kept)
}

/// Makes the lists of replies equal to as many others.
pub(crate) fn copy_kept(kept: &mut [Kept], others: &[Kept])
    requires { length kept.old ≡ length others.now }
    ensures { kept.new ≡ others.now }
{
    for n in 0..kept.len() {
        kept[n].copy_from(&others[n]);
    }
}
