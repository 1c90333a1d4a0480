ghost use Rattle.std.specs.Prelude.{◌≡◌, ◌≤◌, ◌<◌, length};
ghost use Rattle.machine_defs.specs.EapTable.{response_fits, is_identity, idle_time};

// Whether the packet is of the type Identity (RFC 3748, 5.1).
pub(crate) fn is_identity(eap: &[u8]) -> bool
    requires { 4 < length eap.now }
    ensures { result ≡ is_identity eap.now }
{
    eap[4] == 1
}

// Whether the packet is a Response to what was asked last (RFC 3748, 4.1); where `local`, that was
// the identity.
pub(crate) fn response_fits(eap: &[u8], id: u8, local: bool) -> bool
    ensures { result ≡ response_fits eap.now id local }
{
    if eap.len() < 5 {
        return false;
    }
    let identity = is_identity(eap);
    eap[0] == 2
        && eap[1] == id
        && (!local || identity)
        && (!identity || eap.len() > 5 && eap.len() <= 258)
}

// How many seconds a response is waited for: those of the method, or 10 where that is 0.
pub(crate) fn idle_time(method: u32) -> u32
    ensures { result ≡ idle_time method }
{
    if method == 0 { 10 } else { method }
}
