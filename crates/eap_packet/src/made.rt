ghost use Rattle.std.specs.Prelude.{◌≡◌, [], Ok, if◌then◌else◌};
ghost use Rattle.wire_defs.specs.Eap.{EapOf, identity_request as identity_request_lem, canned as canned_lem};

/// The Request for an identity (RFC 3748, 5.1).
pub fn identity_request(id: u8) -> [u8; 5]
    ensures text { result ≡ identity_request_lem id }
    ensures grammar { EapOf result (Ok (record { code = 1; id = id; kind = 1; rest = []; whole = result })) }
{
    [1, id, 0, 5, 1]
}

/// The Success or the Failure, which carry nothing (RFC 3748, 4.2).
pub fn canned(success: bool, id: u8) -> [u8; 4]
    ensures text { result ≡ canned_lem success id }
    ensures grammar { EapOf result (Ok (record { code = if success then 3 else 4; id = id; kind = 0; rest = []; whole = result })) }
{
    [if success { 3 } else { 4 }, id, 0, 4]
}
