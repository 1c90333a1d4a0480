/// What an answer of the server says to a session (RFC 2865, 4; RFC 3579, 2.6.3). Without an EAP packet
/// an Accept and a Reject stand for the plain Success and the plain Failure of EAP.
#[derive(Clone, Copy)]
pub enum Verdict<'a> {
    /// The server asks on; `wait`: for how many seconds the response is to be waited for (RFC 2869,
    /// 2.3.2), with 0 for as long as the settings say.
    Challenge {
        eap: &'a [u8],
        wait: u32,
    },
    /// The server tells that it has heard: a challenge without an EAP packet.
    Notice,
    /// The server accepts; `timeout_reauth`: after how many seconds the host is authenticated again
    /// (RFC 2865, 5.29), with 0 for as the settings say.
    Accept {
        eap: Option<&'a [u8]>,
        timeout_reauth: u32,
    },
    /// The server refuses, or what it grants does not fit.
    Reject {
        eap: Option<&'a [u8]>,
    },
}
