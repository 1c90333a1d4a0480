//! Types of attributes.

/// User-Name: the identity of a host (RFC 2865, section 5.1).
pub const USER_NAME: u8 = 1;

/// NAS-IP-Address: the address of the access server (RFC 2865, section 5.4).
pub const NAS_IP_ADDRESS: u8 = 4;

/// NAS-Port: the number of the port (RFC 2865, section 5.5).
pub const NAS_PORT: u8 = 5;

/// Service-Type (RFC 2865, section 5.6).
pub const SERVICE_TYPE: u8 = 6;

/// Framed-MTU: the most octets of an EAP packet (RFC 2865, section 5.12).
pub const FRAMED_MTU: u8 = 12;

/// Reply-Message: a text for a user (RFC 2865, section 5.18).
pub const REPLY_MESSAGE: u8 = 18;

/// State: what the server wants to be told again (RFC 2865, section 5.24).
pub const STATE: u8 = 24;

/// Class: what accounting is to be told (RFC 2865, section 5.25).
pub const CLASS: u8 = 25;

/// Session-Timeout: a time in seconds (RFC 2865, section 5.27).
pub const SESSION_TIMEOUT: u8 = 27;

/// Termination-Action: what follows that time (RFC 2865, section 5.29).
pub const TERMINATION_ACTION: u8 = 29;

/// Called-Station-Id: the address of the port (RFC 2865, section 5.30).
pub const CALLED_STATION_ID: u8 = 30;

/// Calling-Station-Id: the address of the host (RFC 2865, section 5.31).
pub const CALLING_STATION_ID: u8 = 31;

/// NAS-Identifier: the name of the access server (RFC 2865, section 5.32).
pub const NAS_IDENTIFIER: u8 = 32;

/// Proxy-State: what a proxy wants to be told again (RFC 2865, section 5.33).
pub const PROXY_STATE: u8 = 33;

/// Acct-Session-Id: the number of the session (RFC 2866, section 5.5).
pub const ACCT_SESSION_ID: u8 = 44;

/// Acct-Terminate-Cause: why the session ends (RFC 2866, section 5.10).
pub const ACCT_TERMINATE_CAUSE: u8 = 49;

/// Event-Timestamp: a moment in seconds (RFC 2869, section 5.3).
pub const EVENT_TIMESTAMP: u8 = 55;

/// NAS-Port-Type (RFC 2865, section 5.41).
pub const NAS_PORT_TYPE: u8 = 61;

/// Tunnel-Type (RFC 2868, section 3.1).
pub const TUNNEL_TYPE: u8 = 64;

/// Tunnel-Medium-Type (RFC 2868, section 3.2).
pub const TUNNEL_MEDIUM_TYPE: u8 = 65;

/// EAP-Message: a piece of an EAP packet (RFC 3579, section 3.1).
pub const EAP_MESSAGE: u8 = 79;

/// Message-Authenticator: a digest of the packet (RFC 3579, section 3.2).
pub const MESSAGE_AUTHENTICATOR: u8 = 80;

/// Tunnel-Private-Group-ID: the text of a VLAN (RFC 2868, section 3.6).
pub const TUNNEL_PRIVATE_GROUP_ID: u8 = 81;

/// Error-Cause: why a dynamic request is refused (RFC 5176, section 3.5).
pub const ERROR_CAUSE: u8 = 101;
