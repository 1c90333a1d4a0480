// The settings that are given once, in the order of their bits in the number of those that were
// given. It is the order in which they came into the language, and not the one in which they are
// printed.

/// `bridge`
pub const BRIDGE: u32 = 0;

/// `nas`
pub const NAS: u32 = 1;

/// `server`
pub const SERVER: u32 = 2;

/// `set quiet-period`
pub const QUIET_PERIOD: u32 = 3;

/// `set server-timeout`
pub const SERVER_TIMEOUT: u32 = 4;

/// `set reauth-max`
pub const REAUTH_MAX: u32 = 5;

/// `set reauth-period`
pub const REAUTH_PERIOD: u32 = 6;

/// `set reauth`
pub const REAUTH: u32 = 7;

/// `set dyn-window`
pub const DYN_WINDOW: u32 = 8;

/// `clock`
pub const CLOCK: u32 = 9;

/// `seed`
pub const SEED: u32 = 10;

/// `set guest-wait`
pub const GUEST_WAIT: u32 = 11;

/// `set require-ma`
pub const REQUIRE_MA: u32 = 12;
