// The words that a line begins with.

/// The first word of a line that stands before `begin`, or `begin`.
#[derive(Clone, Copy, Debug, PartialEq, Eq)]
pub enum SettingWord {
    /// `bridge`
    Bridge,
    /// `nas`
    Nas,
    /// `server`
    Server,
    /// `client`
    Client,
    /// `port`
    Port,
    /// `restricted`
    Restricted,
    /// `guest`
    Guest,
    /// `set`
    Set,
    /// `clock`
    Clock,
    /// `seed`
    Seed,
    /// `begin`
    Begin,
}

/// The word behind `set`.
#[derive(Clone, Copy, Debug, PartialEq, Eq)]
pub enum Timing {
    /// `quiet-period`
    QuietPeriod,
    /// `server-timeout`
    ServerTimeout,
    /// `reauth-max`
    ReauthMax,
    /// `reauth-period`
    ReauthPeriod,
    /// `reauth`
    Reauth,
    /// `guest-wait`
    GuestWait,
    /// `dyn-window`
    DynWindow,
    /// `require-ma`
    RequireMa,
}

/// A VLAN of a port beside the one of its hosts.
#[derive(Clone, Copy, Debug, PartialEq, Eq)]
pub enum OtherVlan {
    /// That of a host that the server rejected.
    Restricted,
    /// That of every source while nobody has answered.
    Guest,
}

/// The first word of a record.
#[derive(Clone, Copy, Debug, PartialEq, Eq)]
pub enum RecordWord {
    /// `frame`
    Frame,
    /// `radius`
    Radius,
    /// `dyn`
    Dyn,
    /// `tick`
    Tick,
    /// `link`
    Link,
    /// `control`
    Control,
}

/// The first word of a line.
#[derive(Clone, Copy, Debug, PartialEq, Eq)]
pub enum Keyword {
    /// One that stands before `begin`, or `begin`.
    Setting(SettingWord),
    /// One of a record.
    Record(RecordWord),
    /// `sync`
    Sync,
}
