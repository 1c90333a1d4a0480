// The reasons to refuse a line that is not blank, in the order in which they are looked for. Those
// for a word that writes no number, no octets or no name are looked for word by word, from left to
// right.

/// More than 10,240 octets.
pub const LONG: u8 = 1;

/// An octet that is none of the space to the tilde.
pub const OCTET: u8 = 2;

/// A mark of a lane that is none of the three, or that no word of a control event follows.
pub const LANE: u8 = 3;

/// An unknown first word, or an unknown word behind `set`.
pub const WORD: u8 = 4;

/// A setting or `begin` after `begin`, or another line before it.
pub const PLACE: u8 = 5;

/// Too few words, or too many.
pub const COUNT: u8 = 6;

/// A word that writes no number, or no address, or one out of its range.
pub const NUMBER: u8 = 7;

/// A word that writes no octets, or a wrong number of them.
pub const HEX: u8 = 8;

/// A word that is none of those to choose from, or a name that is too long.
pub const NAME: u8 = 9;

/// A port that is not configured.
pub const PORT: u8 = 10;

/// A data frame with a lane.
pub const LANED: u8 = 11;

/// A setting, a port, a VLAN of a port or a client that was given before, or a fifth client.
pub const TWICE: u8 = 12;

/// `begin` without `server`, or a text without `begin`.
pub const MISSING: u8 = 13;
