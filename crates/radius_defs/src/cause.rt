//! Error-Causes: why a dynamic request is refused (RFC 5176, section 3.5).

/// Unsupported Attribute.
pub const UNSUPPORTED_ATTRIBUTE: u32 = 401;

/// Missing Attribute.
pub const MISSING_ATTRIBUTE: u32 = 402;

/// NAS Identification Mismatch.
pub const NAS_IDENTIFICATION_MISMATCH: u32 = 403;

/// Unsupported Service.
pub const UNSUPPORTED_SERVICE: u32 = 405;

/// Invalid Attribute Value.
pub const INVALID_ATTRIBUTE_VALUE: u32 = 407;

/// Session Context Not Found.
pub const SESSION_CONTEXT_NOT_FOUND: u32 = 503;

/// Multiple Session Selection Unsupported.
pub const MULTIPLE_SESSION_SELECTION_UNSUPPORTED: u32 = 508;
