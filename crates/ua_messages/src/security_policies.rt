//! Security policies, by their URIs.

/// The policy under which messages are neither signed nor encrypted (IEC 62541-7, SecurityPolicy - None).
pub const SECURITY_POLICY_NONE: &str = "http://opcfoundation.org/UA/SecurityPolicy#None";
