//! Enumerations of the standard. On the wire each is an Int32 of which any value is read, so each is
//! a number with names for the values that have a meaning, and not an enum.

ghost use Rattle.std.specs.Prelude.{refl};

use ua_binary::Enumeration;

/// What an application is (ApplicationType, IEC 62541-4, section 7).
#[derive(Clone, Copy, Debug, PartialEq, Eq)]
pub struct ApplicationType(pub i32);

impl ApplicationType {
    pub const SERVER: ApplicationType = ApplicationType(0);

    pub const CLIENT: ApplicationType = ApplicationType(1);

    pub const CLIENT_AND_SERVER: ApplicationType = ApplicationType(2);

    pub const DISCOVERY_SERVER: ApplicationType = ApplicationType(3);
}

impl Enumeration for ApplicationType {
    ghost of_number = { λ n. record { 0 = n } };

    ghost number_of = { λ v. v.0 };

    fn from_number(number: i32) -> ApplicationType {
        ApplicationType(number)
    }

    fn number(&self) -> i32 {
        self.0
    }

    ghost kept = { λ v. refl };
}

/// How messages are protected (MessageSecurityMode, IEC 62541-4, section 7).
#[derive(Clone, Copy, Debug, PartialEq, Eq)]
pub struct MessageSecurityMode(pub i32);

impl MessageSecurityMode {
    /// Not at all. It is the one mode of this server.
    pub const NONE: MessageSecurityMode = MessageSecurityMode(1);

    pub const SIGN: MessageSecurityMode = MessageSecurityMode(2);

    pub const SIGN_AND_ENCRYPT: MessageSecurityMode = MessageSecurityMode(3);
}

impl Enumeration for MessageSecurityMode {
    ghost of_number = { λ n. record { 0 = n } };

    ghost number_of = { λ v. v.0 };

    fn from_number(number: i32) -> MessageSecurityMode {
        MessageSecurityMode(number)
    }

    fn number(&self) -> i32 {
        self.0
    }

    ghost kept = { λ v. refl };
}

/// How a user says who they are (UserTokenType, IEC 62541-4, section 7).
#[derive(Clone, Copy, Debug, PartialEq, Eq)]
pub struct UserTokenType(pub i32);

impl UserTokenType {
    /// Not at all. It is the one type of this server.
    pub const ANONYMOUS: UserTokenType = UserTokenType(0);

    pub const USER_NAME: UserTokenType = UserTokenType(1);

    pub const CERTIFICATE: UserTokenType = UserTokenType(2);

    pub const ISSUED_TOKEN: UserTokenType = UserTokenType(3);
}

impl Enumeration for UserTokenType {
    ghost of_number = { λ n. record { 0 = n } };

    ghost number_of = { λ v. v.0 };

    fn from_number(number: i32) -> UserTokenType {
        UserTokenType(number)
    }

    fn number(&self) -> i32 {
        self.0
    }

    ghost kept = { λ v. refl };
}

/// What a request to open a channel asks for (SecurityTokenRequestType,
/// IEC 62541-4, section 5, OpenSecureChannel).
#[derive(Clone, Copy, Debug, PartialEq, Eq)]
pub struct SecurityTokenRequestType(pub i32);

impl SecurityTokenRequestType {
    /// A new channel.
    pub const ISSUE: SecurityTokenRequestType = SecurityTokenRequestType(0);

    /// A new token of the channel that the request came by.
    pub const RENEW: SecurityTokenRequestType = SecurityTokenRequestType(1);
}

impl Enumeration for SecurityTokenRequestType {
    ghost of_number = { λ n. record { 0 = n } };

    ghost number_of = { λ v. v.0 };

    fn from_number(number: i32) -> SecurityTokenRequestType {
        SecurityTokenRequestType(number)
    }

    fn number(&self) -> i32 {
        self.0
    }

    ghost kept = { λ v. refl };
}

/// Which times a value is to have in an answer (TimestampsToReturn, IEC 62541-4, section 7).
#[derive(Clone, Copy, Debug, PartialEq, Eq)]
pub struct TimestampsToReturn(pub i32);

impl TimestampsToReturn {
    /// When the value came to be, as its source says.
    pub const SOURCE: TimestampsToReturn = TimestampsToReturn(0);

    /// When the server had the value.
    pub const SERVER: TimestampsToReturn = TimestampsToReturn(1);

    pub const BOTH: TimestampsToReturn = TimestampsToReturn(2);

    pub const NEITHER: TimestampsToReturn = TimestampsToReturn(3);
}

impl Enumeration for TimestampsToReturn {
    ghost of_number = { λ n. record { 0 = n } };

    ghost number_of = { λ v. v.0 };

    fn from_number(number: i32) -> TimestampsToReturn {
        TimestampsToReturn(number)
    }

    fn number(&self) -> i32 {
        self.0
    }

    ghost kept = { λ v. refl };
}
