//! What a server says of itself.

ghost use Rattle.ua_messages.specs.Descriptions.{application_description_reading, application_description_encoding, user_token_policy_reading, user_token_policy_encoding, endpoint_description_reading, endpoint_description_encoding};

use crate::enumerations::{ApplicationType, MessageSecurityMode, UserTokenType};
use std::alloc::{AllocError, Global};
use std::marker::Model;
use ua_binary::{Cursor, TakeFault, Wire};
use ua_types::{Array, ByteString, LocalizedText, Text};
use ua_views::{ArrayView, LocalizedTextView, Readable, TextView, View, look_enumeration};

/// A client or a server (ApplicationDescription, IEC 62541-4, section 7).
#[derive(Debug, Drop)]
pub struct ApplicationDescription {
    /// The name of the installation, the same at no other one.
    pub application_uri: Text,
    /// The name of the product.
    pub product_uri: Text,
    pub application_name: LocalizedText,
    pub application_type: ApplicationType,
    /// The gateway through which the discovery URLs are reached, if any.
    pub gateway_server_uri: Text,
    /// What the discovery URLs serve, null where it is discovery itself.
    pub discovery_profile_uri: Text,
    /// Where the application answers a request for its endpoints.
    pub discovery_urls: Array<Text>,
}

#[tactic(auto, using(ua_binary::proofs::Fields::fields7), unfolding(crate::specs::Descriptions::application_description_reading, crate::specs::Descriptions::application_description_encoding))]
impl Wire for ApplicationDescription {
    ghost reading = { application_description_reading };

    ghost encoding = { application_description_encoding };

    fn decode(alloc: Global, cursor: &mut Cursor<'_>) -> Result<ApplicationDescription, TakeFault> {
        Ok(ApplicationDescription {
            application_uri: Text::decode(alloc, cursor)?,
            product_uri: Text::decode(alloc, cursor)?,
            application_name: LocalizedText::decode(alloc, cursor)?,
            application_type: ApplicationType::decode(alloc, cursor)?,
            gateway_server_uri: Text::decode(alloc, cursor)?,
            discovery_profile_uri: Text::decode(alloc, cursor)?,
            discovery_urls: Array::<Text>::decode(alloc, cursor)?,
        })
    }

    fn encode(&self, out: &mut Vec<u8>) -> Result<(), AllocError> {
        self.application_uri.encode(out)?;
        self.product_uri.encode(out)?;
        self.application_name.encode(out)?;
        self.application_type.encode(out)?;
        self.gateway_server_uri.encode(out)?;
        self.discovery_profile_uri.encode(out)?;
        self.discovery_urls.encode(out)?;
        Ok(())
    }
}

/// A [`ApplicationDescription`] in the bytes that it stands in.
#[derive(Debug, Drop)]
pub struct ApplicationDescriptionView<'a> {
    /// The name of the installation, the same at no other one.
    pub application_uri: TextView<'a>,
    /// The name of the product.
    pub product_uri: TextView<'a>,
    pub application_name: LocalizedTextView<'a>,
    pub application_type: ApplicationType,
    /// The gateway through which the discovery URLs are reached, if any.
    pub gateway_server_uri: TextView<'a>,
    /// What the discovery URLs serve, null where it is discovery itself.
    pub discovery_profile_uri: TextView<'a>,
    /// Where the application answers a request for its endpoints.
    pub discovery_urls: ArrayView<'a, TextView<'a>>,
}

impl<'a> Model for ApplicationDescriptionView<'a> {
    ghost use Rattle.ua_messages.specs.declared.descriptions.ApplicationDescription.{ApplicationDescription};

    ghost Value = { ApplicationDescription };

    ghost view = { λ v. record { application_uri = v.application_uri; product_uri = v.product_uri; application_name = v.application_name; application_type = v.application_type; gateway_server_uri = v.gateway_server_uri; discovery_profile_uri = v.discovery_profile_uri; discovery_urls = v.discovery_urls } };
}

impl<'a> Readable for ApplicationDescriptionView<'a> {
    ghost reading = { application_description_reading };
}

#[tactic(auto, unfolding(crate::specs::Descriptions::application_description_reading))]
impl<'a> View<'a> for ApplicationDescriptionView<'a> {
    fn look(cursor: &mut Cursor<'a>) -> Result<ApplicationDescriptionView<'a>, TakeFault> {
        Ok(ApplicationDescriptionView {
            application_uri: TextView::look(cursor)?,
            product_uri: TextView::look(cursor)?,
            application_name: LocalizedTextView::look(cursor)?,
            application_type: look_enumeration::<ApplicationType>(cursor)?,
            gateway_server_uri: TextView::look(cursor)?,
            discovery_profile_uri: TextView::look(cursor)?,
            discovery_urls: ArrayView::<TextView<'a>>::look(cursor)?,
        })
    }
}

/// A way to say who the user is (UserTokenPolicy, IEC 62541-4, section 7).
#[derive(Debug, Drop)]
pub struct UserTokenPolicy {
    /// The server's name of this policy. An identity token names its policy by it.
    pub policy_id: Text,
    pub token_type: UserTokenType,
    /// The kind of an issued token, null for the other types.
    pub issued_token_type: Text,
    /// Where an issued token comes from, null for the other types.
    pub issuer_endpoint_url: Text,
    /// How the token is encrypted, null where it is as the endpoint's policy says.
    pub security_policy_uri: Text,
}

#[tactic(auto, using(ua_binary::proofs::Fields::fields5), unfolding(crate::specs::Descriptions::user_token_policy_reading, crate::specs::Descriptions::user_token_policy_encoding))]
impl Wire for UserTokenPolicy {
    ghost reading = { user_token_policy_reading };

    ghost encoding = { user_token_policy_encoding };

    fn decode(alloc: Global, cursor: &mut Cursor<'_>) -> Result<UserTokenPolicy, TakeFault> {
        Ok(UserTokenPolicy {
            policy_id: Text::decode(alloc, cursor)?,
            token_type: UserTokenType::decode(alloc, cursor)?,
            issued_token_type: Text::decode(alloc, cursor)?,
            issuer_endpoint_url: Text::decode(alloc, cursor)?,
            security_policy_uri: Text::decode(alloc, cursor)?,
        })
    }

    fn encode(&self, out: &mut Vec<u8>) -> Result<(), AllocError> {
        self.policy_id.encode(out)?;
        self.token_type.encode(out)?;
        self.issued_token_type.encode(out)?;
        self.issuer_endpoint_url.encode(out)?;
        self.security_policy_uri.encode(out)?;
        Ok(())
    }
}

/// A place where a server is reached, and how it is protected there (EndpointDescription, IEC 62541-4,
/// section 7).
#[derive(Debug, Drop)]
pub struct EndpointDescription {
    pub endpoint_url: Text,
    pub server: ApplicationDescription,
    /// Null where the mode is None.
    pub server_certificate: ByteString,
    pub security_mode: MessageSecurityMode,
    /// Which algorithms protect the messages.
    pub security_policy_uri: Text,
    /// How a user may say who they are.
    pub user_identity_tokens: Array<UserTokenPolicy>,
    /// Which transport and which encoding are spoken.
    pub transport_profile_uri: Text,
    /// How safe this endpoint is beside the others, by the judgement of the server.
    pub security_level: u8,
}

#[tactic(auto, using(ua_binary::proofs::Fields::fields8), unfolding(crate::specs::Descriptions::endpoint_description_reading, crate::specs::Descriptions::endpoint_description_encoding))]
impl Wire for EndpointDescription {
    ghost reading = { endpoint_description_reading };

    ghost encoding = { endpoint_description_encoding };

    fn decode(alloc: Global, cursor: &mut Cursor<'_>) -> Result<EndpointDescription, TakeFault> {
        Ok(EndpointDescription {
            endpoint_url: Text::decode(alloc, cursor)?,
            server: ApplicationDescription::decode(alloc, cursor)?,
            server_certificate: ByteString::decode(alloc, cursor)?,
            security_mode: MessageSecurityMode::decode(alloc, cursor)?,
            security_policy_uri: Text::decode(alloc, cursor)?,
            user_identity_tokens: Array::<UserTokenPolicy>::decode(alloc, cursor)?,
            transport_profile_uri: Text::decode(alloc, cursor)?,
            security_level: u8::decode(alloc, cursor)?,
        })
    }

    fn encode(&self, out: &mut Vec<u8>) -> Result<(), AllocError> {
        self.endpoint_url.encode(out)?;
        self.server.encode(out)?;
        self.server_certificate.encode(out)?;
        self.security_mode.encode(out)?;
        self.security_policy_uri.encode(out)?;
        self.user_identity_tokens.encode(out)?;
        self.transport_profile_uri.encode(out)?;
        self.security_level.encode(out)?;
        Ok(())
    }
}
