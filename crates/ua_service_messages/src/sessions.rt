//! The services CreateSession, ActivateSession and CloseSession, and what proves who a client or a
//! user is.

ghost use Rattle.std.specs.Prelude.{⊤};
ghost use Rattle.ua_service_messages.specs.Sessions.{signature_data_reading, signature_data_encoding, signed_software_certificate_reading, signed_software_certificate_encoding, anonymous_identity_token_reading, anonymous_identity_token_encoding, create_session_request_reading, create_session_request_encoding, create_session_response_reading, create_session_response_encoding, activate_session_request_reading, activate_session_request_encoding, activate_session_response_reading, activate_session_response_encoding, close_session_request_reading, close_session_request_encoding, close_session_response_reading, close_session_response_encoding};

use std::alloc::{AllocError, Global};
use std::marker::Model;
use ua_binary::{Cursor, TakeFault, Wire};
use ua_messages::{
    ApplicationDescription, ApplicationDescriptionView, DiagnosticInfos, EndpointDescription,
    ResponseHeader,
};
use ua_types::{Array, ByteString, Duration, ExtensionObject, NodeId, Status, Text};
use ua_views::{ArrayView, ByteStringView, ExtensionObjectView, Readable, TextView, View};

/// A signature (SignatureData, IEC 62541-4, section 7). Both fields are null where nothing is signed.
#[derive(Debug, Drop)]
pub struct SignatureData {
    /// The URI of the algorithm.
    pub algorithm: Text,
    pub signature: ByteString,
}

#[tactic(auto, using(ua_binary::proofs::Fields::fields2), unfolding(crate::specs::Sessions::signature_data_reading, crate::specs::Sessions::signature_data_encoding))]
impl Wire for SignatureData {
    ghost reading = { signature_data_reading };

    ghost encoding = { signature_data_encoding };

    fn decode(alloc: Global, cursor: &mut Cursor<'_>) -> Result<SignatureData, TakeFault> {
        Ok(SignatureData {
            algorithm: Text::decode(alloc, cursor)?,
            signature: ByteString::decode(alloc, cursor)?,
        })
    }

    fn encode(&self, out: &mut Vec<u8>) -> Result<(), AllocError> {
        self.algorithm.encode(out)?;
        self.signature.encode(out)?;
        Ok(())
    }
}

/// A [`SignatureData`] in the bytes that it stands in.
#[derive(Debug, Drop)]
pub struct SignatureDataView<'a> {
    /// The URI of the algorithm.
    pub algorithm: TextView<'a>,
    pub signature: ByteStringView<'a>,
}

impl<'a> Model for SignatureDataView<'a> {
    ghost use Rattle.ua_service_messages.specs.declared.sessions.SignatureData.{SignatureData};

    ghost Value = { SignatureData };

    ghost view = { λ v. record { algorithm = v.algorithm; signature = v.signature } };
}

impl<'a> Readable for SignatureDataView<'a> {
    ghost reading = { signature_data_reading };
}

#[tactic(auto, unfolding(crate::specs::Sessions::signature_data_reading))]
impl<'a> View<'a> for SignatureDataView<'a> {
    fn look(cursor: &mut Cursor<'a>) -> Result<SignatureDataView<'a>, TakeFault> {
        Ok(SignatureDataView {
            algorithm: TextView::look(cursor)?,
            signature: ByteStringView::look(cursor)?,
        })
    }
}

/// A certificate of a product (SignedSoftwareCertificate, IEC 62541-4, section 7). This server has none
/// and looks at none.
#[derive(Debug, Drop)]
pub struct SignedSoftwareCertificate {
    pub certificate_data: ByteString,
    pub signature: ByteString,
}

#[tactic(auto, using(ua_binary::proofs::Fields::fields2), unfolding(crate::specs::Sessions::signed_software_certificate_reading, crate::specs::Sessions::signed_software_certificate_encoding))]
impl Wire for SignedSoftwareCertificate {
    ghost reading = { signed_software_certificate_reading };

    ghost encoding = { signed_software_certificate_encoding };

    fn decode(
        alloc: Global,
        cursor: &mut Cursor<'_>,
    ) -> Result<SignedSoftwareCertificate, TakeFault> {
        Ok(SignedSoftwareCertificate {
            certificate_data: ByteString::decode(alloc, cursor)?,
            signature: ByteString::decode(alloc, cursor)?,
        })
    }

    fn encode(&self, out: &mut Vec<u8>) -> Result<(), AllocError> {
        self.certificate_data.encode(out)?;
        self.signature.encode(out)?;
        Ok(())
    }
}

/// A [`SignedSoftwareCertificate`] in the bytes that it stands in.
#[derive(Debug, Drop)]
pub struct SignedSoftwareCertificateView<'a> {
    pub certificate_data: ByteStringView<'a>,
    pub signature: ByteStringView<'a>,
}

impl<'a> Model for SignedSoftwareCertificateView<'a> {
    ghost use Rattle.ua_service_messages.specs.declared.sessions.SignedSoftwareCertificate.{SignedSoftwareCertificate};

    ghost Value = { SignedSoftwareCertificate };

    ghost view = { λ v. record { certificate_data = v.certificate_data; signature = v.signature } };
}

impl<'a> Readable for SignedSoftwareCertificateView<'a> {
    ghost reading = { signed_software_certificate_reading };
}

#[tactic(auto, unfolding(crate::specs::Sessions::signed_software_certificate_reading))]
impl<'a> View<'a> for SignedSoftwareCertificateView<'a> {
    fn look(cursor: &mut Cursor<'a>) -> Result<SignedSoftwareCertificateView<'a>, TakeFault> {
        Ok(SignedSoftwareCertificateView {
            certificate_data: ByteStringView::look(cursor)?,
            signature: ByteStringView::look(cursor)?,
        })
    }
}

/// Says that the user stays anonymous (AnonymousIdentityToken, IEC 62541-4, section 7). It travels in an
/// ExtensionObject.
#[derive(Debug, Drop)]
pub struct AnonymousIdentityToken {
    /// The name that the endpoint gives to its policy for anonymous users.
    pub policy_id: Text,
}

#[tactic(auto, using(ua_binary::proofs::Fields::fields1), unfolding(crate::specs::Sessions::anonymous_identity_token_reading, crate::specs::Sessions::anonymous_identity_token_encoding))]
impl Wire for AnonymousIdentityToken {
    ghost reading = { anonymous_identity_token_reading };

    ghost encoding = { anonymous_identity_token_encoding };

    fn decode(alloc: Global, cursor: &mut Cursor<'_>) -> Result<AnonymousIdentityToken, TakeFault> {
        Ok(AnonymousIdentityToken {
            policy_id: Text::decode(alloc, cursor)?,
        })
    }

    fn encode(&self, out: &mut Vec<u8>) -> Result<(), AllocError> {
        self.policy_id.encode(out)?;
        Ok(())
    }
}

/// An [`AnonymousIdentityToken`] in the bytes that it stands in.
#[derive(Debug, Drop)]
pub struct AnonymousIdentityTokenView<'a> {
    /// The name that the endpoint gives to its policy for anonymous users.
    pub policy_id: TextView<'a>,
}

impl<'a> Model for AnonymousIdentityTokenView<'a> {
    ghost use Rattle.ua_service_messages.specs.declared.sessions.AnonymousIdentityToken.{AnonymousIdentityToken};

    ghost Value = { AnonymousIdentityToken };

    ghost view = { λ v. record { policy_id = v.policy_id } };
}

impl<'a> Readable for AnonymousIdentityTokenView<'a> {
    ghost reading = { anonymous_identity_token_reading };
}

#[tactic(auto, unfolding(crate::specs::Sessions::anonymous_identity_token_reading))]
impl<'a> View<'a> for AnonymousIdentityTokenView<'a> {
    fn look(cursor: &mut Cursor<'a>) -> Result<AnonymousIdentityTokenView<'a>, TakeFault> {
        Ok(AnonymousIdentityTokenView {
            policy_id: TextView::look(cursor)?,
        })
    }
}

/// Asks for a session (CreateSession, IEC 62541-4, section 5, Session Service Set).
#[derive(Debug, Drop)]
pub struct CreateSessionRequest {
    pub client_description: ApplicationDescription,
    /// The server that is meant, where the endpoint is that of a gateway.
    pub server_uri: Text,
    /// The URL by which the client reached the server.
    pub endpoint_url: Text,
    /// The client's name of the session, for people.
    pub session_name: Text,
    /// Random bytes that the server would sign, null where the mode is None.
    pub client_nonce: ByteString,
    /// Null where the mode is None.
    pub client_certificate: ByteString,
    /// How long the session is to live without a request, in milliseconds.
    pub requested_session_timeout: Duration,
    /// The largest response that the client takes, in bytes; 0 is no limit.
    pub max_response_message_size: u32,
}

#[tactic(auto, using(ua_binary::proofs::Fields::fields8), unfolding(crate::specs::Sessions::create_session_request_reading, crate::specs::Sessions::create_session_request_encoding))]
impl Wire for CreateSessionRequest {
    ghost reading = { create_session_request_reading };

    ghost encoding = { create_session_request_encoding };

    fn decode(alloc: Global, cursor: &mut Cursor<'_>) -> Result<CreateSessionRequest, TakeFault> {
        Ok(CreateSessionRequest {
            client_description: ApplicationDescription::decode(alloc, cursor)?,
            server_uri: Text::decode(alloc, cursor)?,
            endpoint_url: Text::decode(alloc, cursor)?,
            session_name: Text::decode(alloc, cursor)?,
            client_nonce: ByteString::decode(alloc, cursor)?,
            client_certificate: ByteString::decode(alloc, cursor)?,
            requested_session_timeout: Duration::decode(alloc, cursor)?,
            max_response_message_size: u32::decode(alloc, cursor)?,
        })
    }

    fn encode(&self, out: &mut Vec<u8>) -> Result<(), AllocError> {
        self.client_description.encode(out)?;
        self.server_uri.encode(out)?;
        self.endpoint_url.encode(out)?;
        self.session_name.encode(out)?;
        self.client_nonce.encode(out)?;
        self.client_certificate.encode(out)?;
        self.requested_session_timeout.encode(out)?;
        self.max_response_message_size.encode(out)?;
        Ok(())
    }
}

/// A [`CreateSessionRequest`] in the bytes that it stands in.
#[derive(Debug, Drop)]
pub struct CreateSessionRequestView<'a> {
    pub client_description: ApplicationDescriptionView<'a>,
    /// The server that is meant, where the endpoint is that of a gateway.
    pub server_uri: TextView<'a>,
    /// The URL by which the client reached the server.
    pub endpoint_url: TextView<'a>,
    /// The client's name of the session, for people.
    pub session_name: TextView<'a>,
    /// Random bytes that the server would sign, null where the mode is None.
    pub client_nonce: ByteStringView<'a>,
    /// Null where the mode is None.
    pub client_certificate: ByteStringView<'a>,
    /// How long the session is to live without a request, in milliseconds.
    pub requested_session_timeout: Duration,
    /// The largest response that the client takes, in bytes; 0 is no limit.
    pub max_response_message_size: u32,
}

impl<'a> Model for CreateSessionRequestView<'a> {
    ghost use Rattle.ua_service_messages.specs.declared.sessions.CreateSessionRequest.{CreateSessionRequest};

    ghost Value = { CreateSessionRequest };

    ghost view = { λ v. record { client_description = v.client_description; server_uri = v.server_uri; endpoint_url = v.endpoint_url; session_name = v.session_name; client_nonce = v.client_nonce; client_certificate = v.client_certificate; requested_session_timeout = v.requested_session_timeout; max_response_message_size = v.max_response_message_size } };
}

impl<'a> Readable for CreateSessionRequestView<'a> {
    ghost reading = { create_session_request_reading };
}

#[tactic(auto, unfolding(crate::specs::Sessions::create_session_request_reading))]
impl<'a> View<'a> for CreateSessionRequestView<'a> {
    fn look(cursor: &mut Cursor<'a>) -> Result<CreateSessionRequestView<'a>, TakeFault> {
        Ok(CreateSessionRequestView {
            client_description: ApplicationDescriptionView::look(cursor)?,
            server_uri: TextView::look(cursor)?,
            endpoint_url: TextView::look(cursor)?,
            session_name: TextView::look(cursor)?,
            client_nonce: ByteStringView::look(cursor)?,
            client_certificate: ByteStringView::look(cursor)?,
            requested_session_timeout: Duration::look(cursor)?,
            max_response_message_size: u32::look(cursor)?,
        })
    }
}

/// A session that is not activated yet: the response to [`CreateSessionRequest`].
#[derive(Debug, Drop)]
pub struct CreateSessionResponse {
    pub response_header: ResponseHeader,
    /// The name of the session, by which anyone may speak of it.
    pub session_id: NodeId,
    /// The secret of the session, which each of its requests has in its header.
    pub authentication_token: NodeId,
    /// How long the session lives without a request, in milliseconds.
    pub revised_session_timeout: Duration,
    /// Random bytes that the client signs to activate the session.
    pub server_nonce: ByteString,
    /// Null where the mode is None.
    pub server_certificate: ByteString,
    /// The endpoints again, so that the client sees that nobody changed them on the way.
    pub server_endpoints: Array<EndpointDescription>,
    pub server_software_certificates: Array<SignedSoftwareCertificate>,
    pub server_signature: SignatureData,
    /// The largest request that the server takes, in bytes; 0 is no limit.
    pub max_request_message_size: u32,
}

#[tactic(auto, using(ua_binary::proofs::Fields::fields10), unfolding(crate::specs::Sessions::create_session_response_reading, crate::specs::Sessions::create_session_response_encoding))]
impl Wire for CreateSessionResponse {
    ghost reading = { create_session_response_reading };

    ghost encoding = { create_session_response_encoding };

    fn decode(alloc: Global, cursor: &mut Cursor<'_>) -> Result<CreateSessionResponse, TakeFault> {
        Ok(CreateSessionResponse {
            response_header: ResponseHeader::decode(alloc, cursor)?,
            session_id: NodeId::decode(alloc, cursor)?,
            authentication_token: NodeId::decode(alloc, cursor)?,
            revised_session_timeout: Duration::decode(alloc, cursor)?,
            server_nonce: ByteString::decode(alloc, cursor)?,
            server_certificate: ByteString::decode(alloc, cursor)?,
            server_endpoints: Array::<EndpointDescription>::decode(alloc, cursor)?,
            server_software_certificates: Array::<SignedSoftwareCertificate>::decode(
                alloc, cursor,
            )?,
            server_signature: SignatureData::decode(alloc, cursor)?,
            max_request_message_size: u32::decode(alloc, cursor)?,
        })
    }

    fn encode(&self, out: &mut Vec<u8>) -> Result<(), AllocError> {
        self.response_header.encode(out)?;
        self.session_id.encode(out)?;
        self.authentication_token.encode(out)?;
        self.revised_session_timeout.encode(out)?;
        self.server_nonce.encode(out)?;
        self.server_certificate.encode(out)?;
        self.server_endpoints.encode(out)?;
        self.server_software_certificates.encode(out)?;
        self.server_signature.encode(out)?;
        self.max_request_message_size.encode(out)?;
        Ok(())
    }
}

/// Says who the user of a session is, and moves the session to the connection that it comes by
/// (ActivateSession, IEC 62541-4, section 5, Session Service Set).
#[derive(Debug, Drop)]
pub struct ActivateSessionRequest {
    pub client_signature: SignatureData,
    pub client_software_certificates: Array<SignedSoftwareCertificate>,
    /// The languages in which the client likes to have texts, the best first.
    pub locale_ids: Array<Text>,
    /// Who the user is: an [`AnonymousIdentityToken`], or null, which means the same.
    pub user_identity_token: ExtensionObject,
    pub user_token_signature: SignatureData,
}

#[tactic(auto, using(ua_binary::proofs::Fields::fields5), unfolding(crate::specs::Sessions::activate_session_request_reading, crate::specs::Sessions::activate_session_request_encoding))]
impl Wire for ActivateSessionRequest {
    ghost reading = { activate_session_request_reading };

    ghost encoding = { activate_session_request_encoding };

    fn decode(alloc: Global, cursor: &mut Cursor<'_>) -> Result<ActivateSessionRequest, TakeFault> {
        Ok(ActivateSessionRequest {
            client_signature: SignatureData::decode(alloc, cursor)?,
            client_software_certificates: Array::<SignedSoftwareCertificate>::decode(
                alloc, cursor,
            )?,
            locale_ids: Array::<Text>::decode(alloc, cursor)?,
            user_identity_token: ExtensionObject::decode(alloc, cursor)?,
            user_token_signature: SignatureData::decode(alloc, cursor)?,
        })
    }

    fn encode(&self, out: &mut Vec<u8>) -> Result<(), AllocError> {
        self.client_signature.encode(out)?;
        self.client_software_certificates.encode(out)?;
        self.locale_ids.encode(out)?;
        self.user_identity_token.encode(out)?;
        self.user_token_signature.encode(out)?;
        Ok(())
    }
}

/// An [`ActivateSessionRequest`] in the bytes that it stands in.
#[derive(Debug, Drop)]
pub struct ActivateSessionRequestView<'a> {
    pub client_signature: SignatureDataView<'a>,
    pub client_software_certificates: ArrayView<'a, SignedSoftwareCertificateView<'a>>,
    /// The languages in which the client likes to have texts, the best first.
    pub locale_ids: ArrayView<'a, TextView<'a>>,
    /// Who the user is: an [`AnonymousIdentityTokenView`], or null, which means the same.
    pub user_identity_token: ExtensionObjectView<'a>,
    pub user_token_signature: SignatureDataView<'a>,
}

impl<'a> Model for ActivateSessionRequestView<'a> {
    ghost use Rattle.ua_service_messages.specs.declared.sessions.ActivateSessionRequest.{ActivateSessionRequest};

    ghost Value = { ActivateSessionRequest };

    ghost view = { λ v. record { client_signature = v.client_signature; client_software_certificates = v.client_software_certificates; locale_ids = v.locale_ids; user_identity_token = v.user_identity_token; user_token_signature = v.user_token_signature } };
}

impl<'a> Readable for ActivateSessionRequestView<'a> {
    ghost reading = { activate_session_request_reading };
}

#[tactic(auto, unfolding(crate::specs::Sessions::activate_session_request_reading))]
impl<'a> View<'a> for ActivateSessionRequestView<'a> {
    fn look(cursor: &mut Cursor<'a>) -> Result<ActivateSessionRequestView<'a>, TakeFault> {
        Ok(ActivateSessionRequestView {
            client_signature: SignatureDataView::look(cursor)?,
            client_software_certificates: ArrayView::<SignedSoftwareCertificateView<'a>>::look(
                cursor,
            )?,
            locale_ids: ArrayView::<TextView<'a>>::look(cursor)?,
            user_identity_token: ExtensionObjectView::look(cursor)?,
            user_token_signature: SignatureDataView::look(cursor)?,
        })
    }
}

/// The response to [`ActivateSessionRequest`].
#[derive(Debug, Drop)]
pub struct ActivateSessionResponse {
    pub response_header: ResponseHeader,
    /// Random bytes that the client signs when it activates the session again.
    pub server_nonce: ByteString,
    /// One outcome for each software certificate.
    pub results: Array<Status>,
    pub diagnostic_infos: DiagnosticInfos,
}

#[tactic(auto, using(ua_binary::proofs::Fields::fields4), unfolding(crate::specs::Sessions::activate_session_response_reading, crate::specs::Sessions::activate_session_response_encoding))]
impl Wire for ActivateSessionResponse {
    ghost reading = { activate_session_response_reading };

    ghost encoding = { activate_session_response_encoding };

    fn decode(
        alloc: Global,
        cursor: &mut Cursor<'_>,
    ) -> Result<ActivateSessionResponse, TakeFault> {
        Ok(ActivateSessionResponse {
            response_header: ResponseHeader::decode(alloc, cursor)?,
            server_nonce: ByteString::decode(alloc, cursor)?,
            results: Array::<Status>::decode(alloc, cursor)?,
            diagnostic_infos: DiagnosticInfos::decode(alloc, cursor)?,
        })
    }

    fn encode(&self, out: &mut Vec<u8>) -> Result<(), AllocError> {
        self.response_header.encode(out)?;
        self.server_nonce.encode(out)?;
        self.results.encode(out)?;
        self.diagnostic_infos.encode(out)?;
        Ok(())
    }
}

/// Ends a session (CloseSession, IEC 62541-4, section 5, Session Service Set).
#[derive(Debug, Drop)]
pub struct CloseSessionRequest {
    /// Whether the subscriptions of the session end with it.
    pub delete_subscriptions: bool,
}

#[tactic(auto, using(ua_binary::proofs::Fields::fields1), unfolding(crate::specs::Sessions::close_session_request_reading, crate::specs::Sessions::close_session_request_encoding))]
impl Wire for CloseSessionRequest {
    ghost reading = { close_session_request_reading };

    ghost encoding = { close_session_request_encoding };

    ghost spares_memory = { λ _. ⊤ };

    fn decode(alloc: Global, cursor: &mut Cursor<'_>) -> Result<CloseSessionRequest, TakeFault> {
        Ok(CloseSessionRequest {
            delete_subscriptions: bool::decode(alloc, cursor)?,
        })
    }

    fn encode(&self, out: &mut Vec<u8>) -> Result<(), AllocError> {
        self.delete_subscriptions.encode(out)?;
        Ok(())
    }
}

impl Readable for CloseSessionRequest {
    ghost reading = { close_session_request_reading };
}

#[tactic(auto, unfolding(crate::specs::Sessions::close_session_request_reading))]
impl<'a> View<'a> for CloseSessionRequest {
    fn look(cursor: &mut Cursor<'a>) -> Result<CloseSessionRequest, TakeFault> {
        Ok(CloseSessionRequest {
            delete_subscriptions: bool::look(cursor)?,
        })
    }
}

/// The response to [`CloseSessionRequest`].
#[derive(Debug, Drop)]
pub struct CloseSessionResponse {
    pub response_header: ResponseHeader,
}

#[tactic(auto, using(ua_binary::proofs::Fields::fields1), unfolding(crate::specs::Sessions::close_session_response_reading, crate::specs::Sessions::close_session_response_encoding))]
impl Wire for CloseSessionResponse {
    ghost reading = { close_session_response_reading };

    ghost encoding = { close_session_response_encoding };

    fn decode(alloc: Global, cursor: &mut Cursor<'_>) -> Result<CloseSessionResponse, TakeFault> {
        Ok(CloseSessionResponse {
            response_header: ResponseHeader::decode(alloc, cursor)?,
        })
    }

    fn encode(&self, out: &mut Vec<u8>) -> Result<(), AllocError> {
        self.response_header.encode(out)?;
        Ok(())
    }
}
