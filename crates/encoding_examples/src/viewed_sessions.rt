//! Copies of what the requests of endpoints and sessions hold.

use crate::viewed::{Viewed, copies};
use std::alloc::{AllocError, Global};
use ua_messages::{
    ApplicationDescription, ApplicationDescriptionView, GetEndpointsRequest,
    GetEndpointsRequestView,
};
use ua_service_messages::{
    ActivateSessionRequest, ActivateSessionRequestView, AnonymousIdentityToken,
    AnonymousIdentityTokenView, CloseSessionRequest, CreateSessionRequest,
    CreateSessionRequestView, SignatureData, SignatureDataView, SignedSoftwareCertificate,
    SignedSoftwareCertificateView,
};

impl<'a> Viewed<'a> for ApplicationDescriptionView<'a> {
    type Value = ApplicationDescription;

    fn copied(self, alloc: Global) -> Result<ApplicationDescription, AllocError> {
        Ok(ApplicationDescription {
            application_uri: self.application_uri.copied(alloc)?,
            product_uri: self.product_uri.copied(alloc)?,
            application_name: self.application_name.copied(alloc)?,
            application_type: self.application_type,
            gateway_server_uri: self.gateway_server_uri.copied(alloc)?,
            discovery_profile_uri: self.discovery_profile_uri.copied(alloc)?,
            discovery_urls: copies(alloc, self.discovery_urls)?,
        })
    }
}

impl<'a> Viewed<'a> for GetEndpointsRequestView<'a> {
    type Value = GetEndpointsRequest;

    fn copied(self, alloc: Global) -> Result<GetEndpointsRequest, AllocError> {
        Ok(GetEndpointsRequest {
            endpoint_url: self.endpoint_url.copied(alloc)?,
            locale_ids: copies(alloc, self.locale_ids)?,
            profile_uris: copies(alloc, self.profile_uris)?,
        })
    }
}

impl<'a> Viewed<'a> for SignatureDataView<'a> {
    type Value = SignatureData;

    fn copied(self, alloc: Global) -> Result<SignatureData, AllocError> {
        Ok(SignatureData {
            algorithm: self.algorithm.copied(alloc)?,
            signature: self.signature.copied(alloc)?,
        })
    }
}

impl<'a> Viewed<'a> for SignedSoftwareCertificateView<'a> {
    type Value = SignedSoftwareCertificate;

    fn copied(self, alloc: Global) -> Result<SignedSoftwareCertificate, AllocError> {
        Ok(SignedSoftwareCertificate {
            certificate_data: self.certificate_data.copied(alloc)?,
            signature: self.signature.copied(alloc)?,
        })
    }
}

impl<'a> Viewed<'a> for AnonymousIdentityTokenView<'a> {
    type Value = AnonymousIdentityToken;

    fn copied(self, alloc: Global) -> Result<AnonymousIdentityToken, AllocError> {
        Ok(AnonymousIdentityToken {
            policy_id: self.policy_id.copied(alloc)?,
        })
    }
}

impl<'a> Viewed<'a> for CreateSessionRequestView<'a> {
    type Value = CreateSessionRequest;

    fn copied(self, alloc: Global) -> Result<CreateSessionRequest, AllocError> {
        Ok(CreateSessionRequest {
            client_description: self.client_description.copied(alloc)?,
            server_uri: self.server_uri.copied(alloc)?,
            endpoint_url: self.endpoint_url.copied(alloc)?,
            session_name: self.session_name.copied(alloc)?,
            client_nonce: self.client_nonce.copied(alloc)?,
            client_certificate: self.client_certificate.copied(alloc)?,
            requested_session_timeout: self.requested_session_timeout,
            max_response_message_size: self.max_response_message_size,
        })
    }
}

impl<'a> Viewed<'a> for ActivateSessionRequestView<'a> {
    type Value = ActivateSessionRequest;

    fn copied(self, alloc: Global) -> Result<ActivateSessionRequest, AllocError> {
        Ok(ActivateSessionRequest {
            client_signature: self.client_signature.copied(alloc)?,
            client_software_certificates: copies(alloc, self.client_software_certificates)?,
            locale_ids: copies(alloc, self.locale_ids)?,
            user_identity_token: self.user_identity_token.copied(alloc)?,
            user_token_signature: self.user_token_signature.copied(alloc)?,
        })
    }
}

impl<'a> Viewed<'a> for CloseSessionRequest {
    type Value = CloseSessionRequest;

    fn copied(self, _alloc: Global) -> Result<CloseSessionRequest, AllocError> {
        Ok(CloseSessionRequest {
            delete_subscriptions: self.delete_subscriptions,
        })
    }
}
