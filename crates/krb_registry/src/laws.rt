//! Lemmas about the numbers: each is what its standard says.

ghost use Rattle.std.specs.Prelude.{◌≡◌, ◌∷◌, []};
ghost use Rattle.std.specs.List.{range_with_len};

mod usages;

use crate::cksum_types::*;
use crate::cred_ssp::*;
use crate::error_codes::*;
use crate::etypes::*;
use crate::gss_api::*;
use crate::krb_priv::KRB_PRIV_VERSION;
use crate::types::*;
pub use usages::key_usages;

/// The types of messages (RFC 4120, 7.5.7), which rise by one within a run.
pub fn message_types()
    ensures exchanges { AS_REQ_MSG_TYPE ∷ AS_REP_MSG_TYPE ∷ TGS_REQ_MSG_TYPE ∷ TGS_REP_MSG_TYPE ∷ AP_REQ_MSG_TYPE ∷ AP_REP_MSG_TYPE
        ∷ TGT_REQ_MSG_TYPE ∷ TGT_REP_MSG_TYPE ∷ [] ≡ range_with_len 10 8 }
    ensures private_and_credentials { KRB_PRIV ∷ KRB_CRED_MSG_TYPE ∷ [] ≡ range_with_len 21 2 }
    ensures errors { KRB_ERROR_MSG_TYPE ∷ [] ≡ 30 ∷ [] }
{}

/// The application tags of tickets and of encrypted parts (RFC 4120, 5.10).
pub fn application_tags()
    ensures tickets { TICKET_TYPE ∷ AUTHENTICATOR_TYPE ∷ ENC_TICKET_PART_TYPE ∷ [] ≡ range_with_len 1 3 }
    ensures parts { ENC_AS_REP_PART_TYPE ∷ ENC_TGS_REP_PART_TYPE ∷ ENC_AP_REP_PART_TYPE ∷ KRB_PRIV_ENC_PART ∷ ENC_KRB_CRED_PART_TYPE
        ∷ [] ≡ range_with_len 25 5 }
{}

/// The types of names (RFC 4120, 6.2).
pub fn name_types()
    ensures run { NT_UNKNOWN ∷ NT_PRINCIPAL ∷ NT_SRV_INST ∷ NT_SRV_HST ∷ NT_SRV_XHST ∷ NT_UID ∷ NT_X500_PRINCIPAL ∷ NT_SMTP_NAME ∷ [] ≡ range_with_len 0 8 }
    ensures enterprise { NT_ENTERPRISE ∷ [] ≡ 10 ∷ [] }
{}

/// The types of addresses (RFC 4120, 7.5.3).
pub fn address_types()
    ensures all { IP_V4_ADDR_TYPE ∷ DIRECTIONAL_ADDR_TYPE ∷ CHAOS_NET_ADDR_TYPE ∷ XNS_ADDR_TYPE ∷ ISO_ADDR_TYPE ∷ DECNET_PHASE_IV_ADDR_TYPE
        ∷ APPLETALK_DDP_ADDR_TYPE ∷ NET_BIOS_ADDR_TYPE ∷ IP_V6_ADDR_TYPE ∷ [] ≡ 2 ∷ 3 ∷ 5 ∷ 6 ∷ 7 ∷ 12 ∷ 16 ∷ 20 ∷ 24 ∷ [] }
{}

/// The types that are given as the octets of an INTEGER (RFC 4120, 7.5.2; RFC 4556, 3.1.3; MS-KILE, 2.2 and 3.2.5.8).
pub fn octets_of_types()
    ensures pa_enc_timestamp { PA_ENC_TIMESTAMP ≡ 2 ∷ [] }
    ensures pa_pac_request_type { PA_PAC_REQUEST_TYPE ≡ 0 ∷ 128 ∷ [] }
    ensures pa_etype_info2_type { PA_ETYPE_INFO2_TYPE ≡ 19 ∷ [] }
    ensures pa_tgs_req_type { PA_TGS_REQ_TYPE ≡ 1 ∷ [] }
    ensures pa_pac_options_type { PA_PAC_OPTIONS_TYPE ≡ 0 ∷ 167 ∷ [] }
    ensures pa_pk_as_req { PA_PK_AS_REQ ≡ 16 ∷ [] }
    ensures pa_pk_as_rep { PA_PK_AS_REP ≡ 17 ∷ [] }
    ensures ad_auth_data_ap_option_type { AD_AUTH_DATA_AP_OPTION_TYPE ≡ 0 ∷ 143 ∷ [] }
    ensures kerb_ap_options_cbt { KERB_AP_OPTIONS_CBT ≡ 64 ∷ 0 ∷ [] }
{}

/// The octets of GSS tokens (RFC 4121, 4.1 and 4.2.6; RFC 4178, 4.2.2).
pub fn gss_octets()
    ensures ap_req_token_id { AP_REQ_TOKEN_ID ≡ 1 ∷ 0 ∷ [] }
    ensures ap_rep_token_id { AP_REP_TOKEN_ID ≡ 2 ∷ 0 ∷ [] }
    ensures tgt_req_token_id { TGT_REQ_TOKEN_ID ≡ 4 ∷ 0 ∷ [] }
    ensures tgt_rep_token_id { TGT_REP_TOKEN_ID ≡ 4 ∷ 1 ∷ [] }
    ensures as_req_token_id { AS_REQ_TOKEN_ID ≡ 5 ∷ 0 ∷ [] }
    ensures as_rep_token_id { AS_REP_TOKEN_ID ≡ 6 ∷ 0 ∷ [] }
    ensures mic_token_id { MIC_TOKEN_ID ≡ 4 ∷ 4 ∷ [] }
    ensures wrap_token_id { WRAP_TOKEN_ID ≡ 5 ∷ 4 ∷ [] }
    ensures iakerb_proxy_token_id { IAKERB_PROXY_TOKEN_ID ≡ 5 ∷ 1 ∷ [] }
    ensures accept_complete { ACCEPT_COMPLETE ≡ 10 ∷ 1 ∷ 0 ∷ [] }
    ensures accept_incomplete { ACCEPT_INCOMPLETE ≡ 10 ∷ 1 ∷ 1 ∷ [] }
    ensures mic_filler { MIC_FILLER ≡ 255 ∷ 255 ∷ 255 ∷ 255 ∷ 255 ∷ [] }
    ensures authenticator_checksum_type { AUTHENTICATOR_CHECKSUM_TYPE ≡ 0 ∷ 128 ∷ 3 ∷ [] }
    ensures wrap_filler { WRAP_FILLER ≡ 255 }
{}

/// The numbers of encryption types (RFC 3961, 8; RFC 3962, 7; RFC 8009, 7; RFC 4757, 5).
pub fn encryption_types()
    ensures all { DES3_CBC_MD5 ∷ DES3_CBC_SHA1 ∷ DES3_CBC_SHA1_KD ∷ AES128_CTS_HMAC_SHA1_96 ∷ AES256_CTS_HMAC_SHA1_96
        ∷ AES128_CTS_HMAC_SHA256_128 ∷ AES256_CTS_HMAC_SHA384_192 ∷ RC4_HMA ∷ [] ≡ 5 ∷ 7 ∷ 16 ∷ 17 ∷ 18 ∷ 19 ∷ 20 ∷ 23 ∷ [] }
{}

/// The numbers of checksum types (RFC 3961, 8; RFC 3962, 7; RFC 8009, 7).
pub fn checksum_types()
    ensures unkeyed_and_des { CRC32 ∷ RSA_MD4 ∷ RSA_MD4_DES ∷ DES_MAC ∷ DES_MAC_K ∷ RSA_MD4_DES_K ∷ RSA_MD5 ∷ RSA_MD5_DES ∷ RSA_MD5_DES3
        ∷ [] ≡ range_with_len 1 9 }
    ensures triple_des { HMAC_SHA1_DES3_KD ∷ HMAC_SHA1_DES3 ∷ [] ≡ range_with_len 12 2 }
    ensures aes { HMAC_SHA1_96_AES128 ∷ HMAC_SHA1_96_AES256 ∷ [] ≡ range_with_len 15 2 }
    ensures aes_with_sha2 { HMAC_SHA256_128_AES128 ∷ HMAC_SHA384_192_AES256 ∷ [] ≡ range_with_len 19 2 }
{}

/// The numbers of delegated credentials (MS-CSSP, 2.2.1.2).
pub fn delegated_credentials()
    ensures credentials { TS_PASSWORD_CREDS ∷ TS_SMART_CARD_CREDS ∷ TS_REMOTE_GUARD_CREDS ∷ [] ≡ 1 ∷ 2 ∷ 6 ∷ [] }
    ensures key_specifications { AT_KEYEXCHANGE ∷ AT_SIGNATURE ∷ [] ≡ range_with_len 1 2 }
{}

/// The version of a change-password frame (RFC 3244, 2).
pub fn password_frame()
    ensures krb_priv_version { KRB_PRIV_VERSION ≡ 0 ∷ 1 ∷ [] }
{}

/// The error codes (RFC 4120, 7.5.9; draft-ietf-kitten-iakerb-03, 3), which rise by one within a run.
pub fn error_codes()
    ensures kdc { KDC_ERR_NONE ∷ KDC_ERR_NAME_EXP ∷ KDC_ERR_SERVICE_EXP ∷ KDC_ERR_BAD_PVNO ∷ KDC_ERR_C_OLD_MAST_KVNO
        ∷ KDC_ERR_S_OLD_MAST_KVNO ∷ KDC_ERR_C_PRINCIPAL_UNKNOWN ∷ KDC_ERR_S_PRINCIPAL_UNKNOWN ∷ KDC_ERR_PRINCIPAL_NOT_UNIQUE
        ∷ KDC_ERR_NULL_KEY ∷ KDC_ERR_CANNOT_POSTDATE ∷ KDC_ERR_NEVER_VALID ∷ KDC_ERR_POLICY ∷ KDC_ERR_BADOPTION ∷ KDC_ERR_ETYPE_NOSUPP
        ∷ KDC_ERR_SUMTYPE_NOSUPP ∷ KDC_ERR_PADATA_TYPE_NOSUPP ∷ KDC_ERR_TRTYPE_NOSUPP ∷ KDC_ERR_CLIENT_REVOKED ∷ KDC_ERR_SERVICE_REVOKED
        ∷ KDC_ERR_TGT_REVOKED ∷ KDC_ERR_CLIENT_NOTYET ∷ KDC_ERR_SERVICE_NOTYET ∷ KDC_ERR_KEY_EXPIRED ∷ KDC_ERR_PREAUTH_FAILED
        ∷ KDC_ERR_PREAUTH_REQUIRED ∷ KDC_ERR_SERVER_NOMATCH ∷ KDC_ERR_MUST_USE_USER2USER ∷ KDC_ERR_PATH_NOT_ACCEPTED
        ∷ KDC_ERR_SVC_UNAVAILABLE ∷ [] ≡ range_with_len 0 30 }
    ensures application { KRB_AP_ERR_BAD_INTEGRITY ∷ KRB_AP_ERR_TKT_EXPIRED ∷ KRB_AP_ERR_TKT_NYV ∷ KRB_AP_ERR_REPEAT ∷ KRB_AP_ERR_NOT_US
        ∷ KRB_AP_ERR_BADMATCH ∷ KRB_AP_ERR_SKEW ∷ KRB_AP_ERR_BADADDR ∷ KRB_AP_ERR_BADVERSION ∷ KRB_AP_ERR_MSG_TYPE ∷ KRB_AP_ERR_MODIFIED
        ∷ KRB_AP_ERR_BADORDER ∷ [] ≡ range_with_len 31 12 }
    ensures messages { KRB_AP_ERR_BADKEYVER ∷ KRB_AP_ERR_NOKEY ∷ KRB_AP_ERR_MUT_FAIL ∷ KRB_AP_ERR_BADDIRECTION ∷ KRB_AP_ERR_METHOD
        ∷ KRB_AP_ERR_BADSEQ ∷ KRB_AP_ERR_INAPP_CKSUM ∷ KRB_AP_PATH_NOT_ACCEPTED ∷ KRB_ERR_RESPONSE_TOO_BIG ∷ [] ≡ range_with_len 44 9 }
    ensures general { KRB_ERR_GENERIC ∷ KRB_ERR_FIELD_TOOLONG ∷ KDC_ERROR_CLIENT_NOT_TRUSTED ∷ KDC_ERROR_KDC_NOT_TRUSTED
        ∷ KDC_ERROR_INVALID_SIG ∷ KDC_ERR_KEY_TOO_WEAK ∷ KDC_ERR_CERTIFICATE_MISMATCH ∷ KRB_AP_ERR_NO_TGT ∷ KDC_ERR_WRONG_REALM
        ∷ KRB_AP_ERR_USER_TO_USER_REQUIRED ∷ KDC_ERR_CANT_VERIFY_CERTIFICATE ∷ KDC_ERR_INVALID_CERTIFICATE ∷ KDC_ERR_REVOKED_CERTIFICATE
        ∷ KDC_ERR_REVOCATION_STATUS_UNKNOWN ∷ KDC_ERR_REVOCATION_STATUS_UNAVAILABLE ∷ KDC_ERR_CLIENT_NAME_MISMATCH
        ∷ KDC_ERR_KDC_NAME_MISMATCH ∷ [] ≡ range_with_len 60 17 }
    ensures iakerb { KRB_AP_ERR_IAKERB_KDC_NOT_FOUND ∷ KRB_AP_ERR_IAKERB_KDC_NO_RESPONSE ∷ [] ≡ range_with_len 85 2 }
{}
