//! The numbers of key usages.

ghost use Rattle.std.specs.Prelude.{◌≡◌, ◌∷◌, [], map, pos};
ghost use Rattle.std.specs.List.{range_with_len};

use crate::key_usages::*;
use crate::types::PA_ENC_TIMESTAMP_KEY_USAGE;

/// The key usage numbers (RFC 4120, 7.5.1; RFC 4121, 2; draft-zhu-pku2u-04, 6).
pub fn key_usages()
    ensures exchanges { AS_REQ_TIMESTAMP ∷ TICKET_REP ∷ AS_REP_ENC ∷ TGS_REQ_AUTH_DATA_SESSION_KEY ∷ TGS_REQ_AUTH_DATA_SUB_KEY
        ∷ TGS_REQ_PA_DATA_AP_REQ_AUTHENTICATOR_CKSUM ∷ TGS_REQ_PA_DATA_AP_REQ_AUTHENTICATOR ∷ TGS_REP_ENC_SESSION_KEY ∷ TGS_REP_ENC_SUB_KEY
        ∷ AP_REQ_AUTHENTICATOR_CKSUM ∷ AP_REQ_AUTHENTICATOR ∷ AP_REP_ENC ∷ KRB_PRIV_ENC_PART ∷ KRB_CRED_ENC_PART
        ∷ [] ≡ map pos (range_with_len 1 14) }
    ensures tokens { ACCEPTOR_SEAL ∷ ACCEPTOR_SIGN ∷ INITIATOR_SEAL ∷ INITIATOR_SIGN ∷ [] ≡ map pos (range_with_len 22 4) }
    ensures finished { KEY_USAGE_FINISHED ≡ pos 41 }
    ensures pa_enc_timestamp { PA_ENC_TIMESTAMP_KEY_USAGE ≡ AS_REQ_TIMESTAMP }
{}
