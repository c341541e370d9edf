//! Lemmas: functions with no body, whose contracts state what holds of the definitions.

ghost use Rattle.std.specs.Prelude.{◌≡◌, ℕ, List};
ghost use Rattle.krb_kdc_proxy.specs.Client.{IsNoProxyReply, IsProxyReply};
ghost use Rattle.krb_kdc_proxy.specs.Lenient.{IsLenientRequest, IsNoLenientRequest};
ghost use Rattle.krb_kdc_proxy.specs.Replies.{reply_types};
ghost use Rattle.krb_kdc_proxy.specs.Requests.{IsNoRequest, IsRequest, asked_by, types};
ghost use Rattle.krb_kdc_proxy.specs.Streams.{IsPosting};
ghost use Rattle.krb_kdc_proxy.specs.declared.client.ProxyReply.{ProxyReply};
ghost use Rattle.krb_kdc_proxy.specs.declared.error.ProxyError.{ProxyError};
ghost use Rattle.krb_kdc_proxy.specs.declared.lenient.LenientRequest.{LenientRequest};
ghost use Rattle.krb_kdc_proxy.specs.declared.request.ProxyRequest.{ProxyRequest};

use krb_der::DerEncode;
use krb_messages::messages::{
    ApRep, ApReq, AsRep, AsReq, KdcProxyMessage, KrbError, KrbPriv, TgsRep, TgsReq,
};

/// Octets are one request at most, and where they are one they are not refused, unless memory is wanting. So what `write_request` writes `read_request` reads
/// as the request for the same message, realm and hint.
pub fn requests()
    ensures same { (octets : List ℕ) (r s : ProxyRequest)
        → IsRequest ⟦<KdcProxyMessage as DerEncode>⟧
        (types ⟦<AsReq as DerEncode>⟧ ⟦<TgsReq as DerEncode>⟧ ⟦<ApReq as DerEncode>⟧ ⟦<KrbPriv as DerEncode>⟧) octets r
        → IsRequest ⟦<KdcProxyMessage as DerEncode>⟧
        (types ⟦<AsReq as DerEncode>⟧ ⟦<TgsReq as DerEncode>⟧ ⟦<ApReq as DerEncode>⟧ ⟦<KrbPriv as DerEncode>⟧) octets s
        → (asked_by r ≡ asked_by s) × (r.target_domain ≡ s.target_domain) × (r.hint ≡ s.hint)
        × (r.stream.now ≡ s.stream.now) × (r.datagram.now ≡ s.datagram.now) × (r.offset ≡ s.offset) }
    ensures read { (octets : List ℕ) (r : ProxyRequest) (error : ProxyError)
        → IsRequest ⟦<KdcProxyMessage as DerEncode>⟧
        (types ⟦<AsReq as DerEncode>⟧ ⟦<TgsReq as DerEncode>⟧ ⟦<ApReq as DerEncode>⟧ ⟦<KrbPriv as DerEncode>⟧) octets r
        → IsNoRequest ⟦<KdcProxyMessage as DerEncode>⟧
        (types ⟦<AsReq as DerEncode>⟧ ⟦<TgsReq as DerEncode>⟧ ⟦<ApReq as DerEncode>⟧ ⟦<KrbPriv as DerEncode>⟧)
        octets error → ⊥ }
{}

/// What `read_request` takes `read_request_lenient` takes as the same, unless memory is wanting.
pub fn lenient_requests()
    ensures same { (octets : List ℕ) (r : ProxyRequest) (s : LenientRequest)
        → IsRequest ⟦<KdcProxyMessage as DerEncode>⟧
        (types ⟦<AsReq as DerEncode>⟧ ⟦<TgsReq as DerEncode>⟧ ⟦<ApReq as DerEncode>⟧ ⟦<KrbPriv as DerEncode>⟧) octets r
        → IsLenientRequest ⟦<KdcProxyMessage as DerEncode>⟧ octets s
        → (r.service ≡ s.service) × (r.target_domain ≡ s.target_domain) × (r.hint ≡ s.hint)
        × (r.stream.now ≡ s.stream.now) × (r.datagram.now ≡ s.datagram.now) × (r.offset ≡ s.offset) }
    ensures read { (octets : List ℕ) (r : ProxyRequest) (error : ProxyError)
        → IsRequest ⟦<KdcProxyMessage as DerEncode>⟧
        (types ⟦<AsReq as DerEncode>⟧ ⟦<TgsReq as DerEncode>⟧ ⟦<ApReq as DerEncode>⟧ ⟦<KrbPriv as DerEncode>⟧) octets r
        → IsNoLenientRequest ⟦<KdcProxyMessage as DerEncode>⟧ octets error → ⊥ }
{}

/// What `write_reply` and `write_reply_datagram` write `read_reply` reads as the same reply, and refuses only where memory is wanting.
pub fn replies()
    ensures same { (stream datagram octets : List ℕ) (r : ProxyReply)
        (posted : IsPosting ⟦<KdcProxyMessage as DerEncode>⟧
        (reply_types ⟦<AsRep as DerEncode>⟧ ⟦<TgsRep as DerEncode>⟧ ⟦<KrbError as DerEncode>⟧ ⟦<ApRep as DerEncode>⟧ ⟦<KrbPriv as DerEncode>⟧)
        stream datagram octets)
        → IsProxyReply ⟦<KdcProxyMessage as DerEncode>⟧
        (reply_types ⟦<AsRep as DerEncode>⟧ ⟦<TgsRep as DerEncode>⟧ ⟦<KrbError as DerEncode>⟧ ⟦<ApRep as DerEncode>⟧ ⟦<KrbPriv as DerEncode>⟧) octets r
        → (r.stream.now ≡ stream) × (r.datagram.now ≡ datagram) × (r.reply ≡ posted.reply) }
    ensures read { (stream datagram octets : List ℕ) (error : ProxyError)
        → IsPosting ⟦<KdcProxyMessage as DerEncode>⟧
        (reply_types ⟦<AsRep as DerEncode>⟧ ⟦<TgsRep as DerEncode>⟧ ⟦<KrbError as DerEncode>⟧ ⟦<ApRep as DerEncode>⟧ ⟦<KrbPriv as DerEncode>⟧)
        stream datagram octets
        → IsNoProxyReply ⟦<KdcProxyMessage as DerEncode>⟧
        (reply_types ⟦<AsRep as DerEncode>⟧ ⟦<TgsRep as DerEncode>⟧ ⟦<KrbError as DerEncode>⟧ ⟦<ApRep as DerEncode>⟧ ⟦<KrbPriv as DerEncode>⟧)
        octets error → ⊥ }
{}
