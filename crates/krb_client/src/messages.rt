//! The messages of the exchanges, by their encodings.

ghost use Rattle.krb_client.specs.Types.{InitialTypes, ServiceTypes};

use krb_der::{Asn1SequenceOf, DerEncode};
use krb_enc_parts::data_types::Authenticator;
use krb_messages::messages::{
    ApReq, AsRep, AsReq, EncAsRepPart, EncTgsRepPart, KdcReqBody, KrbError, TgsRep, TgsReq,
};
use krb_types::data_types::{EncryptedData, EtypeInfo2, PaData, PaEncTsEnc};

/// How the messages of the exchanges are encoded.
pub trait Encodings {
    // Those of an exchange for a first ticket.
    ghost initial: { InitialTypes };

    // Those of an exchange for a further ticket.
    ghost service: { ServiceTypes };
}

/// The messages of RFC 4120, by DER (X.690, 10).
pub struct Rfc4120;

impl Encodings for Rfc4120 {
    ghost initial = { record {
      as_req = ⟦<AsReq as DerEncode>⟧;
      as_rep = ⟦<AsRep as DerEncode>⟧;
      part = ⟦<EncAsRepPart as DerEncode>⟧;
      other_part = ⟦<EncTgsRepPart as DerEncode>⟧;
      krb_error = ⟦<KrbError as DerEncode>⟧;
      stamps = ⟦<PaEncTsEnc as DerEncode>⟧;
      encrypted = ⟦<EncryptedData as DerEncode>⟧;
      lists = ⟦<Asn1SequenceOf<PaData> as DerEncode>⟧;
      infos = ⟦<EtypeInfo2 as DerEncode>⟧;
    } };

    ghost service = { record {
      tgs_req = ⟦<TgsReq as DerEncode>⟧;
      bodies = ⟦<KdcReqBody as DerEncode>⟧;
      applications = ⟦<ApReq as DerEncode>⟧;
      authenticators = ⟦<Authenticator as DerEncode>⟧;
      tgs_rep = ⟦<TgsRep as DerEncode>⟧;
      part = ⟦<EncTgsRepPart as DerEncode>⟧;
      krb_error = ⟦<KrbError as DerEncode>⟧;
    } };
}
