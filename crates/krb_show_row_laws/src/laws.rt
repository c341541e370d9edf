//! Laws.

ghost use Rattle.std.specs.Prelude.{◌≡◌, ℕ, Bool, List, codes, true};
ghost use Rattle.krb_schema.specs.declared.shape.Name.{Name};
ghost use Rattle.krb_schema.specs.declared.shape.Role.TheVariants as roles;
ghost use Rattle.krb_schema.specs.declared.shape.Schema.{Schema};
ghost use Rattle.krb_schema.specs.Named.{IsKerberos};
ghost use Rattle.krb_show_row_laws.specs.Firsts.{Kinds};
ghost use Rattle.krb_show_row_laws.specs.Formats.{FormatsTell};
ghost use Rattle.krb_show_row_laws.specs.Laws.{IsNoLeafRow, IsReply, IsTold, IsToldAt, NamedElementsTell, NamedTextTells, ReplyTextTells, TextTellsOctets};
ghost use Rattle.krb_show_row_laws.specs.Telling.{is_name};
ghost use Rattle.krb_show_row_laws.specs.Texts.{TextTells};
ghost use Rattle.krb_show_row_laws.specs.Ties.{HasItsRow, PagesHaveErrors, RepliesHaveErrors, RepliesTakeEncodings, RowHasErrors, RowTakesEncodings};

use krb_credssp::credssp::{
    TsCredentials, TsCspDataDetail, TsPasswordCreds, TsRemoteGuardCreds, TsRemoteGuardPackageCred,
    TsSmartCardCreds,
};
use krb_der::{Asn1SequenceOf, DerEncode};
use krb_der_x509::{AlgorithmIdentifier, SubjectPublicKeyInfo};
use krb_enc_parts::data_types::{
    Authenticator, EncApRepPart, EncKrbCredPart, EncKrbPrivPart, EncTicketPart, KrbCredInfo,
};
use krb_gss_tokens::iakerb_header::messages::IAKerbHeader;
use krb_messages::messages::{
    ApRep, ApReq, AsRep, AsReq, EncAsRepPart, EncTgsRepPart, KdcProxyMessage, KdcReqBody, KrbCred,
    KrbError, KrbPriv, TgsRep, TgsReq, TgtRep, TgtReq,
};
use krb_pkinit::pkinit::{
    DhAuthPack, DhDomainParameters, DhRepInfo, DhReqInfo, EcAuthPack, ExternalPrincipalIdentifier,
    KdcDhKeyInfo, KrbFinished, PaPkAsRep, PaPkAsReq, PkAuthenticator, Pku2uNegoBody, Pku2uNegoRep,
    Pku2uNegoReq, Pku2uNegoReqMetadata, ValidationParams,
};
use krb_show::{NoFormats, Show, ShowsFormats};
use krb_show_messages::{KerberosFormats, Message};
use krb_types::data_types::{
    AuthorizationData, ChangePasswdData, Checksum, EncryptedData, EncryptionKey, EtypeInfo2,
    EtypeInfo2Entry, HostAddress, HostAddresses, KerbAdRestrictionEntry, KerbErrorData,
    KerbPaPacRequest, LastReq, PaData, PaEncTsEnc, PaPacOptions, PrincipalName, Ticket,
    TransitedEncoding,
};

/// The text of a page by a row of a table tells the octets, secrets shown: two inputs of one row whose pages have one text are the same octets. The
/// table passes a test (the lines of the fields of each SEQUENCE, and what the cases of an OCTET STRING hold, are told apart by their first lines), and
/// formats that are no DER tell their octets.
#[tactic(auto, using(crate::proofs::TextLaws::text_tells))]
pub fn texts_of_rows_tell_octets<F: ShowsFormats>()
    ensures { (kinds : Kinds) (covers : ℕ → Bool) (schema : Schema) (is : ℕ) (name : Name) → FormatsTell kinds F.tells
        → IsTold kinds covers schema → IsToldAt kinds covers schema is name → is_name name.text.now ≡ true → TextTellsOctets F.tells schema is name }
{}

/// That law for the table of Kerberos, where octets of formats that are no DER are shown as octets: for each of its rows.
pub fn texts_without_formats_tell_octets()
    ensures { (schema : Schema) (is : ℕ) (name : Name) → IsKerberos schema → is_name name.text.now ≡ true
        → TextTellsOctets ⟦<NoFormats as ShowsFormats>⟧.tells schema is name }
{}

/// That law for the table of Kerberos with the formats of its messages that are no DER (a PAC, the checksum of the GSS-API, a message behind its length):
/// for each of its rows, where the outermost element is itself of no format.
pub fn texts_of_kerberos_tell_octets()
    ensures { (schema : Schema) (is : ℕ) (name : Name) → IsKerberos schema → is_name name.text.now ≡ true → name.role ≡ roles.None
        → TextTellsOctets ⟦<KerberosFormats as ShowsFormats>⟧.tells schema is name }
{}

/// Two inputs whose pages by the row of one name have one text are the same octets, also where they are no elements of the row, which are shown as octets.
/// The row is none of elements without elements; of such a row, as OCTET STRING, both inputs have to be elements.
pub fn texts_of_named_rows_tell_octets()
    ensures named { (row_name text : List ℕ) → IsNoLeafRow row_name → is_name text ≡ true
        → NamedTextTells ⟦<KerberosFormats as ShowsFormats>⟧.tells row_name text }
    ensures elements { (row_name text : List ℕ) → is_name text ≡ true → NamedElementsTell ⟦<KerberosFormats as ShowsFormats>⟧.tells row_name text }
{}

/// Two inputs whose pages in the place of a PA-PK-AS-REP (RFC 4556, 3.2.3) have one text are the same octets: of encodings of PA-PK-AS-REPs, and of
/// octets that do not begin as an encKeyPack.
pub fn texts_of_replies_tell_octets()
    ensures told { ReplyTextTells }
    ensures dh_info { (v : _) → IsReply (⟦<PaPkAsRep as DerEncode>⟧.enc (PaPkAsRep.DhInfo v)) }
    ensures enc_key_pack { (v : List ℕ) → IsReply (⟦<PaPkAsRep as DerEncode>⟧.enc (PaPkAsRep.EncKeyPack v)) }
{}

/// Two headers of IAKERB (draft-ietf-kitten-iakerb-03, 3) whose pages have one text are equal.
pub fn texts_of_headers_tell_values()
    ensures { TextTells ⟦<IAKerbHeader as DerEncode>⟧ ⟦<IAKerbHeader as Show<Message>>⟧ }
{}

/// The rows of the types that messages share, and of pre-authentication (RFC 4120, 5.2 and 5.3), allow the encodings of these types and no others, and the
/// first fault of others is the type's first error.
pub fn rows_of_data_types()
    ensures principal_name { HasItsRow ⟦<PrincipalName as DerEncode>⟧ (codes "PrincipalName") }
    ensures host_address { HasItsRow ⟦<HostAddress as DerEncode>⟧ (codes "HostAddress") }
    ensures host_addresses { HasItsRow ⟦<HostAddresses as DerEncode>⟧ (codes "HostAddresses") }
    ensures authorization_data { HasItsRow ⟦<AuthorizationData as DerEncode>⟧ (codes "AuthorizationData") }
    ensures encrypted_data { HasItsRow ⟦<EncryptedData as DerEncode>⟧ (codes "EncryptedData") }
    ensures encryption_key { HasItsRow ⟦<EncryptionKey as DerEncode>⟧ (codes "EncryptionKey") }
    ensures checksum { HasItsRow ⟦<Checksum as DerEncode>⟧ (codes "Checksum") }
    ensures transited_encoding { HasItsRow ⟦<TransitedEncoding as DerEncode>⟧ (codes "TransitedEncoding") }
    ensures last_req { HasItsRow ⟦<LastReq as DerEncode>⟧ (codes "LastReq") }
    ensures pa_data { HasItsRow ⟦<PaData as DerEncode>⟧ (codes "PA-DATA") }
    ensures pa_enc_ts_enc { HasItsRow ⟦<PaEncTsEnc as DerEncode>⟧ (codes "PA-ENC-TS-ENC") }
    ensures etype_info2_entry { HasItsRow ⟦<EtypeInfo2Entry as DerEncode>⟧ (codes "ETYPE-INFO2-ENTRY") }
    ensures etype_info2 { HasItsRow ⟦<EtypeInfo2 as DerEncode>⟧ (codes "ETYPE-INFO2") }
    ensures pac_request { HasItsRow ⟦<KerbPaPacRequest as DerEncode>⟧ (codes "KERB-PA-PAC-REQUEST") }
    ensures pac_options { HasItsRow ⟦<PaPacOptions as DerEncode>⟧ (codes "PA-PAC-OPTIONS") }
    ensures error_data { HasItsRow ⟦<KerbErrorData as DerEncode>⟧ (codes "KERB-ERROR-DATA") }
    ensures restriction { HasItsRow ⟦<KerbAdRestrictionEntry as DerEncode>⟧ (codes "KERB-AD-RESTRICTION-ENTRY") }
    ensures password { HasItsRow ⟦<ChangePasswdData as DerEncode>⟧ (codes "ChangePasswdData") }
    ensures ticket { HasItsRow ⟦<Ticket as DerEncode>⟧ (codes "Ticket") }
    ensures method_data { HasItsRow ⟦<Asn1SequenceOf<PaData> as DerEncode>⟧ (codes "METHOD-DATA") }
{}

/// The rows of the encrypted parts of tickets, of requests and of replies of a server (RFC 4120, 5.3 to 5.8) allow the encodings of these types and no others,
/// and the first fault of others is the type's first error.
pub fn rows_of_parts()
    ensures authenticator { HasItsRow ⟦<Authenticator as DerEncode>⟧ (codes "Authenticator") }
    ensures enc_ticket_part { HasItsRow ⟦<EncTicketPart as DerEncode>⟧ (codes "EncTicketPart") }
    ensures enc_ap_rep_part { HasItsRow ⟦<EncApRepPart as DerEncode>⟧ (codes "EncAPRepPart") }
    ensures enc_krb_priv_part { HasItsRow ⟦<EncKrbPrivPart as DerEncode>⟧ (codes "EncKrbPrivPart") }
    ensures enc_krb_cred_part { HasItsRow ⟦<EncKrbCredPart as DerEncode>⟧ (codes "EncKrbCredPart") }
    ensures krb_cred_info { HasItsRow ⟦<KrbCredInfo as DerEncode>⟧ (codes "KrbCredInfo") }
{}

/// The rows of messages, and of the parts of replies of a KDC (RFC 4120, 5.4 to 5.9; MS-KKDCP, 2.2.2), allow the encodings of these types and no others, and
/// the first fault of others is the type's first error.
pub fn rows_of_messages()
    ensures as_req { HasItsRow ⟦<AsReq as DerEncode>⟧ (codes "AS-REQ") }
    ensures as_rep { HasItsRow ⟦<AsRep as DerEncode>⟧ (codes "AS-REP") }
    ensures tgs_req { HasItsRow ⟦<TgsReq as DerEncode>⟧ (codes "TGS-REQ") }
    ensures tgs_rep { HasItsRow ⟦<TgsRep as DerEncode>⟧ (codes "TGS-REP") }
    ensures kdc_req_body { HasItsRow ⟦<KdcReqBody as DerEncode>⟧ (codes "KDC-REQ-BODY") }
    ensures enc_as_rep_part { HasItsRow ⟦<EncAsRepPart as DerEncode>⟧ (codes "EncASRepPart") }
    ensures enc_tgs_rep_part { HasItsRow ⟦<EncTgsRepPart as DerEncode>⟧ (codes "EncTGSRepPart") }
    ensures ap_req { HasItsRow ⟦<ApReq as DerEncode>⟧ (codes "AP-REQ") }
    ensures ap_rep { HasItsRow ⟦<ApRep as DerEncode>⟧ (codes "AP-REP") }
    ensures krb_priv { HasItsRow ⟦<KrbPriv as DerEncode>⟧ (codes "KRB-PRIV") }
    ensures krb_cred { HasItsRow ⟦<KrbCred as DerEncode>⟧ (codes "KRB-CRED") }
    ensures krb_error { HasItsRow ⟦<KrbError as DerEncode>⟧ (codes "KRB-ERROR") }
    ensures tgt_req { HasItsRow ⟦<TgtReq as DerEncode>⟧ (codes "TGT-REQ") }
    ensures tgt_rep { HasItsRow ⟦<TgtRep as DerEncode>⟧ (codes "TGT-REP") }
    ensures proxy_message { HasItsRow ⟦<KdcProxyMessage as DerEncode>⟧ (codes "KDC-PROXY-MESSAGE") }
{}

/// The rows of types of PKINIT (RFC 4556), PKU2U (draft-zhu-pku2u) and CredSSP (MS-CSSP, 2.2.1.2) allow the encodings of these types and no others, and the
/// first fault of others is the type's first error.
pub fn rows_of_certificates()
    ensures pku2u_body { HasItsRow ⟦<Pku2uNegoBody as DerEncode>⟧ (codes "PKU2U-NEGO-BODY") }
    ensures krb_finished { HasItsRow ⟦<KrbFinished as DerEncode>⟧ (codes "KRB-FINISHED") }
    ensures pk_authenticator { HasItsRow ⟦<PkAuthenticator as DerEncode>⟧ (codes "PKAuthenticator") }
    ensures key_info { HasItsRow ⟦<KdcDhKeyInfo as DerEncode>⟧ (codes "KDCDHKeyInfo") }
    ensures credentials { HasItsRow ⟦<TsCredentials as DerEncode>⟧ (codes "TSCredentials") }
    ensures password { HasItsRow ⟦<TsPasswordCreds as DerEncode>⟧ (codes "TSPasswordCreds") }
    ensures smart_card { HasItsRow ⟦<TsSmartCardCreds as DerEncode>⟧ (codes "TSSmartCardCreds") }
    ensures csp_data { HasItsRow ⟦<TsCspDataDetail as DerEncode>⟧ (codes "TSCspDataDetail") }
    ensures remote_guard { HasItsRow ⟦<TsRemoteGuardCreds as DerEncode>⟧ (codes "TSRemoteGuardCreds") }
    ensures package { HasItsRow ⟦<TsRemoteGuardPackageCred as DerEncode>⟧ (codes "TSRemoteGuardPackageCred") }
{}

/// The rows of types of PKINIT (RFC 4556, RFC 5349), PKU2U and X.509 (RFC 5280, RFC 3279) that have fields by themselves, or in an IMPLICIT tag, allow the
/// encodings of these types and no others, and the first fault of others is the type's first error.
pub fn rows_of_public_keys()
    ensures metadata { HasItsRow ⟦<Pku2uNegoReqMetadata as DerEncode>⟧ (codes "PKU2U-NEGO-REQ-METADATA") }
    ensures nego_req { HasItsRow ⟦<Pku2uNegoReq as DerEncode>⟧ (codes "PKU2U-NEGO-REQ") }
    ensures nego_rep { HasItsRow ⟦<Pku2uNegoRep as DerEncode>⟧ (codes "PKU2U-NEGO-REP") }
    ensures request { HasItsRow ⟦<PaPkAsReq as DerEncode>⟧ (codes "PA-PK-AS-REQ") }
    ensures certifier { HasItsRow ⟦<ExternalPrincipalIdentifier as DerEncode>⟧ (codes "ExternalPrincipalIdentifier") }
    ensures dh_auth_pack { HasItsRow ⟦<DhAuthPack as DerEncode>⟧ (codes "DHAuthPack") }
    ensures ec_auth_pack { HasItsRow ⟦<EcAuthPack as DerEncode>⟧ (codes "ECAuthPack") }
    ensures dh_reply { HasItsRow ⟦<DhRepInfo as DerEncode>⟧ (codes "DHRepInfo") }
    ensures dh_public_key { HasItsRow ⟦<DhReqInfo as DerEncode>⟧ (codes "DHSubjectPublicKeyInfo") }
    ensures domain { HasItsRow ⟦<DhDomainParameters as DerEncode>⟧ (codes "DomainParameters") }
    ensures validation { HasItsRow ⟦<ValidationParams as DerEncode>⟧ (codes "ValidationParms") }
    ensures algorithm { HasItsRow ⟦<AlgorithmIdentifier as DerEncode>⟧ (codes "AlgorithmIdentifier") }
    ensures public_key { HasItsRow ⟦<SubjectPublicKeyInfo as DerEncode>⟧ (codes "SubjectPublicKeyInfo") }
{}

/// Where a row is a type's, octets have a page by the row exactly if they are an encoding of the type, memory aside: of each answer of `page_by_row`.
#[tactic(auto, using(crate::proofs::Taken::row_takes))]
pub fn pages_are_of_encodings<T: DerEncode>()
    ensures { (row : List ℕ) → HasItsRow ⟦<T as DerEncode>⟧ row → RowTakesEncodings ⟦<T as DerEncode>⟧ row }
{}

/// Where a row is a type's, octets that are refused by the row are refused with the first error that `from_bytes` of the type has of them, memory aside: of
/// each answer of `items_by_row`, and of `page_by_row`.
pub fn errors_are_of_types<T: DerEncode>()
    ensures refused { (row : List ℕ) → HasItsRow ⟦<T as DerEncode>⟧ row → RowHasErrors ⟦<T as DerEncode>⟧ row }
    ensures pages { (row : List ℕ) → HasItsRow ⟦<T as DerEncode>⟧ row → PagesHaveErrors ⟦<T as DerEncode>⟧ row }
{}

/// Octets have a page in the place of a PA-PK-AS-REP (RFC 4556, 3.2.3) exactly if they are an encoding of one, memory aside: of each answer of
/// `page_of_type` by that name.
pub fn pages_of_replies_are_of_encodings()
    ensures { RepliesTakeEncodings ⟦<PaPkAsRep as DerEncode>⟧ }
{}

/// Octets that are refused in the place of a PA-PK-AS-REP (RFC 4556, 3.2.3) are refused with the first error that `from_bytes` has of them, memory aside.
pub fn errors_of_replies_are_of_types()
    ensures { RepliesHaveErrors ⟦<PaPkAsRep as DerEncode>⟧ }
{}
