//! The types of DER that can be named, and the first octets of messages and of their opened parts.

ghost use Rattle.std.specs.Prelude.{◌≡◌, map};
ghost use Rattle.std.specs.Char.{eq_ignore_ascii_case};
ghost use Rattle.std.specs.Cmp.Lexicographic.{pointwise};
ghost use Rattle.std.specs.Option.{option_copied};
ghost use Rattle.krb_show_pages.specs.Types.{applications, is_name, name_in, tag_in, title, type_in, type_names};

/// Messages and opened parts (RFC 4120, 5.10): the first octet of their encodings, and their names.
static APPLICATIONS: [(u8, &str); 17] = [
    (0x61, "Ticket"),
    (0x62, "Authenticator"),
    (0x63, "EncTicketPart"),
    (0x6a, "AS-REQ"),
    (0x6b, "AS-REP"),
    (0x6c, "TGS-REQ"),
    (0x6d, "TGS-REP"),
    (0x6e, "AP-REQ"),
    (0x6f, "AP-REP"),
    (0x75, "KRB-PRIV"),
    (0x76, "KRB-CRED"),
    (0x79, "EncASRepPart"),
    (0x7a, "EncTGSRepPart"),
    (0x7b, "EncAPRepPart"),
    (0x7c, "EncKrbPrivPart"),
    (0x7d, "EncKrbCredPart"),
    (0x7e, "KRB-ERROR"),
];

/// Types that no first octet tells, as their standards spell them; with `DH` or `EC` before the name where the standard has one name for two forms.
static TYPES: [&str; 48] = [
    // RFC 4120, 5.2 to 5.9
    "PrincipalName",
    "HostAddress",
    "HostAddresses",
    "AuthorizationData",
    "EncryptedData",
    "EncryptionKey",
    "Checksum",
    "TransitedEncoding",
    "LastReq",
    "KDC-REQ-BODY",
    "KrbCredInfo",
    "PA-DATA",
    "METHOD-DATA",
    "PA-ENC-TS-ENC",
    "ETYPE-INFO2-ENTRY",
    "ETYPE-INFO2",
    // MS-KILE, 2.2
    "KERB-PA-PAC-REQUEST",
    "PA-PAC-OPTIONS",
    "KERB-ERROR-DATA",
    "KERB-AD-RESTRICTION-ENTRY",
    // RFC 3244, 2
    "ChangePasswdData",
    // draft-swift-win2k-krb-user2user-03, 6
    "TGT-REQ",
    "TGT-REP",
    // MS-KKDCP, 2.2.2
    "KDC-PROXY-MESSAGE",
    // draft-zhu-pku2u-04, 6, and PKU2U in NEGOEX
    "PKU2U-NEGO-REQ-METADATA",
    "PKU2U-NEGO-BODY",
    "PKU2U-NEGO-REQ",
    "PKU2U-NEGO-REP",
    "KRB-FINISHED",
    // RFC 4556, 3.2; ECAuthPack RFC 5349, 4
    "PA-PK-AS-REQ",
    "PA-PK-AS-REP",
    "DHAuthPack",
    "ECAuthPack",
    "PKAuthenticator",
    "ExternalPrincipalIdentifier",
    "DHRepInfo",
    "KDCDHKeyInfo",
    // RFC 5280, 4.1; RFC 3279, 2.3.3
    "AlgorithmIdentifier",
    "SubjectPublicKeyInfo",
    "DHSubjectPublicKeyInfo",
    "DomainParameters",
    "ValidationParms",
    // MS-CSSP, 2.2.1.2
    "TSCredentials",
    "TSPasswordCreds",
    "TSSmartCardCreds",
    "TSCspDataDetail",
    "TSRemoteGuardCreds",
    "TSRemoteGuardPackageCred",
];

/// The messages and the opened parts (RFC 4120, 5.10): the first octet of their encodings, and their names.
#[tactic(auto, unfolding(crate::specs::Types::applications))]
pub fn applications() -> &'static [(u8, &'static str)]
    ensures { map (λ row. (row.0, row.1.now)) result.now ≡ applications }
{
    &APPLICATIONS
}

/// The names of the types that no first octet tells, as their standards spell them.
#[tactic(auto, unfolding(crate::specs::Types::type_names))]
pub fn named_types() -> &'static [&'static str]
    ensures { map (λ name. name.now) result.now ≡ type_names }
{
    &TYPES
}

/// Whether two texts are the same, letters of either case alike.
pub fn is_same_name(first: &[u8], second: &[u8]) -> bool
    ensures { result ≡ pointwise eq_ignore_ascii_case first.now second.now }
{
    match (first.split_first(), second.split_first()) {
        (None, None) => true,
        (Some((one, first)), Some((other, second))) => {
            one.eq_ignore_ascii_case(other) && is_same_name(first, second)
        }
        _ => false,
    }
}

/// The first octet of the row with this name.
fn tag_in(rows: &[(u8, &'static str)], name: &str) -> Option<u8>
    ensures { result ≡ tag_in (map (λ row. (row.0, row.1.now)) rows.now) name.now }
{
    let (row, rest) = rows.split_first()?;
    if is_same_name(row.1.as_bytes(), name.as_bytes()) {
        return Some(row.0);
    }
    tag_in(rest, name)
}

/// The name of the row with this first octet.
fn name_in(rows: &[(u8, &'static str)], tag: u8) -> Option<&'static str>
    ensures { option_copied result ≡ name_in (map (λ row. (row.0, row.1.now)) rows.now) tag }
{
    let (row, rest) = rows.split_first()?;
    if row.0 == tag {
        return Some(row.1);
    }
    name_in(rest, tag)
}

/// The type of this name.
fn type_in(names: &[&'static str], name: &str) -> Option<&'static str>
    ensures { option_copied result ≡ type_in (map (λ name. name.now) names.now) name.now }
{
    let (first, rest) = names.split_first()?;
    if is_same_name(first.as_bytes(), name.as_bytes()) {
        return Some(*first);
    }
    type_in(rest, name)
}

/// The first octet of the message or of the opened part of this name (RFC 4120, 5.10), letters of either case alike.
pub fn tag_of_name(name: &str) -> Option<u8>
    ensures { result ≡ tag_in applications name.now }
{
    tag_in(applications(), name)
}

/// The name of the message or of the opened part whose encodings begin with this octet (RFC 4120, 5.10).
pub fn name_of_tag(tag: u8) -> Option<&'static str>
    ensures { option_copied result ≡ name_in applications tag }
{
    name_in(applications(), tag)
}

/// The type, of those that no first octet tells, whose name this is, letters of either case alike: the name as its standard spells it.
pub fn type_of_name(name: &str) -> Option<&'static str>
    ensures { option_copied result ≡ type_in type_names name.now }
{
    type_in(named_types(), name)
}

/// Whether this is the name, letter by letter.
pub(crate) fn is_name(name: &str, given: &str) -> bool
    ensures { result ≡ is_name name.now given.now }
{
    given.as_bytes() == name.as_bytes()
}

/// What the page of a type is called: its name, without the `DH` or `EC` that tells two forms of one name apart.
pub(crate) fn title(name: &'static str) -> &'static str
    ensures { result.now ≡ title name.now }
{
    if is_name("DHAuthPack", name) || is_name("ECAuthPack", name) {
        "AuthPack"
    } else if is_name("DHSubjectPublicKeyInfo", name) {
        "SubjectPublicKeyInfo"
    } else {
        name
    }
}
