//! The pages of the help, and the version.

ghost use Rattle.std.specs.Prelude.{◌≡◌};
ghost use Rattle.jolmurig.specs.Help.{help_of};

use jolmurig_command::Topic;

/// What `--version` writes.
pub const VERSION: &str = "jolmurig 0.2.0\n";

/// What `--help` writes.
pub const HELP: &str =
    "Shows what Kerberos octets hold, those of a file or of standard input, and refuses what is no strict encoding.

usage:
    jolmurig show [OPTION].. [FILE]
    jolmurig check --as TYPE [FILE]
    jolmurig list [FILE]
    jolmurig convert kirbi|ccache [FILE]
    jolmurig proxy request|reply [FILE]
    jolmurig accept --keytab FILE [OPTION].. [FILE]
    jolmurig COMMAND --help
    jolmurig --help
    jolmurig --version

show       the type of the octets, and what they hold, also encrypted under keys that options name
check      the octets themselves, if they are the one encoding of a value of a type; else their first error
list       a line for each entry of a keytab or of a credential cache
convert    a credential cache as a KRB-CRED in the clear (kirbi), or such a KRB-CRED as a credential cache (ccache)
proxy      what a proxy in front of a KDC passes on (MS-KKDCP)
accept     whether a service with this keytab lets in the client of a token, and else the first rule that is broken

`jolmurig COMMAND --help` has the options of a command; that of show also the forms of the input, and the types.

FILE is the file that is read; without it, and for `-`, standard input is. An option and its value may be one argument,
as --as=PAC; behind `--` stands FILE alone, however it begins.

exit statuses:
    0    the output is written; of accept: the client is let in
    1    an error, which a line on standard error names, with its place where it is one of DER behind the header of
         a frame, and nothing on standard output, or not all where the output cannot be written; of accept: the client
         is not let in, and standard output says why
    2    wrong arguments, a key among them, and nothing was read from standard input; of accept also: nothing is
         decided, for the error that a line on standard error names
";

/// What `show --help` writes.
pub const SHOW: &str = "Shows what Kerberos octets hold.

usage:
    jolmurig show [OPTION].. [FILE]

The type of the octets, and what they hold; behind that a warning for each thing that breaks a rule of its standard, as
those of check. What is opened stands in its place, with the key that opened it and the key usage; keys within it open
what follows. Of a PAC in a ticket it is said which of its checksums hold; of one in a ticket or an authenticator that
nobody checks, `unchecked` says so.

options of show:
    --as TYPE               read the octets as this type, and not as the one that they begin as
    --tree                  show the tags, lengths and contents of the elements, whatever they are, as far as they go
    --json                  write a line of JSON
    --type                  write the name of the type alone
    --places                write with each value its place, also with --json: how many octets stand before it, of one of
                            DER before its content, and how many it has; of what is opened, in the decrypted octets
    --key ETYPE:HEX         open what is sealed with this key, as often as wanted: ETYPE is 16 to 20 or the name of
                            such an encryption type, HEX the octets of the key; others see it in the list of processes
    --key-file FILE         the same with the key that this file holds, in a line ETYPE:HEX
    --keytab FILE           open what is sealed with the keys of this keytab, as often as wanted
    --password-file FILE    open what is sealed with the keys of the password in the first line of this file, as often
                            as wanted: the salts are those of the first 16 principals and ETYPE-INFO2s of the input
    --all-found-keys        try all keys that are found in what is opened, and not only the first 1000: whoever made the
                            input may have made it slow
    --show-keys             write the octets of keys, passwords and PINs, and the user-data of KRB-PRIV
    --no-keys               write `hidden` in the place of these, as without these two; other octets that hold a key
                            stay, as those of a tree
    --help                  write this help

input, by the first rule that fits:
    -----BEGIN LABEL-----    PEM: the base64 up to the line -----END LABEL-----
    Negotiate BASE64         a token of HTTP, also behind Authorization:, WWW-Authenticate: and their kin
    hexadecimal              digits in pairs, with or without blanks and line breaks
    base64                   also that of URLs, with or without padding, blanks and line breaks
    anything else            the octets themselves

types that are told by how the octets begin, letters of either case:
    Ticket, Authenticator, EncTicketPart, AS-REQ, AS-REP, TGS-REQ, TGS-REP, AP-REQ, AP-REP,
    KRB-PRIV, KRB-CRED, EncASRepPart, EncTGSRepPart, EncAPRepPart, EncKrbPrivPart, EncKrbCredPart,
    KRB-ERROR, token, PAC, NEGOEX, password-frame, keytab, ccache

types that --as has to name:
    PrincipalName, HostAddress, HostAddresses, AuthorizationData, EncryptedData, EncryptionKey,
    Checksum, TransitedEncoding, LastReq, KDC-REQ-BODY, KrbCredInfo, PA-DATA, METHOD-DATA,
    PA-ENC-TS-ENC, ETYPE-INFO2-ENTRY, ETYPE-INFO2, KERB-PA-PAC-REQUEST, PA-PAC-OPTIONS,
    KERB-ERROR-DATA, KERB-AD-RESTRICTION-ENTRY, ChangePasswdData, TGT-REQ, TGT-REP,
    KDC-PROXY-MESSAGE, PKU2U-NEGO-REQ-METADATA, PKU2U-NEGO-BODY, PKU2U-NEGO-REQ, PKU2U-NEGO-REP,
    KRB-FINISHED, PA-PK-AS-REQ, PA-PK-AS-REP, DHAuthPack, ECAuthPack, PKAuthenticator,
    ExternalPrincipalIdentifier, DHRepInfo, KDCDHKeyInfo, AlgorithmIdentifier, SubjectPublicKeyInfo,
    DHSubjectPublicKeyInfo, DomainParameters, ValidationParms, TSCredentials, TSPasswordCreds,
    TSSmartCardCreds, TSCspDataDetail, TSRemoteGuardCreds, TSRemoteGuardPackageCred

examples:
    jolmurig show <as-req.der
    jolmurig show --json <ticket.kirbi
    jolmurig show --as KDC-REQ-BODY <body.hex
    jolmurig show --tree <refused.der
    jolmurig show --keytab krb5.keytab krb5cc
";

/// What `check --help` writes.
pub const CHECK: &str = "Writes octets, if they are of a type.

usage:
    jolmurig check --as TYPE [FILE]

The octets themselves, if they are of this type: those of a type of DER if they are the one encoding of a value; else
their first error, with its place. What is legal DER and breaks a rule of its standard, as a pvno that is not 5, the
msg-type of another message, microseconds past 999999 and a list that may not be empty, is named in a line on standard
error, a warning. `jolmurig show --help` has the types, and the forms of the input.

example:
    jolmurig check --as AS-REQ <as-req.der >checked.der
";

/// What `list --help` writes.
pub const LIST: &str = "Lists the entries of a keytab or of a credential cache.

usage:
    jolmurig list [FILE]

A line for each entry of a keytab, as `klist -kte` has them, or of a credential cache, as `klist -f -e`. Times are in UTC.
`jolmurig show --help` has the forms of the input.

example:
    jolmurig list krb5cc
";

/// What `convert --help` writes.
pub const CONVERT: &str = "Converts tickets with their keys.

usage:
    jolmurig convert kirbi|ccache [FILE]

A credential cache as a KRB-CRED in the clear (kirbi), or such a KRB-CRED as a credential cache (ccache). What the format
cannot hold is named on standard error. `jolmurig show --help` has the forms of the input.

example:
    jolmurig convert kirbi krb5cc >ticket.kirbi
";

/// What `proxy --help` writes.
pub const PROXY: &str = "Passes on what a proxy in front of a KDC does (MS-KKDCP).

usage:
    jolmurig proxy request|reply [FILE]

Of octets that are one encoding of a message that goes this way: of what a client posts (request) the message behind its
length, as it goes over a stream, and on standard error a line for whom; of what a KDC sent over a stream (reply) what
goes back to the client. The input is the octets themselves.

The line of a request is `kdc REALM`, or `kpasswd REALM` where a password is changed, with the target-domain that the
client names; where the message names another realm `(the message names REALM)` stands behind it. In a realm the blank,
`:`, the backslash and what is not printable are a backslash, `x` and two digits. A request has at most 131072 octets.

example:
    jolmurig proxy request <posted | nc -q 5 kdc.example.com 88 | jolmurig proxy reply >answer
";

/// What `accept --help` writes.
pub const ACCEPT: &str = "Says whether a service lets in the client of a token.

usage:
    jolmurig accept --keytab FILE [OPTION].. [FILE]

Whether a service with this keytab lets in the client of a token of Kerberos, in a line: `accepted: CLIENT for SERVER,
until TIME`, the end of the ticket, or `refused: ` and the first rule that is broken, with what was seen. The token may
stand in the first message of SPNEGO, as behind `Authorization: Negotiate`. No replay cache is asked: a token that was
sent before is accepted again. `jolmurig show --help` has the forms of the input.

options of accept:
    --keytab FILE           the keytab of the service, which has to be named
    --time T                the service's time: seconds since 1970, or as 2026-01-02T03:04:05Z; without it that of the
                            clock. Of a token that was sent some time ago, the time at which it came
    --skew S                by how many seconds the clocks of client and service may differ; without it 300
    --server NAME           let in clients for this server alone, as often as wanted: HTTP/www.example.com@EXAMPLE.COM, as
                            RFC 1964, 2.1.1, writes a name; the realm may be left out, and so may the host, as in HTTP,
                            and stand for any then. Without it for each server of which the keytab has a key
    --realm REALM           let in clients of this realm alone, as often as wanted; without it those of any realm
    --bindings HEX          the MD5 of the service's channel bindings (RFC 4121, 4.1.1.2), which those of the client
                            have to have; without it those of the client are not compared
    --pac required|ignored  refuse a ticket without a PAC, or do not look at PACs; without it a PAC is checked where there
                            is one: its server checksum, its client and its time
    --bare                  take an AP-REQ with no frame around it too, as DCE style has it
    --other-checksum        take an authenticator with another checksum than 0x8003 too, or with none
    --help                  write this help

example:
    jolmurig accept --keytab krb5.keytab --time 2026-11-27T07:08:23Z <authorization
";

/// The page of this topic.
pub fn page_of(topic: Topic) -> &'static str
    ensures { result.now ≡ help_of HELP.now SHOW.now CHECK.now LIST.now CONVERT.now PROXY.now ACCEPT.now topic }
{
    match topic {
        Topic::Program => HELP,
        Topic::Show => SHOW,
        Topic::Check => CHECK,
        Topic::List => LIST,
        Topic::Convert => CONVERT,
        Topic::Proxy => PROXY,
        Topic::Accept => ACCEPT,
    }
}
