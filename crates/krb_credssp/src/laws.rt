//! Lemmas about the definitions: functions with no body, each of whose clauses is a fact for proofs above.

ghost use Rattle.krb_der.specs.FieldErrors.{HasErrorsOf};
ghost use Rattle.krb_der.specs.Equality.{DecidesEqual};
ghost use Rattle.krb_der.specs.Tags.{HasTag};

use crate::credssp::{
    TsCredentials, TsCspDataDetail, TsPasswordCreds, TsRemoteGuardCreds, TsRemoteGuardPackageCred,
    TsSmartCardCreds,
};
use krb_der::DerEncode;
use krb_der::composite::{Fields, Sequence};

/// The first error of each struct is that of a SEQUENCE of its fields (X.690, 8.9): its tag, then its fields in order, then
/// trailing octets. Its encodings begin with that tag, and with no other octet (X.690, 8.1.2).
pub fn errors()
    ensures ts_credentials { HasErrorsOf ⟦<TsCredentials as DerEncode>⟧.error ⟦<<TsCredentials as Sequence>::Fields as Fields>⟧ }
    ensures ts_password_creds { HasErrorsOf ⟦<TsPasswordCreds as DerEncode>⟧.error ⟦<<TsPasswordCreds as Sequence>::Fields as Fields>⟧ }
    ensures ts_csp_data_detail { HasErrorsOf ⟦<TsCspDataDetail as DerEncode>⟧.error ⟦<<TsCspDataDetail as Sequence>::Fields as Fields>⟧ }
    ensures ts_smart_card_creds { HasErrorsOf ⟦<TsSmartCardCreds as DerEncode>⟧.error ⟦<<TsSmartCardCreds as Sequence>::Fields as Fields>⟧ }
    ensures ts_remote_guard_package_cred { HasErrorsOf ⟦<TsRemoteGuardPackageCred as DerEncode>⟧.error
        ⟦<<TsRemoteGuardPackageCred as Sequence>::Fields as Fields>⟧ }
    ensures ts_remote_guard_creds { HasErrorsOf ⟦<TsRemoteGuardCreds as DerEncode>⟧.error ⟦<<TsRemoteGuardCreds as Sequence>::Fields as Fields>⟧ }
    ensures ts_credentials_tag { HasTag 48 ⟦<TsCredentials as DerEncode>⟧.first }
    ensures ts_password_creds_tag { HasTag 48 ⟦<TsPasswordCreds as DerEncode>⟧.first }
    ensures ts_csp_data_detail_tag { HasTag 48 ⟦<TsCspDataDetail as DerEncode>⟧.first }
    ensures ts_smart_card_creds_tag { HasTag 48 ⟦<TsSmartCardCreds as DerEncode>⟧.first }
    ensures ts_remote_guard_package_cred_tag { HasTag 48 ⟦<TsRemoteGuardPackageCred as DerEncode>⟧.first }
    ensures ts_remote_guard_creds_tag { HasTag 48 ⟦<TsRemoteGuardCreds as DerEncode>⟧.first }
{}

/// `==` on each struct: it returns true for equal values and for no others.
pub fn equality()
    ensures ts_credentials { DecidesEqual ⟦<TsCredentials as PartialEq>⟧.eq }
    ensures ts_password_creds { DecidesEqual ⟦<TsPasswordCreds as PartialEq>⟧.eq }
    ensures ts_csp_data_detail { DecidesEqual ⟦<TsCspDataDetail as PartialEq>⟧.eq }
    ensures ts_smart_card_creds { DecidesEqual ⟦<TsSmartCardCreds as PartialEq>⟧.eq }
    ensures ts_remote_guard_package_cred { DecidesEqual ⟦<TsRemoteGuardPackageCred as PartialEq>⟧.eq }
    ensures ts_remote_guard_creds { DecidesEqual ⟦<TsRemoteGuardCreds as PartialEq>⟧.eq }
{}
