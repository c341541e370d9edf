//! The lemmas on keytabs. Nothing here is executed.

ghost use Rattle.std.specs.Prelude.{◌≡◌, ℕ, List, [], ◌∷◌, ◌++◌};
ghost use Rattle.std.specs.List.{AllByRecursion};
ghost use Rattle.krb_files.specs.Entry.{Entry};
ghost use Rattle.krb_files.specs.Keytab.{KeytabIs};
ghost use Rattle.krb_files.specs.KeytabWritten.{FitsEntry, IsPlain, entry_octets, keytab_octets};

/// Octets are the keytab of one list of entries alone. What entries that fit are written as is their keytab. A keytab without holes and
/// with nothing behind its records, each of which ends with a version of 32 bits whose low octet is that of 8 bits, is what its
/// entries are written as. An entry's record behind a keytab with nothing behind its records is the keytab with this entry behind the
/// others.
pub fn readings()
    ensures one { (b : List ℕ) (es fs : List Entry) → KeytabIs b es → KeytabIs b fs → es ≡ fs }
    ensures written { (es : List Entry) → AllByRecursion FitsEntry es → KeytabIs (keytab_octets es) es }
    ensures written_back { (b : List ℕ) (es : List Entry) (k : KeytabIs b es) → k.end ≡ [] → AllByRecursion IsPlain k.records → keytab_octets es ≡ b }
    ensures appended { (b : List ℕ) (es : List Entry) (e : Entry) (k : KeytabIs b es) → k.end ≡ [] → FitsEntry e
        → KeytabIs (b ++ entry_octets e) (es ++ e ∷ []) }
{}
