//! Keys under which a checksum holds, and keys among keys.

ghost use Rattle.std.specs.Prelude.{◌≡◌, MatchBool, MatchOption};
ghost use Rattle.krb_show_pac.specs.Holders.{AreSame, FailsAsKdcs, HaveSameOctets, HoldsAsKdcs, HoldsUnder, HoldsUnderNone, IsFirstHolder, IsFirstWhere, IsNoneOf, IsOneOf};
ghost use Rattle.krb_show_pac.specs.Holders.{MayBeKdcs, NoneWhere, has_version, is_entrys, is_krbtgts};

use crate::checksum::PacChecksum;
use krb_decrypt::Key;

/// Whether a checksum holds under a key.
fn holds_under(checksum: &PacChecksum, key: &Key) -> bool
    ensures { MatchBool result (HoldsUnder checksum.now key.now) (HoldsUnder checksum.now key.now → ⊥) }
{
    checksum.holds(&key.octets)
}

/// The first of the keys under which a checksum holds.
pub(crate) fn first_holder<'k>(checksum: &PacChecksum, keys: &'k [Key]) -> Option<&'k Key>
    ensures { MatchOption result (HoldsUnderNone checksum.now keys.now) (λ key. IsFirstHolder checksum.now keys.now key.now) }
{
    for key in keys {
        if holds_under(checksum, key) {
            return Some(key);
        }
    }
    None
}

/// Whether two keys are of one suite and have the same octets.
fn are_same(key: &Key, other: &Key) -> bool
    ensures { MatchBool result (AreSame key.now other.now) (AreSame key.now other.now → ⊥) }
{
    key.suite == other.suite && key.octets.as_slice() == other.octets.as_slice()
}

/// Whether a key is among keys, whatever its name is.
pub(crate) fn is_one_of(key: &Key, keys: &[Key]) -> bool
    ensures { MatchBool result (IsOneOf key.now keys.now) (IsNoneOf key.now keys.now) }
{
    for other in keys {
        if are_same(key, other) {
            return true;
        }
    }
    false
}

/// Whether two keys have the same octets.
pub(crate) fn have_same_octets(key: &Key, other: &Key) -> bool
    ensures { MatchBool result (HaveSameOctets key.now other.now) (HaveSameOctets key.now other.now → ⊥) }
{
    key.octets.as_slice() == other.octets.as_slice()
}

/// Whether a name has ` kvno ` in it.
fn has_version(name: &[u8]) -> bool
    ensures { result ≡ has_version name.now }
{
    let mut rest = name;
    while !rest.is_empty() {
        if rest.starts_with(b" kvno ") {
            return true;
        }
        let (_, next) = rest.split_at(1);
        rest = next;
    }
    false
}

/// Whether the name of a key is that of a keytab's entry.
fn is_entrys(key: &Key) -> bool
    ensures { result ≡ is_entrys key.now }
{
    has_version(&key.name)
}

/// Whether the name of a key begins as that of krbtgt of a realm.
fn is_krbtgts(key: &Key) -> bool
    ensures { result ≡ is_krbtgts key.now }
{
    key.name.starts_with(b"krbtgt/")
}

/// Whether a key may be the KDC's, for a ticket that this one opened.
fn may_be_kdcs(opener: &Key, key: &Key) -> bool
    ensures { MatchBool result (MayBeKdcs opener.now key.now) (MayBeKdcs opener.now key.now → ⊥) }
{
    if is_entrys(key) {
        return is_krbtgts(key);
    }
    !have_same_octets(key, opener)
}

/// Whether a checksum holds under a key that may be the KDC's.
fn holds_as_kdcs(checksum: &PacChecksum, opener: &Key, key: &Key) -> bool
    ensures { MatchBool result (HoldsAsKdcs checksum.now opener.now key.now) (HoldsAsKdcs checksum.now opener.now key.now → ⊥) }
{
    may_be_kdcs(opener, key) && holds_under(checksum, key)
}

/// The first of the keys that may be the KDC's under which a checksum holds.
pub(crate) fn first_kdcs<'k>(
    checksum: &PacChecksum,
    opener: &Key,
    keys: &'k [Key],
) -> Option<&'k Key>
    ensures { MatchOption result (NoneWhere (HoldsAsKdcs checksum.now opener.now) keys.now)
        (λ key. IsFirstWhere (HoldsAsKdcs checksum.now opener.now) keys.now key.now) }
{
    for key in keys {
        if holds_as_kdcs(checksum, opener, key) {
            return Some(key);
        }
    }
    None
}

/// Whether a checksum fails under a key that may be the KDC's.
fn fails_as_kdcs(checksum: &PacChecksum, opener: &Key, key: &Key) -> bool
    ensures { MatchBool result (FailsAsKdcs checksum.now opener.now key.now) (FailsAsKdcs checksum.now opener.now key.now → ⊥) }
{
    may_be_kdcs(opener, key) && checksum.differs(&key.octets)
}

/// The first of the keys that may be the KDC's under which a checksum fails.
pub(crate) fn first_failing<'k>(
    checksum: &PacChecksum,
    opener: &Key,
    keys: &'k [Key],
) -> Option<&'k Key>
    ensures { MatchOption result (NoneWhere (FailsAsKdcs checksum.now opener.now) keys.now)
        (λ key. IsFirstWhere (FailsAsKdcs checksum.now opener.now) keys.now key.now) }
{
    for key in keys {
        if fails_as_kdcs(checksum, opener, key) {
            return Some(key);
        }
    }
    None
}
