//! The lemmas on credential caches. Nothing here is executed.

ghost use Rattle.std.specs.Prelude.{◌≡◌, ℕ, List, ◌++◌, Ok};
ghost use Rattle.krb_files.specs.Laws.{IsOctets};
ghost use Rattle.krb_files.specs.Ccache.{Ccache, CcacheIs, Credential, FitsCcache, FitsCredential, ccache_octets, credential_octets};
ghost use Rattle.krb_files.specs.CcacheReading.{ccache_of};
ghost use Rattle.krb_files.specs.CcacheWritten.{with_credential};

/// Octets are one credential cache alone. Each cache whose lengths and counts fit is what its octets are read as. What was read is written
/// as the octets that it was read from, whatever they are: the format leaves no choice. A credential's octets behind those of a cache are
/// the cache with this credential behind the others.
pub fn readings()
    ensures one { (b : List ℕ) (c d : Ccache) → CcacheIs b c → CcacheIs b d → c ≡ d }
    ensures written { (c : Ccache) → FitsCcache c → CcacheIs (ccache_octets c) c }
    ensures read_again { (c : Ccache) → FitsCcache c → ccache_of (ccache_octets c) ≡ Ok c }
    ensures written_back { (b : List ℕ) (c : Ccache) → IsOctets b → ccache_of b ≡ Ok c → ccache_octets c ≡ b }
    ensures appended { (b : List ℕ) (c : Ccache) (x : Credential) → CcacheIs b c → FitsCredential x
        → CcacheIs (b ++ credential_octets c.version x) (with_credential c x) }
{}
