//! Lemmas about lists.

ghost use Rattle.std.specs.Prelude.{◌≡◌, ℕ, ℤ, List};
ghost use Rattle.krb_files.specs.Entry.{Entry};
ghost use Rattle.krb_file_tools.specs.Lines.{IsKeytabListing};
ghost use Rattle.krb_file_tools.specs.Texts.{IsEtypeText, IsTimeText};

use krb_registry::name_laws::numbers_and_names;

/// A time has one text, an encryption type has one text, and so the entries of a keytab have one list.
pub fn one_list()
    ensures time { (seconds : ℕ) (a b : List ℕ) → IsTimeText seconds a → IsTimeText seconds b → a ≡ b }
    ensures etype { (number : ℤ) (a b : List ℕ) → IsEtypeText number a → IsEtypeText number b → a ≡ b }
    ensures keytab { (entries : List Entry) (a b : List ℕ) → IsKeytabListing entries a → IsKeytabListing entries b → a ≡ b }
{
    numbers_and_names();
}
