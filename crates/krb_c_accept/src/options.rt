//! The options of a call: powers of two, added.

ghost use Rattle.std.specs.Prelude.{◌≡◌, ◌≢◌, MatchBool};
ghost use Rattle.krb_c_accept.specs.Options.{AgreeOnAddress, AgreeOnBindings, AgreeOnPacs, AreOptions, IsSince, has_option};

use crate::records::AcceptorRecord;

/// An AP-REQ with no frame around it is taken too.
pub(crate) const BARE_REQUEST: u32 = 1;

/// So is an authenticator with no checksum, or with one of another type.
pub(crate) const OTHER_CHECKSUM: u32 = 2;

/// A PAC is not verified, and none is handed out.
pub(crate) const PAC_IGNORED: u32 = 4;

/// A ticket without a PAC is refused.
pub(crate) const PAC_REQUIRED: u32 = 8;

/// Keys of tickets, session keys and subkeys may be of triple DES.
pub(crate) const TRIPLE_DES: u32 = 16;

/// A ticket has to name addresses; the client's has to be given then.
pub(crate) const ADDRESSES_REQUIRED: u32 = 32;

/// A path of realms is taken that no KDC has checked.
pub(crate) const UNCHECKED_PATH: u32 = 64;

/// The replay cache is whole since ever.
pub(crate) const WHOLE_EVER: u32 = 128;

/// The answer has a subkey of the service's.
pub(crate) const SUBKEY: u32 = 256;

/// The client's channel bindings have to be those of the service, whose hash has to be given then.
pub(crate) const BOUND: u32 = 512;

/// Clients without a name are let in.
pub(crate) const ANONYMOUS: u32 = 1024;

/// All options are below this.
const END: u32 = ANONYMOUS * 2;

/// Whether an option is among those that were added.
pub(crate) fn has_option(options: u32, option: u32) -> bool
    requires { option ≢ 0 }
    ensures { result ≡ has_option options option }
{
    options / option % 2 == 1
}

/// Whether a PAC is not both ignored and required.
fn agree_on_pacs(options: u32) -> bool
    ensures { MatchBool result (AgreeOnPacs options) (AgreeOnPacs options → ⊥) }
{
    !(has_option(options, PAC_IGNORED) && has_option(options, PAC_REQUIRED))
}

/// Whether there are channel bindings exactly if they are asked for.
fn agree_on_bindings(options: u32, bindings: &[u8]) -> bool
    ensures { MatchBool result (AgreeOnBindings options bindings.now) (AgreeOnBindings options bindings.now → ⊥) }
{
    if has_option(options, BOUND) {
        !bindings.is_empty()
    } else {
        bindings.is_empty()
    }
}

/// Whether the client's address is given, if a ticket has to name it.
fn agree_on_address(options: u32, address: &[u8]) -> bool
    ensures { MatchBool result (AgreeOnAddress options address.now) (AgreeOnAddress options address.now → ⊥) }
{
    !(has_option(options, ADDRESSES_REQUIRED) && address.is_empty())
}

/// Whether it is said since when the replay cache is whole: since ever, with no time, or since a time.
fn is_since(acceptor: &AcceptorRecord) -> bool
    ensures { MatchBool result (IsSince acceptor.now.options acceptor.now.whole_since) (IsSince acceptor.now.options acceptor.now.whole_since → ⊥) }
{
    if has_option(acceptor.options, WHOLE_EVER) {
        acceptor.whole_since == 0
    } else {
        acceptor.whole_since > 0
    }
}

/// Whether options are those that there are, contradict neither each other nor what else is asked, and have what they need: of PACs ignored
/// and required not both; of the channel bindings' hash octets exactly if it is asked for; of the client's address octets if a ticket has to
/// name it; since when the replay cache is whole, or that it is since ever.
pub(crate) fn are_options(acceptor: &AcceptorRecord, bindings: &[u8], address: &[u8]) -> bool
    ensures { MatchBool result (AreOptions acceptor.now bindings.now address.now) (AreOptions acceptor.now bindings.now address.now → ⊥) }
{
    let options = acceptor.options;
    if options >= END || !agree_on_pacs(options) {
        return false;
    }
    if !agree_on_bindings(options, bindings) || !agree_on_address(options, address) {
        return false;
    }
    is_since(acceptor)
}
