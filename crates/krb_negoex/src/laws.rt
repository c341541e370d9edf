//! Lemmas: functions with no body, whose contracts state what holds of the definitions.

ghost use Rattle.std.specs.Prelude.{◌≡◌, ◌↔◌, ℕ, ◌+◌, List, [], Vec, length, IfOk, IfErr, Result};
ghost use Rattle.std.specs.Borrow.{Bor};
ghost use Rattle.std.specs.declared.alloc.Global.{Global};
ghost use Rattle.std.specs.declared.io.Error.{Error};
ghost use Rattle.krb_negoex.specs.Copies.{checksum_parts, exchange_parts, extension_parts, nego_parts, verify_parts};
ghost use Rattle.krb_io.specs.Transfer.{IsNotInterrupted};
ghost use Rattle.krb_negoex.specs.Equality.{ClonesValue, DecidesEqual, DecidesEqualBy};
ghost use Rattle.krb_negoex.specs.GuidLayout.{guid};
ghost use Rattle.krb_negoex.specs.Layouts.{seen, vector};
ghost use Rattle.krb_negoex.specs.Rejected.{OneError, IsMemory, IsUnfit};
ghost use Rattle.krb_negoex.specs.SameLayout.{SameLayout};
ghost use Rattle.krb_negoex.specs.Types.{type_code, IsTypeOf};
ghost use Rattle.krb_negoex.specs.View.{AreAlike, IsNotMemory, NegoSeen, ExchangeSeen, VerifySeen, nego_seen, exchange_seen, verify_seen};
ghost use Rattle.krb_negoex.specs.View.{nego_view_layout, exchange_view_layout, verify_view_layout};
ghost use Rattle.krb_negoex.specs.Wire.{nego_layout, exchange_layout, verify_layout, schemes_layout, extensions_layout, one_octet, type_layout, header_layout, extension_layout, checksum_layout};
ghost use Rattle.krb_negoex.specs.Whole.{four_zeros, written, HasOneReading};
ghost use Rattle.krb_negoex.specs.declared.nego.Nego.{Nego};
ghost use Rattle.krb_negoex.specs.declared.exchange.Exchange.{Exchange};
ghost use Rattle.krb_negoex.specs.declared.verify.Verify.{Verify};

use crate::checksum::Checksum;
use crate::exchange::Exchange;
use crate::extension::Extension;
use crate::header::{MessageHeader, MessageType};
use crate::message::NegoexMessage;
use crate::nego::Nego;
use crate::parts::{Lay, Placed};
use crate::traits::NegoexDataType;
use crate::verify::Verify;
use uuid::Uuid;

/// A message whose payload is laid right after its fixed part, as `new` makes it, is read as it alone.
pub fn messages_read_back()
    ensures nego { (n : Nego) → nego_layout.readable n → nego_layout.laid 96 n → HasOneReading nego_layout 96 [] n }
    ensures exchange { (n : Exchange) → exchange_layout.readable n → exchange_layout.laid 64 n → HasOneReading exchange_layout 64 [] n }
    ensures verify { (n : Verify) → verify_layout.readable n → verify_layout.laid 80 n → HasOneReading verify_layout 80 four_zeros n }
{}

/// The payloads of a message, and so its length, which `new` writes into the header, by what it holds.
pub fn lengths()
    ensures nego { (n : Nego) → length (written nego_layout 96 [] n)
        ≡ 96 + (schemes_layout.payload_size n.auth_schemes + extensions_layout.payload_size n.extensions) }
    ensures exchange { (n : Exchange) → length (written exchange_layout 64 [] n) ≡ 64 + length n.exchange.items }
    ensures verify { (n : Verify) → length (written verify_layout 80 four_zeros n) ≡ 80 + length n.checksum.checksum_value.items }
{}

/// Octets that are no message have one error: all errors of them are of one kind, allocation failures aside.
pub fn rejections_are_of_one_kind()
    ensures nego { (m : List ℕ) (e g : Error) → nego_layout.rejects m m e → nego_layout.rejects m m g → OneError e g }
    ensures exchange { (m : List ℕ) (e g : Error) → exchange_layout.rejects m m e → exchange_layout.rejects m m g → OneError e g }
    ensures verify { (m : List ℕ) (e g : Error) → verify_layout.rejects m m e → verify_layout.rejects m m g → OneError e g }
{}

/// A message and its view, `Nego::decode` and `NegoView::new` and so on, are of one reading: where one is read so is the other, of
/// equal fields, and where there is no message both return one error, allocation failures of `decode` aside.
pub fn views()
    ensures nego { (m : List ℕ) (read : Result Nego Error) (view : Result NegoSeen Error) → IfOk read (nego_layout.part m m)
        → IfErr read (nego_layout.rejects m m) → IfOk view (nego_view_layout.part m m) → IfErr view (nego_view_layout.rejects m m)
        → IfErr view IsNotMemory → AreAlike nego_seen read view }
    ensures exchange { (m : List ℕ) (read : Result Exchange Error) (view : Result ExchangeSeen Error) → IfOk read (exchange_layout.part m m)
        → IfErr read (exchange_layout.rejects m m) → IfOk view (exchange_view_layout.part m m) → IfErr view (exchange_view_layout.rejects m m)
        → IfErr view IsNotMemory → AreAlike exchange_seen read view }
    ensures verify { (m : List ℕ) (read : Result Verify Error) (view : Result VerifySeen Error) → IfOk read (verify_layout.part m m)
        → IfErr read (verify_layout.rejects m m) → IfOk view (verify_view_layout.part m m) → IfErr view (verify_view_layout.rejects m m)
        → IfErr view IsNotMemory → AreAlike verify_seen read view }
{}

/// What `decode` and `encode` of a message speak of: its own layout (MS-NEGOEX 2.2.6.3 to 2.2.6.5), a payload at its header's
/// length, and four zeros before that in a `Verify` alone.
pub fn messages()
    ensures nego { SameLayout ⟦<Nego as Lay>⟧.layout nego_layout }
    ensures nego_between { ⟦<Nego as NegoexMessage>⟧.between ≡ [] }
    ensures nego_start { (n : Nego) → ⟦<Nego as NegoexMessage>⟧.start n ≡ n.header.header_len }
    ensures exchange { SameLayout ⟦<Exchange as Lay>⟧.layout exchange_layout }
    ensures exchange_between { ⟦<Exchange as NegoexMessage>⟧.between ≡ [] }
    ensures exchange_start { (n : Exchange) → ⟦<Exchange as NegoexMessage>⟧.start n ≡ n.header.header_len }
    ensures verify { SameLayout ⟦<Verify as Lay>⟧.layout verify_layout }
    ensures verify_between { ⟦<Verify as NegoexMessage>⟧.between ≡ four_zeros }
    ensures verify_start { (n : Verify) → ⟦<Verify as NegoexMessage>⟧.start n ≡ n.header.header_len }
{}

/// What their errors are: the layout's first error, an allocation failure, a number that does not fit its field, and a writer's
/// error that is not a call which a signal interrupted.
pub fn rejections()
    ensures nego { (m : List ℕ) (e : Error) → ⟦<Nego as NegoexMessage>⟧.rejected m e ↔ nego_layout.rejects m m e }
    ensures nego_memory { (e : Error) → ⟦<Nego as NegoexMessage>⟧.is_memory e ↔ IsMemory e }
    ensures nego_unfit { (e : Error) → ⟦<Nego as NegoexMessage>⟧.is_unfit e ↔ IsUnfit e }
    ensures nego_error { (e : Error) → ⟦<Nego as NegoexMessage>⟧.is_error e ↔ IsNotInterrupted e }
    ensures exchange { (m : List ℕ) (e : Error) → ⟦<Exchange as NegoexMessage>⟧.rejected m e ↔ exchange_layout.rejects m m e }
    ensures exchange_memory { (e : Error) → ⟦<Exchange as NegoexMessage>⟧.is_memory e ↔ IsMemory e }
    ensures exchange_unfit { (e : Error) → ⟦<Exchange as NegoexMessage>⟧.is_unfit e ↔ IsUnfit e }
    ensures exchange_error { (e : Error) → ⟦<Exchange as NegoexMessage>⟧.is_error e ↔ IsNotInterrupted e }
    ensures verify { (m : List ℕ) (e : Error) → ⟦<Verify as NegoexMessage>⟧.rejected m e ↔ verify_layout.rejects m m e }
    ensures verify_memory { (e : Error) → ⟦<Verify as NegoexMessage>⟧.is_memory e ↔ IsMemory e }
    ensures verify_unfit { (e : Error) → ⟦<Verify as NegoexMessage>⟧.is_unfit e ↔ IsUnfit e }
    ensures verify_error { (e : Error) → ⟦<Verify as NegoexMessage>⟧.is_error e ↔ IsNotInterrupted e }
{}

/// What the calls of a type of data speak of: its own layout (MS-NEGOEX 2.2.5 and 2.2.6), and, where it is written by itself, a
/// payload, if there is one, right after the fixed part, or where a checksum's length says.
pub fn types_of_data()
    ensures octet { SameLayout ⟦<u8 as Lay>⟧.layout one_octet }
    ensures octet_start { (v : ℕ) → ⟦<u8 as Placed>⟧.start v ≡ 0 }
    ensures guid { SameLayout ⟦<Uuid as Lay>⟧.layout guid }
    ensures guid_start { (v : List ℕ) → ⟦<Uuid as Placed>⟧.start v ≡ 0 }
    ensures message_type { SameLayout ⟦<MessageType as Lay>⟧.layout type_layout }
    ensures message_type_start { (v : MessageType) → ⟦<MessageType as Placed>⟧.start v ≡ 0 }
    ensures header { SameLayout ⟦<MessageHeader as Lay>⟧.layout header_layout }
    ensures header_start { (v : MessageHeader) → ⟦<MessageHeader as Placed>⟧.start v ≡ 0 }
    ensures extension { SameLayout ⟦<Extension as Lay>⟧.layout extension_layout }
    ensures extension_start { (v : Extension) → ⟦<Extension as Placed>⟧.start v ≡ 12 }
    ensures checksum { SameLayout ⟦<Checksum as Lay>⟧.layout checksum_layout }
    ensures checksum_start { (v : Checksum) → ⟦<Checksum as Placed>⟧.start v ≡ v.header_len }
{}

/// The same of a vector, whose elements have the layout of their type (MS-NEGOEX 2.2.5.2).
pub fn vectors<T: NegoexDataType + Drop>()
    ensures layout { SameLayout ⟦<Vec<T> as Lay>⟧.layout (seen (λ v. v.items) (vector T.layout)) }
    ensures start { (v : Vec T Global) → ⟦<Vec<T> as Placed>⟧.start v ≡ 8 }
{}

/// The message types by their numbers (MS-NEGOEX 2.2.6.1): each number is read as its type, and no other number is; each type is
/// written as its number.
pub fn numbers()
    ensures from_u32 { (n : ℕ) (answer : Result MessageType Error) → ⟦<MessageType as TryFrom<u32>>⟧.try_from_gives n answer ↔ IsTypeOf n answer }
    ensures ref_into_u32 { (kind : Bor MessageType) (n : ℕ) → ⟦<u32 as From<&'static MessageType>>⟧.from_gives kind n ↔ n ≡ type_code kind.now }
{}

/// `==`: it is true for equal values and for no others; where a value holds vectors, for values of equal fields and elements.
pub fn equality()
    ensures message_type { DecidesEqual ⟦<MessageType as PartialEq>⟧.eq }
    ensures header { DecidesEqual ⟦<MessageHeader as PartialEq>⟧.eq }
    ensures extension { DecidesEqualBy extension_parts ⟦<Extension as PartialEq>⟧.eq }
    ensures checksum { DecidesEqualBy checksum_parts ⟦<Checksum as PartialEq>⟧.eq }
    ensures nego { DecidesEqualBy nego_parts ⟦<Nego as PartialEq>⟧.eq }
    ensures exchange { DecidesEqualBy exchange_parts ⟦<Exchange as PartialEq>⟧.eq }
    ensures verify { DecidesEqualBy verify_parts ⟦<Verify as PartialEq>⟧.eq }
{}

/// A clone is the value again.
pub fn clones()
    ensures message_type { ClonesValue ⟦<MessageType as Clone>⟧.is_clone }
    ensures header { ClonesValue ⟦<MessageHeader as Clone>⟧.is_clone }
{}
