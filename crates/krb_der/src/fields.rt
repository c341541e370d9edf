//! The fields of a sequence: tagged ones, optional ones, and tuples of up to six of these, which are groups of fields.

ghost use Rattle.std.specs.Prelude.{◌≡◌, ◌==◌, ◌+◌, ◌++◌, ◌||◌, None, IfSome};
ghost use Rattle.std.proofs.Common.{ap};
ghost use Rattle.krb_der_core.specs.Tlv.{tlv};
ghost use Rattle.krb_der_core.specs.TlvLaws.{tagged_element, tagged_one_value};
ghost use Rattle.krb_der_core.specs.Encoding.{Apart, optional};
ghost use Rattle.krb_der_core.specs.Errors.{PrefixError};
ghost use Rattle.krb_der_core.specs.ErrorLaws.{prefix_laws};
ghost use Rattle.krb_der.specs.FieldErrors.{IsAbsent, OptionalError, PairError};
ghost use Rattle.krb_der.specs.FieldErrorLaws.{optional_laws, optional_distinguished, pair_laws, pair_distinguished, regrouped_laws};
ghost use Rattle.krb_der.specs.FieldLaws.{field_begins, field_one_reading, optional_begins, optional_one_reading, both_begins, both_one_reading};

use crate::context_tag::{ExplicitContextTag, TagNumber};
use crate::optional::Optional;
use crate::sequence::{FieldRefs, Fields};
use krb_der_core::{Asn1DerError, Der, DerEncode};
use std::alloc::{AllocError, Global};

/// A mandatory field.
impl<T: Der + Drop, N: TagNumber> Fields for ExplicitContextTag<T, N> {
    ghost octets = { λ v. tlv (160 + N.number) (T.enc v) };

    ghost are_values = { T.is_value };

    ghost begins = { λ follow t. t == 160 + N.number };

    ghost distinguished = { λ follow. Unit {0} };

    ghost begin_so = { field_begins (λ v. tlv (160 + N.number) (T.enc v)) T.is_value (λ t. t == 160 + N.number)
        (λ v h. tagged_element (160 + N.number) (T.enc v)) };

    ghost one_reading = { field_one_reading (λ v. tlv (160 + N.number) (T.enc v)) T.is_value (λ t. t == 160 + N.number)
        (λ v h. tagged_element (160 + N.number) (T.enc v)) (tagged_one_value (160 + N.number) T.is_value T.enc T.one_value) };

    ghost ends = { λ v rest. Unit {0} };

    ghost error = { PrefixError (λ t. t == 160 + N.number) ⟦<Self as DerEncode>⟧.error };

    ghost error_laws = { prefix_laws _ _ _ ⟦<Self as DerEncode>⟧.is_element _ ⟦<Self as DerEncode>⟧.error_laws ⟦<Self as DerEncode>⟧.one_value };

    ghost distinguished_ends = { λ follow is_apart v x h hx. tt };

    fn read_fields(alloc: Global, input: &[u8]) -> Result<(Self, usize), Asn1DerError> {
        let (value, taken) = Self::read(alloc, input)?;
        Ok((value, taken))
    }
}

/// An optional field: it is present where the next octet may begin its encoding.
impl<T: Der + Drop> Fields for Optional<Option<T>> {
    ghost octets = { λ v. optional T.enc v.0 };

    ghost are_values = { λ v. IfSome v.0 T.is_value };

    ghost begins = { λ follow t. T.first t || follow t };

    ghost distinguished = { λ follow. Apart T.first follow };

    ghost begin_so = { optional_begins T.enc T.is_value T.first T.is_element };

    ghost one_reading = { optional_one_reading T.enc T.is_value T.first T.is_element T.one_value };

    ghost ends = { λ v rest. v.0 ≡ None → IsAbsent T.first rest };

    ghost error = { OptionalError T.first T.error };

    ghost error_laws = { optional_laws T.enc T.is_value T.first T.is_element T.one_value T.error T.error_laws };

    ghost distinguished_ends = { optional_distinguished T.enc T.is_value T.first T.is_element };

    fn read_fields(alloc: Global, input: &[u8]) -> Result<(Self, usize), Asn1DerError> {
        if input.is_empty() || !T::starts(input[0]) {
            return Ok((Optional(None), 0));
        }
        let (value, taken) = T::read(alloc, input)?;
        Ok((Optional(Some(value)), taken))
    }
}

/// Two fields, or groups of fields.
impl<L: Fields + Drop, R: Fields> Fields for (L, R) {
    ghost octets = { λ v. L.octets v.0 ++ R.octets v.1 };

    ghost are_values = { λ v. L.are_values v.0 × R.are_values v.1 };

    ghost begins = { λ follow. L.begins (R.begins follow) };

    ghost distinguished = { λ follow. L.distinguished (R.begins follow) × R.distinguished follow };

    ghost begin_so = { both_begins L.octets R.octets L.are_values R.are_values L.begins R.begins L.begin_so R.begin_so };

    ghost one_reading = { both_one_reading L.octets R.octets L.are_values R.are_values L.begins R.begins L.begin_so R.begin_so
        L.distinguished R.distinguished L.one_reading R.one_reading };

    ghost ends = { λ v rest. L.ends v.0 (R.octets v.1 ++ rest) × R.ends v.1 rest };

    ghost error = { PairError L.are_values L.octets L.ends L.error R.error };

    ghost error_laws = { pair_laws L.are_values L.octets L.ends L.error L.error_laws R.are_values R.octets R.ends R.error R.error_laws };

    ghost distinguished_ends = { pair_distinguished L.are_values L.octets L.ends L.error L.error_laws R.are_values R.octets R.ends R.error R.error_laws
        L.distinguished R.distinguished R.begins R.begin_so L.distinguished_ends R.distinguished_ends };

    fn read_fields(alloc: Global, input: &[u8]) -> Result<(Self, usize), Asn1DerError> {
        let (left, taken) = L::read_fields(alloc, input)?;
        let (right, more) = R::read_fields(alloc, &input[taken..])?;
        Ok(((left, right), taken + more))
    }
}

/// Three fields, or groups of fields.
impl<A: Fields + Drop, B: Fields + Drop, C: Fields> Fields for (A, B, C) {
    ghost octets = { λ v. A.octets v.0 ++ B.octets v.1 ++ C.octets v.2 };

    ghost are_values = { λ v. A.are_values v.0 × B.are_values v.1 × C.are_values v.2 };

    ghost begins = { λ follow. A.begins (B.begins (C.begins follow)) };

    ghost distinguished = { λ follow. A.distinguished (B.begins (C.begins follow)) × B.distinguished (C.begins follow) × C.distinguished follow };

    ghost begin_so = { λ follow v x h. ⟦<((A, B), C) as Fields>⟧.begin_so follow ((v.0, v.1), v.2) x ((h.0, h.1), h.2) };

    ghost one_reading = { λ follow is_apart v w x y hv hw hx hy e. let s = ⟦<((A, B), C) as Fields>⟧.one_reading follow
        ((is_apart.0, is_apart.1), is_apart.2) ((v.0, v.1), v.2) ((w.0, w.1), w.2) x y ((hv.0, hv.1), hv.2) ((hw.0, hw.1), hw.2) hx hy e
        in (ap (λ p. (p.0.0, p.0.1, p.1)) s.0, s.1) };

    ghost ends = { λ v. ⟦<((A, B), C) as Fields>⟧.ends ((v.0, v.1), v.2) };

    ghost error = { ⟦<((A, B), C) as Fields>⟧.error };

    ghost error_laws = { regrouped_laws (λ v. ((v.0, v.1), v.2)) _ _ _ _ _ ⟦<((A, B), C) as Fields>⟧.error_laws (λ v h. ((h.0, h.1), h.2)) };

    ghost distinguished_ends = { λ follow is_apart v x h hx. ⟦<((A, B), C) as Fields>⟧.distinguished_ends follow ((is_apart.0, is_apart.1), is_apart.2) ((v.0, v.1), v.2) x
        ((h.0, h.1), h.2) hx };

    fn read_fields(alloc: Global, input: &[u8]) -> Result<(Self, usize), Asn1DerError> {
        let (((a, b), c), taken) = <((A, B), C)>::read_fields(alloc, input)?;
        Ok(((a, b, c), taken))
    }
}

/// Four fields, or groups of fields.
impl<A: Fields + Drop, B: Fields + Drop, C: Fields + Drop, D: Fields> Fields for (A, B, C, D) {
    ghost octets = { λ v. A.octets v.0 ++ B.octets v.1 ++ C.octets v.2 ++ D.octets v.3 };

    ghost are_values = { λ v. A.are_values v.0 × B.are_values v.1 × C.are_values v.2 × D.are_values v.3 };

    ghost begins = { λ follow. A.begins (B.begins (C.begins (D.begins follow))) };

    ghost distinguished = { λ follow. A.distinguished (B.begins (C.begins (D.begins follow))) × B.distinguished (C.begins (D.begins follow))
        × C.distinguished (D.begins follow) × D.distinguished follow };

    ghost begin_so = { λ follow v x h. ⟦<((A, B, C), D) as Fields>⟧.begin_so follow ((v.0, v.1, v.2), v.3) x ((h.0, h.1, h.2), h.3) };

    ghost one_reading = { λ follow is_apart v w x y hv hw hx hy e. let s = ⟦<((A, B, C), D) as Fields>⟧.one_reading follow
        ((is_apart.0, is_apart.1, is_apart.2), is_apart.3) ((v.0, v.1, v.2), v.3) ((w.0, w.1, w.2), w.3) x y ((hv.0, hv.1, hv.2), hv.3)
        ((hw.0, hw.1, hw.2), hw.3) hx hy e in (ap (λ p. (p.0.0, p.0.1, p.0.2, p.1)) s.0, s.1) };

    ghost ends = { λ v. ⟦<((A, B, C), D) as Fields>⟧.ends ((v.0, v.1, v.2), v.3) };

    ghost error = { ⟦<((A, B, C), D) as Fields>⟧.error };

    ghost error_laws = { regrouped_laws (λ v. ((v.0, v.1, v.2), v.3)) _ _ _ _ _ ⟦<((A, B, C), D) as Fields>⟧.error_laws (λ v h. ((h.0, h.1, h.2), h.3)) };

    ghost distinguished_ends = { λ follow is_apart v x h hx. ⟦<((A, B, C), D) as Fields>⟧.distinguished_ends follow ((is_apart.0, is_apart.1, is_apart.2), is_apart.3)
        ((v.0, v.1, v.2), v.3) x ((h.0, h.1, h.2), h.3) hx };

    fn read_fields(alloc: Global, input: &[u8]) -> Result<(Self, usize), Asn1DerError> {
        let (((a, b, c), d), taken) = <((A, B, C), D)>::read_fields(alloc, input)?;
        Ok(((a, b, c, d), taken))
    }
}

/// Five fields, or groups of fields.
impl<A: Fields + Drop, B: Fields + Drop, C: Fields + Drop, D: Fields + Drop, E: Fields> Fields
    for (A, B, C, D, E) {
    ghost octets = { λ v. A.octets v.0 ++ B.octets v.1 ++ C.octets v.2 ++ D.octets v.3 ++ E.octets v.4 };

    ghost are_values = { λ v. A.are_values v.0 × B.are_values v.1 × C.are_values v.2 × D.are_values v.3 × E.are_values v.4 };

    ghost begins = { λ follow. A.begins (B.begins (C.begins (D.begins (E.begins follow)))) };

    ghost distinguished = { λ follow. A.distinguished (B.begins (C.begins (D.begins (E.begins follow))))
        × B.distinguished (C.begins (D.begins (E.begins follow))) × C.distinguished (D.begins (E.begins follow))
        × D.distinguished (E.begins follow) × E.distinguished follow };

    ghost begin_so = { λ follow v x h. ⟦<((A, B, C, D), E) as Fields>⟧.begin_so follow ((v.0, v.1, v.2, v.3), v.4) x ((h.0, h.1, h.2, h.3), h.4) };

    ghost one_reading = { λ follow is_apart v w x y hv hw hx hy e. let s = ⟦<((A, B, C, D), E) as Fields>⟧.one_reading follow
        ((is_apart.0, is_apart.1, is_apart.2, is_apart.3), is_apart.4) ((v.0, v.1, v.2, v.3), v.4) ((w.0, w.1, w.2, w.3), w.4) x y
        ((hv.0, hv.1, hv.2, hv.3), hv.4) ((hw.0, hw.1, hw.2, hw.3), hw.4) hx hy e in (ap (λ p. (p.0.0, p.0.1, p.0.2, p.0.3, p.1)) s.0, s.1) };

    ghost ends = { λ v. ⟦<((A, B, C, D), E) as Fields>⟧.ends ((v.0, v.1, v.2, v.3), v.4) };

    ghost error = { ⟦<((A, B, C, D), E) as Fields>⟧.error };

    ghost error_laws = { regrouped_laws (λ v. ((v.0, v.1, v.2, v.3), v.4)) _ _ _ _ _
        ⟦<((A, B, C, D), E) as Fields>⟧.error_laws (λ v h. ((h.0, h.1, h.2, h.3), h.4)) };

    ghost distinguished_ends = { λ follow is_apart v x h hx. ⟦<((A, B, C, D), E) as Fields>⟧.distinguished_ends follow
        ((is_apart.0, is_apart.1, is_apart.2, is_apart.3), is_apart.4) ((v.0, v.1, v.2, v.3), v.4) x ((h.0, h.1, h.2, h.3), h.4) hx };

    fn read_fields(alloc: Global, input: &[u8]) -> Result<(Self, usize), Asn1DerError> {
        let (((a, b, c, d), e), taken) = <((A, B, C, D), E)>::read_fields(alloc, input)?;
        Ok(((a, b, c, d, e), taken))
    }
}

/// Six fields, or groups of fields.
impl<
    A: Fields + Drop,
    B: Fields + Drop,
    C: Fields + Drop,
    D: Fields + Drop,
    E: Fields + Drop,
    F: Fields,
> Fields for (A, B, C, D, E, F) {
    ghost octets = { λ v. A.octets v.0 ++ B.octets v.1 ++ C.octets v.2 ++ D.octets v.3 ++ E.octets v.4 ++ F.octets v.5 };

    ghost are_values = { λ v. A.are_values v.0 × B.are_values v.1 × C.are_values v.2 × D.are_values v.3 × E.are_values v.4 × F.are_values v.5 };

    ghost begins = { λ follow. A.begins (B.begins (C.begins (D.begins (E.begins (F.begins follow))))) };

    ghost distinguished = { λ follow. A.distinguished (B.begins (C.begins (D.begins (E.begins (F.begins follow)))))
        × B.distinguished (C.begins (D.begins (E.begins (F.begins follow)))) × C.distinguished (D.begins (E.begins (F.begins follow)))
        × D.distinguished (E.begins (F.begins follow)) × E.distinguished (F.begins follow) × F.distinguished follow };

    ghost begin_so = { λ follow v x h. ⟦<((A, B, C, D, E), F) as Fields>⟧.begin_so follow ((v.0, v.1, v.2, v.3, v.4), v.5) x ((h.0, h.1, h.2, h.3, h.4), h.5) };

    ghost one_reading = { λ follow is_apart v w x y hv hw hx hy e. let s = ⟦<((A, B, C, D, E), F) as Fields>⟧.one_reading follow
        ((is_apart.0, is_apart.1, is_apart.2, is_apart.3, is_apart.4), is_apart.5) ((v.0, v.1, v.2, v.3, v.4), v.5) ((w.0, w.1, w.2, w.3, w.4), w.5) x y
        ((hv.0, hv.1, hv.2, hv.3, hv.4), hv.5) ((hw.0, hw.1, hw.2, hw.3, hw.4), hw.5) hx hy e
        in (ap (λ p. (p.0.0, p.0.1, p.0.2, p.0.3, p.0.4, p.1)) s.0, s.1) };

    ghost ends = { λ v. ⟦<((A, B, C, D, E), F) as Fields>⟧.ends ((v.0, v.1, v.2, v.3, v.4), v.5) };

    ghost error = { ⟦<((A, B, C, D, E), F) as Fields>⟧.error };

    ghost error_laws = { regrouped_laws (λ v. ((v.0, v.1, v.2, v.3, v.4), v.5)) _ _ _ _ _
        ⟦<((A, B, C, D, E), F) as Fields>⟧.error_laws (λ v h. ((h.0, h.1, h.2, h.3, h.4), h.5)) };

    ghost distinguished_ends = { λ follow is_apart v x h hx. ⟦<((A, B, C, D, E), F) as Fields>⟧.distinguished_ends follow
        ((is_apart.0, is_apart.1, is_apart.2, is_apart.3, is_apart.4), is_apart.5) ((v.0, v.1, v.2, v.3, v.4), v.5) x ((h.0, h.1, h.2, h.3, h.4), h.5) hx };

    fn read_fields(alloc: Global, input: &[u8]) -> Result<(Self, usize), Asn1DerError> {
        let (((a, b, c, d, e), f), taken) = <((A, B, C, D, E), F)>::read_fields(alloc, input)?;
        Ok(((a, b, c, d, e, f), taken))
    }
}

/// A mandatory field.
impl<'a, T: DerEncode, N: TagNumber> FieldRefs for &'a ExplicitContextTag<T, N> {
    ghost octets = { λ v. tlv (160 + N.number) (T.enc v.now) };

    ghost are_values = { λ v. T.is_value v.now };

    fn write_refs(&self, alloc: Global, out: &mut Vec<u8>) -> Result<(), AllocError> {
        self.write(alloc, out)
    }
}

/// An optional field: `None` is written as no octets.
impl<'a, T: DerEncode> FieldRefs for &'a Optional<Option<T>> {
    ghost octets = { λ v. optional T.enc v.now.0 };

    ghost are_values = { λ v. IfSome v.now.0 T.is_value };

    fn write_refs(&self, alloc: Global, out: &mut Vec<u8>) -> Result<(), AllocError> {
        match &self.0 {
            Some(value) => value.write(alloc, out),
            None => Ok(()),
        }
    }
}

/// Fields, and the next field or group. `field_refs!` makes these pairs.
impl<L: FieldRefs, R: FieldRefs> FieldRefs for (L, R) {
    ghost octets = { λ v. L.octets v.0 ++ R.octets v.1 };

    ghost are_values = { λ v. L.are_values v.0 × R.are_values v.1 };

    fn write_refs(&self, alloc: Global, out: &mut Vec<u8>) -> Result<(), AllocError> {
        let start = out.len();
        self.0.write_refs(alloc, out)?;
        let written = self.1.write_refs(alloc, out);
        if written.is_err() {
            out.truncate(start);
        }
        written
    }
}
