//! The directory of a PAC.

ghost use Rattle.std.specs.Prelude.{◌≡◌, map};
ghost use Rattle.krb_c_calls.specs.Handing.{ArePut};
ghost use Rattle.krb_c_calls.specs.Pac.{IsPacBuffer, IsPacBuffers, IsPacCount, place_record};

use crate::frames::refusal::pac_refusal;
use crate::{CallError, DONE, ROOM};
use krb_pac::{PacInfoBuffer, PacView};

/// `krb_pac_place` of `krb.h`: the type of a buffer of a PAC, and the place of its octets. It has no
/// pointer in it.
#[repr(C)]
#[derive(Clone, Copy)]
pub struct PlaceRecord {
    /// How many octets of the PAC stand before its own.
    pub offset: usize,
    /// How many octets it has.
    pub size: usize,
    /// Its type, ulType (MS-PAC 2.4).
    pub ul_type: u32,
}

/// How many buffers the PAC has (MS-PAC 2.3, PACTYPE). No memory is taken.
///
/// Of octets that are no PAC the first error is told, in the order of count, version, and each entry with the octets that it names: 10
/// where the octets end too early, 25 for another version than 0, 26 for the number of no type of a buffer, 27 where a buffer names octets
/// that are not there. `count` is then 0.
pub fn pac_count(pac: &[u8], count: &mut usize) -> u32
    ensures { IsPacCount pac.now count.new result }
{
    match PacView::new(pac) {
        Ok(view) => {
            *count = view.len();
            DONE
        }
        Err(error) => {
            *count = 0;
            pac_refusal(&error).status()
        }
    }
}

/// Buffer n of the PAC, counted from 0 in the order of the entries (MS-PAC 2.4, PAC_INFO_BUFFER): its type, and the place of its octets in
/// the PAC, by the octets before them and by how many they are. No memory is taken.
///
/// 10, 25, 26 or 27 as `pac_count` answers; else 20 where there are not so many buffers. `ul_type`, `offset` and `size` are then 0.
pub fn pac_buffer(
    pac: &[u8],
    n: usize,
    ul_type: &mut u32,
    offset: &mut usize,
    size: &mut usize,
) -> u32
    ensures { IsPacBuffer pac.now n ul_type.new offset.new size.new result }
{
    *ul_type = 0;
    *offset = 0;
    *size = 0;
    let view = match PacView::new(pac) {
        Ok(view) => view,
        Err(error) => return pac_refusal(&error).status(),
    };
    match view.get(n) {
        Some(buffer) => {
            let entry = buffer.info_buffer();
            *ul_type = u32::from(entry.ul_type());
            *offset = entry.offset() as usize;
            *size = entry.cb_buffer_size() as usize;
            DONE
        }
        None => CallError::Absent.status(),
    }
}

/// What an entry says.
fn place_record(entry: &PacInfoBuffer) -> PlaceRecord
    ensures { result ≡ place_record entry.now }
{
    PlaceRecord {
        offset: entry.offset() as usize,
        size: entry.cb_buffer_size() as usize,
        ul_type: u32::from(entry.ul_type()),
    }
}

/// Puts what the entries say to the front of the caller's, if there is room.
fn put_places(view: &PacView<'_>, places: &mut [PlaceRecord], count: &mut usize) -> u32
    ensures { ArePut (map (λ b. place_record b.info) view.now) places.old places.new count.new result }
{
    *count = view.len();
    if view.len() > places.len() {
        return ROOM;
    }
    'places: for n in 0..view.len() {
        let Some(buffer) = view.get(n) else {
            unreachable!()
        };
        places[n] = place_record(buffer.info_buffer());
    }
    DONE
}

/// All buffers of the PAC, in the order of the entries (MS-PAC 2.4, PAC_INFO_BUFFER): the type of
/// each, and the place of its octets in the PAC. The directory is read once, and no memory is taken.
///
/// `DONE` where they are at the front of `places`, and `count` says how many; `ROOM` where they are
/// `count`, and more than `places` has room for, which is as it was. Else 10, 25, 26 or 27 as
/// `pac_count` answers; `count` is then 0, and `places` as it was.
pub fn pac_buffers(pac: &[u8], places: &mut [PlaceRecord], count: &mut usize) -> u32
    ensures { IsPacBuffers pac.now places.old places.new count.new result }
{
    match PacView::new(pac) {
        Ok(view) => put_places(&view, places, count),
        Err(error) => {
            *count = 0;
            pac_refusal(&error).status()
        }
    }
}
