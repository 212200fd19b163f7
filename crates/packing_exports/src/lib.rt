// Packing and unpacking under C names, for tests and benchmarks only.
#![tactic(auto)]

ghost use Rattle.std.specs.Prelude.{◌<◌, ◌≤◌, ◌≡◌, length};
ghost use Rattle.packed.specs.Packed.{unpacked, packed};
ghost use Rattle.packed.specs.Unpacking.{answer_of, left_by};
ghost use Rattle.packed.specs.Packing.{fits, fitted};
ghost use Rattle.packing_exports.specs.Codes.{unpack_code, bad_place, found_length, pack_code, length_in};

use packed::{Fit, Unpacked};

// 0 good, 1 malformed, 2 wrong length; the place of the first bad code, or 0; the wrong length, or 0.
pub fn packing_unpack(src: &[u8], dst: &mut [u8], place: &mut u64, found: &mut u64) -> u32
    ensures { (result ≡ unpack_code (answer_of (unpacked src.now) (length dst.old))) × ((place.new ≡ bad_place (answer_of (unpacked src.now) (length dst.old))) × ((found.new ≡ found_length (answer_of (unpacked src.now) (length dst.old))) × (dst.new ≡ left_by (unpacked src.now) (length dst.old)))) }
{
    let r = unpacking::unpack(src, dst);
    *place = bad_place(r);
    *found = found_length(r);
    unpack_code(r)
}

// The same for a part of `due` bytes that is not there; 3 where 65,536 or more are due.
pub fn packing_would_unpack(src: &[u8], due: u64, place: &mut u64, found: &mut u64) -> u32
    ensures { (due < 65536 → (result ≡ unpack_code (answer_of (unpacked src.now) due)) × ((place.new ≡ bad_place (answer_of (unpacked src.now) due)) × (found.new ≡ found_length (answer_of (unpacked src.now) due)))) × (65536 ≤ due → (result ≡ 3) × ((place.new ≡ 0) × (found.new ≡ 0))) }
{
    if due < 65536 {
        let r = counting::would_unpack(src, due as usize);
        *place = bad_place(r);
        *found = found_length(r);
        return unpack_code(r);
    }
    *place = 0;
    *found = 0;
    3
}

// 0 and the packed length, or 1 and length 0 where dst is too short.
pub fn packing_pack(src: &[u8], dst: &mut [u8], size: &mut u64) -> u32
    ensures { (result ≡ pack_code (fits (packed src.now) (length dst.old))) × ((size.new ≡ length_in (fits (packed src.now) (length dst.old))) × (dst.new ≡ fitted (packed src.now) (length dst.old))) }
{
    let r = packing::pack(src, dst);
    *size = length_in(r);
    pack_code(r)
}

// The packed length.
pub fn packing_packed_len(src: &[u8]) -> u64
    ensures { result ≡ length (packed src.now) }
{
    measuring::packed_len(src) as u64
}

fn unpack_code(r: Unpacked) -> u32
    ensures { result ≡ unpack_code r }
{
    match r {
        Unpacked::Good => 0,
        Unpacked::Malformed(_) => 1,
        Unpacked::WrongLength(_) => 2,
    }
}

fn bad_place(r: Unpacked) -> u64
    ensures { result ≡ bad_place r }
{
    match r {
        Unpacked::Good => 0,
        Unpacked::Malformed(i) => i as u64,
        Unpacked::WrongLength(_) => 0,
    }
}

fn found_length(r: Unpacked) -> u64
    ensures { result ≡ found_length r }
{
    match r {
        Unpacked::Good => 0,
        Unpacked::Malformed(_) => 0,
        Unpacked::WrongLength(n) => n as u64,
    }
}

fn pack_code(r: Fit) -> u32
    ensures { result ≡ pack_code r }
{
    match r {
        Fit::Length(_) => 0,
        Fit::TooShort => 1,
    }
}

fn length_in(r: Fit) -> u64
    ensures { result ≡ length_in r }
{
    match r {
        Fit::Length(n) => n as u64,
        Fit::TooShort => 0,
    }
}
