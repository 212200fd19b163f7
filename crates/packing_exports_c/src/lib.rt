// The functions of `packing_exports` for C, for tests and benchmarks only. Each calls the function of its name and promises the same.
#![tactic(auto)]

ghost use Rattle.std.specs.Prelude.{◌<◌, ◌≤◌, ◌≡◌, length};
ghost use Rattle.packed.specs.Packed.{unpacked, packed};
ghost use Rattle.packed.specs.Unpacking.{answer_of, left_by};
ghost use Rattle.packed.specs.Packing.{fits, fitted};
ghost use Rattle.packing_exports.specs.Codes.{unpack_code, bad_place, found_length, pack_code, length_in};

// 0 good, 1 malformed, 2 wrong length; the place of the first bad code, or 0; the wrong length, or 0.
#[unsafe(no_mangle)]
pub extern "C" fn packing_unpack(
    src: &[u8],
    dst: &mut [u8],
    place: &mut u64,
    found: &mut u64,
) -> u32
    ensures { (result ≡ unpack_code (answer_of (unpacked src.now) (length dst.old))) × ((place.new ≡ bad_place (answer_of (unpacked src.now) (length dst.old))) × ((found.new ≡ found_length (answer_of (unpacked src.now) (length dst.old))) × (dst.new ≡ left_by (unpacked src.now) (length dst.old)))) }
{
    packing_exports::packing_unpack(src, dst, place, found)
}

// The same for a part of `due` bytes that is not there; 3 where 65,536 or more are due.
#[unsafe(no_mangle)]
pub extern "C" fn packing_would_unpack(
    src: &[u8],
    due: u64,
    place: &mut u64,
    found: &mut u64,
) -> u32
    ensures { (due < 65536 → (result ≡ unpack_code (answer_of (unpacked src.now) due)) × ((place.new ≡ bad_place (answer_of (unpacked src.now) due)) × (found.new ≡ found_length (answer_of (unpacked src.now) due)))) × (65536 ≤ due → (result ≡ 3) × ((place.new ≡ 0) × (found.new ≡ 0))) }
{
    packing_exports::packing_would_unpack(src, due, place, found)
}

// 0 and the packed length, or 1 and length 0 where dst is too short.
#[unsafe(no_mangle)]
pub extern "C" fn packing_pack(src: &[u8], dst: &mut [u8], size: &mut u64) -> u32
    ensures { (result ≡ pack_code (fits (packed src.now) (length dst.old))) × ((size.new ≡ length_in (fits (packed src.now) (length dst.old))) × (dst.new ≡ fitted (packed src.now) (length dst.old))) }
{
    packing_exports::packing_pack(src, dst, size)
}

// The packed length.
#[unsafe(no_mangle)]
pub extern "C" fn packing_packed_len(src: &[u8]) -> u64
    ensures { result ≡ length (packed src.now) }
{
    packing_exports::packing_packed_len(src)
}
