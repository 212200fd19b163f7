// Which 86 bytes the writer makes, and of which machine.
#![tactic(auto)]

ghost use Rattle.std.specs.Prelude.{◌≡◌, length};
ghost use Rattle.slices.specs.Same.{same};
ghost use Rattle.header_read.specs.Reading.{machine_of};
ghost use Rattle.header_write.specs.Writing.{header_of};
ghost use Rattle.header_canonical.specs.Canonical.{not_canonical, decoded_as, decoded_of};

use header::{Mode, Version};
use pages::Model;
use spectrum::{Attachment, Machine};

// A machine from 86 bytes; where they are none that the writer makes, the blank machine. The machine stands first, so that a copy of
// the whole moves it in the same pieces as a copy of the machine.
#[derive(Clone, Copy)]
pub struct DecodedHeader {
    pub machine: Machine,
    pub canonical: bool,
}

// The machine whose header these bytes are; the blank machine where they are none that the writer makes.
pub fn decode_header(s: &[u8]) -> DecodedHeader
    ensures { result ≡ decoded_of s.now }
{
    if s.len() != 86 {
        return not_canonical();
    }
    let found = header::mode_v3(s[34]);
    match found {
        Mode::NotCarried => not_canonical(),
        Mode::Carried(model, attachment) => decode_as(s, model, attachment),
    }
}

fn decode_as(s: &[u8], model: Model, attachment: Attachment) -> DecodedHeader
    requires { length s.now ≡ 86 }
    ensures { result ≡ decoded_as (machine_of Version.V3 model attachment s.now) s.now }
{
    let m = header_read::read_machine(s, Version::V3, model, attachment);
    if m.valid() {
        if is_header(m, s) {
            return DecodedHeader {
                canonical: true,
                machine: m,
            };
        }
        return not_canonical();
    }
    not_canonical()
}

fn not_canonical() -> DecodedHeader
    ensures { result ≡ not_canonical }
{
    DecodedHeader {
        canonical: false,
        machine: Machine::blank(),
    }
}

// Whether the bytes are the machine's header.
fn is_header(m: Machine, s: &[u8]) -> bool
    ensures { result ≡ same s.now (header_of m) }
{
    let mut h = [0u8; 86];
    header_write::write_header(m, &mut h);
    same_bytes(s, &h)
}

// Looks at every byte, so that the compiler can look at many at once.
fn same_bytes(s: &[u8], h: &[u8]) -> bool
    ensures { result ≡ same s.now h.now }
{
    if s.len() != h.len() {
        return false;
    }
    let mut all = true;
    let mut i = 0;
    while i < s.len() {
        all = slices::and(all, s[i] == h[i]);
        i += 1;
    }
    all
}
