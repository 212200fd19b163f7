// Reading and writing SCS files over bytes.
#![tactic(auto)]

ghost use Rattle.std.specs.Prelude.{length};
ghost use Rattle.file_bytes.specs.Files.{ReadsBytes, WritesBytes};
ghost use Rattle.scs_bytes.specs.ScsBytes.{scs_read_of_bytes, scs_write_of_bytes};

use numbers::Refusal;

// An SCS file into an area of 131,072 bytes and a header of 86; the offset in the file that is named with the number, or 0.
pub fn read(file: &[u8], area: &mut [u8], head: &mut [u8], offset: &mut u64) -> u32
    ensures { ReadsBytes (scs_read_of_bytes file.now (length area.old) (length head.old)) result offset.new area.new head.new }
{
    if head.len() != 86 {
        slices::fill(area, 0);
        slices::fill(head, 0);
        *offset = 0;
        return numbers::number(Err(Refusal::InvalidMachine));
    }
    let opened = scs_read::read(file, area);
    let m = opened.machine;
    let answer = opened.answer;
    *offset = opened.place as u64;
    m.typed();
    header_write::write_header(m, head);
    numbers::number(answer)
}

// A header and its area into the one SCS file.
pub fn write(head: &[u8], area: &[u8], out: &mut [u8], size: &mut u64) -> u32
    ensures { WritesBytes (scs_write_of_bytes head.now area.now (length out.old)) result size.new out.new }
{
    let decoded = header_canonical::decode_header(head);
    if decoded.canonical {
        let m = decoded.machine;
        let written = scs_write::write(m, area, out);
        let answer = written.answer;
        *size = written.length as u64;
        return numbers::number(answer);
    }
    slices::fill(out, 0);
    *size = 0;
    numbers::number(Err(Refusal::InvalidMachine))
}
