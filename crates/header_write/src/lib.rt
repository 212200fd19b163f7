// The 86 header bytes of a machine, put down piece by piece.
#![tactic(auto)]

ghost use Rattle.std.specs.Prelude.{◌+◌, ◌≤◌, ◌≡◌, ◌++◌, length, get_or, drop};
ghost use Rattle.slices.specs.Put.{put};
ghost use Rattle.header_pieces.specs.Pieces.{register_bytes, switch_bytes, port_bytes, counter_bytes};
ghost use Rattle.header_write.specs.Writing.{header_of};

use spectrum::Machine;

// The 86 bytes at the front of dst.
pub fn write_header(m: Machine, dst: &mut [u8])
    requires { 86 ≤ length dst.old }
    ensures { dst.new ≡ header_of m ++ drop 86 dst.old }
{
    write_registers(m, dst);
    write_switches(m, dst);
    write_back(m, dst);
}

fn write_registers(m: Machine, dst: &mut [u8])
    requires { 86 ≤ length dst.old }
    ensures { dst.new ≡ put dst.old 0 (register_bytes m.pairs m.i m.r m.switches.border) }
{
    let pairs = m.pairs;
    let switches = m.switches;
    slices::put_at(
        dst,
        0,
        &header_pieces::first_registers(pairs, m.i, m.r, switches.border),
    );
    slices::put_at(dst, 13, &header_pieces::other_registers(pairs));
}

fn write_switches(m: Machine, dst: &mut [u8])
    requires { 86 ≤ length dst.old }
    ensures { dst.new ≡ put (put dst.old 27 (switch_bytes m.switches (get_or m.pairs 11 0))) 34 (port_bytes m) }
{
    let pairs = m.pairs;
    let switches = m.switches;
    let pc = pairs[11];
    slices::put_at(dst, 27, &header_pieces::switch_bytes(switches, pc));
    slices::put_at(dst, 34, &header_pieces::port_bytes(m));
}

fn write_back(m: Machine, dst: &mut [u8])
    requires { 86 ≤ length dst.old }
    ensures { dst.new ≡ put (put (put dst.old 39 m.sound) 55 (counter_bytes m.model m.position m.side59)) 61 m.side }
{
    let model = m.model;
    let sound = m.sound;
    let side = m.side;
    slices::put16(dst, 39, &sound);
    slices::put_at(
        dst,
        55,
        &header_pieces::counter_bytes(model, m.position, m.side59),
    );
    put25(dst, 61, &side);
}

fn put25(dst: &mut [u8], at: usize, src: &[u8; 25])
    requires { at + 25 ≤ length dst.old }
    ensures { dst.new ≡ put dst.old at src.now }
{
    slices::put_at(dst, at, src);
}
