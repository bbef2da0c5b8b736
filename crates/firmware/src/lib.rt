// What the drive box's C firmware calls, by the symbols of `firmware_c`, on numbers and byte slices: the frame reader,
// the byte at fault, the frame writer and the window test here, the whole node in nodes.rt. `include/shelugvar.h`
// declares the symbols.
// Proved: each is the frame's, the window's or the node's own definition, for every input (specs/ says in which
// numbers); a refused call alters nothing. That the header's declarations are these functions nothing proves.
#![tactic(auto)]

pub mod nodes; // nodes.rt: the node's calls

ghost use Rattle.std.specs.Prelude.{◌≡◌};
ghost use Rattle.frame.specs.Faults.{byte_number};
ghost use Rattle.frame.specs.Reading.{read_of};
ghost use Rattle.frame.specs.Writing.{write_answer, written_of};
ghost use Rattle.firmware.specs.Firmware.{read_number, read_fields, fields_in, write_number, window_number};

use frame::faults::fault_byte;
use frame::{Fields, Header};
use units::bytes::{byte_at, put_all};
use units::sizes::{in_force, is_size};
use units::{Address, Channel, Seq};
use window::distance;

// The fields of a frame that was read, stored as C has them: bytes of an array.
#[tactic(auto, unfolding(crate::specs::Firmware::read_fields))]
fn put_fields(fields: &mut [u8], h: Header)
    ensures { fields.new ≡ read_fields (Ok h) fields.old }
{
    let kind = h.kind;
    let bytes = [
        h.destination.0,
        h.protocol,
        h.source.0,
        u8::from(kind),
        0,
        h.channel.0,
        h.seq.0,
    ];
    put_all(fields, 0, &bytes)
}

// Reads a frame: 0 with its fields, or the refusal (10, 15, 16, 17, 18) with `fields` as they were. The payload is the
// frame's own bytes from 8 on, all but the last. [G5]
#[tactic(auto, unfolding(crate::specs::Firmware::read_fields))]
pub fn shelugvar_frame_read(frame: &[u8], fields: &mut [u8; 7]) -> u8
    ensures answer { result ≡ read_number (read_of frame.now) }
    ensures after { fields.new ≡ read_fields (read_of frame.now) fields.old }
{
    match frame::reading::read(frame) {
        Ok(h) => {
            put_fields(fields, h);
            0
        }
        Err(w) => u8::from(w),
    }
}

// The number of the byte at fault, for a refusal of the frame reader or of an arrival: 3, 3, 4, 7 for 15 to 18,
// and 255 for all other numbers. [R47, G5]
pub fn shelugvar_fault_byte(refusal: u8) -> u8
    ensures { result ≡ byte_number refusal }
{
    fault_byte(refusal)
}

// The fields that C hands over, by the definition that C's contracts cite; `frames` reads a record's in the same order,
// by none.
#[tactic(auto, unfolding(crate::specs::Firmware::fields_in))]
fn fields_in(fields: &[u8]) -> Fields
    ensures { result ≡ fields_in fields.now }
{
    let destination = byte_at(fields, 0);
    let protocol = byte_at(fields, 1);
    let source = byte_at(fields, 2);
    let kind = byte_at(fields, 3);
    let user = byte_at(fields, 4);
    let channel = byte_at(fields, 5);
    let seq = byte_at(fields, 6);
    Fields {
        destination: Address(destination),
        protocol,
        source: Address(source),
        kind,
        user,
        channel: Channel(channel),
        seq: Seq(seq),
    }
}

// Writes a frame: 0 with payload + 9 bytes at the buffer's start, or the refusal (15, 16, 18, 5, 6) with the
// buffer as it was. [G5]
pub fn shelugvar_frame_write(buffer: &mut [u8], fields: &[u8; 7], payload: &[u8]) -> u8
    ensures answer { result ≡ write_number (write_answer (fields_in fields.now) payload.now
        buffer.old) }
    ensures after { buffer.new
        ≡ written_of (fields_in fields.now) payload.now buffer.old }
{
    match frame::writing::write(buffer, fields_in(fields), payload) {
        Ok(_) => 0,
        Err(w) => u8::from(w),
    }
}

// Whether a sequence number lies in the window of a size from a start on: 1 in it, 0 outside, 2 where the size is none.
// A size of 0 is the default. [G5]
#[tactic(auto, unfolding(crate::specs::Firmware::window_number))]
pub fn shelugvar_window_test(start: u8, size: u16, seq: u8) -> u8
    ensures { result ≡ window_number start size seq }
{
    let w = in_force(size);
    if is_size(w) {
        if (distance(Seq(start), Seq(seq)) as u16) < w {
            return 1;
        }
        return 0;
    }
    2
}
