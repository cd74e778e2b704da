// A cell's record: a number of 112 bits, whose fields stand one below the other, as 14 bytes.
ghost use Rattle.std.specs.Prelude.{◌≡◌, ◌<◌, length};
ghost use Rattle.records.specs.Fields.{joined};
ghost use Rattle.records.specs.Record.{record_size, octets, layout, values_of, packed, values_in, cell_of, sound};

use plan::Cell;

/// How many bytes a record has.
pub const RECORD: usize = 14;

pub(crate) type Record = [u8; RECORD];

// How many of a number's 16 bytes stand above those of a record.
const ABOVE: usize = 16 - RECORD;

// What 1 in each field adds to the number; extra, the last field, counts in ones.
const KIND: u128 = 1 << 104;

const CHILDREN: u128 = 1 << 98;

const PARAMETER: u128 = 1 << 83;

const MARK: u128 = 1 << 82;

const FETCH_BIT: u128 = 1 << 81;

const HINT_BIT: u128 = 1 << 80;

const FETCH: u128 = 1 << 40;

// How many values a field of 40 bits has.
const NUMBERS: u128 = 1 << 40;

// The number that a record's bytes write, most significant first.
// Byte by byte, here and in `write_record`: `copy_from_slice` makes a detour over the stack, which takes twice as long.
fn read_number(bytes: &Record) -> u128
    ensures { result ≡ joined (octets record_size) bytes.now }
{
    let mut whole = [0; 16];
    for (place, byte) in bytes.iter().enumerate() {
        whole[ABOVE + place] = *byte;
    }
    u128::from_be_bytes(whole)
}

// The number of a cell's record.
fn number_of(cell: &Cell) -> u128
    ensures value { result ≡ joined layout (values_of cell.now) }
    ensures kind { cell.now.kind < 256 }
{
    let head = u128::from(cell.kind) * KIND
        + u128::from(cell.children) * CHILDREN
        + u128::from(cell.parameter) * PARAMETER;
    let flags = u128::from(cell.mark) * MARK
        + u128::from(cell.fetch.is_some()) * FETCH_BIT
        + u128::from(cell.hint.is_some()) * HINT_BIT;
    let fetch = cell.fetch.unwrap_or(0);
    let extra = cell.hint.unwrap_or(cell.skip);
    head + flags + u128::from(fetch) * FETCH + u128::from(extra)
}

/// Writes the record of a cell over all of `out`.
pub(crate) fn write_record(cell: &Cell, out: &mut [u8])
    requires { length out.old ≡ record_size }
    ensures bytes { out.new ≡ packed cell.now }
    ensures kind { cell.now.kind < 256 }
{
    let bytes = number_of(cell).to_be_bytes();
    for (place, byte) in out.iter_mut().enumerate() {
        *byte = bytes[ABOVE + place];
    }
}

/// A record without the fetch bit has no fetch.
pub(crate) fn is_sound(bytes: &Record) -> bool
    ensures { result ≡ sound (values_in bytes.now) }
{
    let number = read_number(bytes);
    number / FETCH_BIT % 2 == 1 || number / FETCH % NUMBERS == 0
}

/// The cell of a record.
pub(crate) fn cell_of(bytes: &Record) -> Cell
    ensures { result ≡ cell_of (values_in bytes.now) }
{
    let number = read_number(bytes);
    // Casts, since each quotient fits: `try_from` would add a branch that never runs.
    let fetch = (number / FETCH % NUMBERS) as u64;
    let extra = (number % NUMBERS) as u64;
    let fetched = number / FETCH_BIT % 2 == 1;
    let hinted = number / HINT_BIT % 2 == 1;
    Cell {
        kind: (number / KIND % 0x100) as u8,
        children: (number / CHILDREN % 0x40) as u8,
        parameter: (number / PARAMETER % 0x8000) as u32,
        mark: number / MARK % 2 == 1,
        fetch: fetched.then_some(fetch),
        hint: hinted.then_some(extra),
        skip: if hinted { 0 } else { extra },
    }
}
