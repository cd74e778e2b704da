// Plans as packed bytes.
ghost use Rattle.std.specs.Prelude.{◌≡◌, ◌+◌, ◌*◌, ◌/◌, ◌<◌, ◌≤◌, ◌++◌, map, length, take, drop, IfOk, Ok, Bool};
ghost use Rattle.std.specs.List.{AllByRecursion};
ghost use Rattle.plan.specs.declared.refusals.Refusal.TheVariants.{Packed, Fit, Fields};
ghost use Rattle.plan.specs.Cells.{blank};
ghost use Rattle.records.specs.Record.{record_size, cell_of, sound, values_in};
ghost use Rattle.records.specs.Plans.{packed_plan, plan_values, fits, in_range, all_pass, packing, unpacking};
ghost use Rattle.plan.specs.Tables.{counted, laid};

use crate::layout::{RECORD, Record, cell_of, is_sound, write_record};
use plan::{Cell, Fault, MAX_CHILDREN, MAX_NUMBER, MAX_PARAMETER, Refusal};

fn is_fit(cell: &Cell) -> bool
    ensures { result ≡ fits cell.now }
{
    cell.children <= MAX_CHILDREN && cell.parameter <= MAX_PARAMETER
}

fn is_in_range(cell: &Cell) -> bool
    ensures { result ≡ in_range cell.now }
{
    cell.fetch.is_none_or(|fetch| fetch <= MAX_NUMBER)
        && cell
            .hint
            .is_none_or(|hint| hint <= MAX_NUMBER && cell.skip == 0)
        && cell.skip <= MAX_NUMBER
}

// Refuses the first item that does not pass.
fn check_each<T, F: Fn(&T) -> bool>(items: &[T], refusal: Refusal, passes: F) -> Result<(), Fault>
    requires { F.IsAlwaysCallable passes }
    ensures { (test : T → Bool) → ((x : _) (r : Bool) → F.post passes x r → r ≡ test x.now) → result ≡ all_pass refusal test 0 items.now }
{
    for (place, item) in items.iter().enumerate() {
        if !passes(item) {
            return Err(refusal.at(place));
        }
    }
    Ok(())
}

// Writes the records over the front of `out`, and leaves the rest of it.
fn write_plan(cells: &[Cell], out: &mut [u8])
    requires { record_size * length cells.now ≤ length out.old }
    ensures bytes { out.new ≡ packed_plan cells.now ++ drop (record_size * length cells.now) out.old }
    ensures kinds { AllByRecursion (λ c. c.kind < 256) cells.now }
{
    // By place: of `chunks_exact_mut` no fact ties the chunks to the output.
    for (place, cell) in cells.iter().enumerate() {
        let at = RECORD * place;
        write_record(cell, &mut out[at..at + RECORD]);
    }
}

/// Packs a plan into the front of `out`, with zeros behind it, and answers how many bytes it takes.
/// Refused, in this order, with `out` as it was: `Room` at 0 if the bytes do not suffice, `Fit` at the first cell whose child count
/// or parameter is too large, `Fields` at the first whose fetch, hint or skip is too large or that has a hint beside a skip.
pub fn pack(cells: &[Cell], out: &mut [u8]) -> Result<usize, Fault>
    ensures answer { result ≡ counted (packing cells.now (length out.old)) }
    ensures bytes { out.new ≡ laid 0 (packing cells.now (length out.old)) out.old }
    ensures undone { IfOk result (λ n. unpacking (take n out.new) (length cells.now) ≡ Ok cells.now) }
{
    // By a quotient, since the product may be too large for its type.
    if cells.len() > out.len() / RECORD {
        return Err(Refusal::Room.at(0));
    }
    check_each(cells, Refusal::Fit, is_fit)?;
    check_each(cells, Refusal::Fields, is_in_range)?;
    out.fill(0);
    write_plan(cells, out);
    Ok(RECORD * cells.len())
}

// Writes the records' cells over the front of `table`, and leaves the rest of it.
fn read_plan(records: &[Record], table: &mut [Cell])
    requires { length records.now ≤ length table.old }
    ensures { table.new ≡ map cell_of (map values_in records.now) ++ drop (length records.now) table.old }
{
    // By place, for the same reason.
    for (place, record) in records.iter().enumerate() {
        table[place] = cell_of(record);
    }
}

/// Unpacks a plan into the front of `table`, with blank cells behind it, and answers how many cells it has.
/// Refused, in this order, with `table` as it was: `Packed` at 0 if the bytes are no whole records, `Packed` at the first record with
/// a fetch but without its bit, `Room` at 0 if the cells do not suffice.
#[tactic(auto, using(crate::proofs::Passes::pass_through))]
pub fn unpack(bytes: &[u8], table: &mut [Cell]) -> Result<usize, Fault>
    ensures answer { result ≡ counted (unpacking bytes.now (length table.old)) }
    ensures cells { table.new ≡ laid blank (unpacking bytes.now (length table.old)) table.old }
    ensures undone { IfOk result (λ n. packing (take n table.new) (length bytes.now) ≡ Ok bytes.now) }
{
    let (records, rest) = bytes.as_chunks::<RECORD>();
    if !rest.is_empty() {
        return Err(Refusal::Packed.at(0));
    }
    check_each(records, Refusal::Packed, is_sound)?;
    if records.len() > table.len() {
        return Err(Refusal::Room.at(0));
    }
    table.fill(Cell::BLANK);
    read_plan(records, table);
    Ok(records.len())
}

#[cfg(test)]
mod tests {
    use super::*;
    use plan::Kind;

    // The refusal's number and place, or 0 and the count.
    fn told(answer: Result<usize, Fault>) -> (u8, usize) {
        match answer {
            Ok(count) => (0, count),
            Err(fault) => (fault.refusal.number(), fault.place),
        }
    }

    #[test]
    fn limit_there_and_back(rt: HostRuntime) {
        let limit = Cell {
            mark: true,
            fetch: Some(5),
            skip: 2,
            ..Cell::new(Kind::GlobalLimit, 1, 0)
        };
        let mut bytes = [9; 15];
        assert_eq!(rt; told(pack(&[limit], &mut bytes)), (0, 14));
        assert_eq!(rt; bytes, [2, 4, 0, 6, 0, 0, 0, 0, 5, 0, 0, 0, 0, 2, 0]);
        let mut table = [Cell::BLANK; 1];
        assert_eq!(rt; told(unpack(&bytes[0..14], &mut table)), (0, 1));
        let [back] = table;
        assert_eq!(rt;
            (back.kind, back.fetch, back.skip),
            (Kind::GlobalLimit.into(), Some(5), 2)
        );
        assert_eq!(rt; told(unpack(&bytes, &mut table)), (1, 0));
    }

    #[test]
    fn widths_are_kept(rt: HostRuntime) {
        let wide = Cell {
            children: 63,
            hint: Some(MAX_NUMBER),
            ..Cell::BLANK
        };
        let wider = Cell {
            children: 64,
            ..Cell::BLANK
        };
        let larger = Cell {
            fetch: Some(MAX_NUMBER + 1),
            ..Cell::BLANK
        };
        let mut bytes = [0; 28];
        assert_eq!(rt; told(pack(&[wide, wide], &mut bytes)), (0, 28));
        assert_eq!(rt; told(pack(&[larger, wider], &mut bytes)), (5, 1));
        assert_eq!(rt; told(pack(&[wide, larger], &mut bytes)), (6, 1));
    }
}
