// The round trip: the writer's and the reader's call, one after the other.
#![tactic(auto)]

ghost use Rattle.std.specs.Prelude.{◌≡◌, length};
ghost use Rattle.refusals.specs.Refusals.{outcome, filled};
ghost use Rattle.dutyfile.specs.File.{lists, parse, render};
ghost use Rattle.dutyfile.specs.Faults.{reading, writing};
ghost use Rattle.roundtrip.specs.Back.{read_back, written_back};

use dutyfile::{Edition, Shape};
use refusals::Refusal;

// Writes a file by the public call of its edition.
pub fn write_by(
    edition: Edition,
    rows: u16,
    costs: &[i32],
    lengths: &[u16],
    numbers: &[u8],
    out: &mut [u8],
) -> Result<usize, Refusal>
    ensures result_value { outcome result ≡ writing (lists edition rows costs.now lengths.now numbers.now) (length out.old) }
    ensures out_after { out.new ≡ filled (outcome result) (render (lists edition rows costs.now lengths.now numbers.now)) out.old }
{
    match edition {
        Edition::Spp1 => writer::write(rows, costs, lengths, numbers, out),
        Edition::Spp2 => writer::write2(rows, costs, lengths, numbers, out),
    }
}

// Writes a file and reads it back from the front of the buffer: the edition and the lists read are those written.
pub fn write_read(
    edition: Edition,
    rows: u16,
    costs: &[i32],
    lengths: &[u16],
    numbers: &[u8],
    file: &mut [u8],
    costs_read: &mut [i32],
    lengths_read: &mut [u16],
    numbers_read: &mut [u8],
) -> Result<Shape, Refusal>
    ensures result_value { outcome result ≡ read_back (lists edition rows costs.now lengths.now numbers.now) (length file.old) (length costs_read.old) (length lengths_read.old) (length numbers_read.old) }
    ensures costs_read_after { costs_read.new ≡ filled (outcome result) costs.now costs_read.old }
    ensures lengths_read_after { lengths_read.new ≡ filled (outcome result) lengths.now lengths_read.old }
    ensures numbers_read_after { numbers_read.new ≡ filled (outcome result) numbers.now numbers_read.old }
    ensures file_after { file.new ≡ filled (writing (lists edition rows costs.now lengths.now numbers.now) (length file.old)) (render (lists edition rows costs.now lengths.now numbers.now)) file.old }
{
    let size = write_by(edition, rows, costs, lengths, numbers, file)?;
    reader::read(&file[0..size], costs_read, lengths_read, numbers_read)
}

// Reads a file and writes the lists that it filled, by its edition: the bytes written are the file.
pub fn read_write(
    file: &[u8],
    costs: &mut [i32],
    lengths: &mut [u16],
    numbers: &mut [u8],
    out: &mut [u8],
) -> Result<usize, Refusal>
    ensures result_value { outcome result ≡ written_back file.now (length costs.old) (length lengths.old) (length numbers.old) (length out.old) }
    ensures out_after { out.new ≡ filled (outcome result) file.now out.old }
    ensures costs_after { costs.new ≡ filled (reading file.now (length costs.old) (length lengths.old) (length numbers.old)) (parse file.now).costs costs.old }
    ensures lengths_after { lengths.new ≡ filled (reading file.now (length costs.old) (length lengths.old) (length numbers.old)) (parse file.now).lengths lengths.old }
    ensures numbers_after { numbers.new ≡ filled (reading file.now (length costs.old) (length lengths.old) (length numbers.old)) (parse file.now).numbers numbers.old }
{
    let found = reader::read(file, costs, lengths, numbers)?;
    write_by(
        found.edition,
        found.rows as u16,
        &costs[0..found.columns],
        &lengths[0..found.columns],
        &numbers[0..found.entries],
        out,
    )
}
