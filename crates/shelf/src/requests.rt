//! Logical sectors of an attached provider are read and written.

ghost use Rattle.std.specs.Prelude.{◌≡◌, ◌≤◌, ◌*◌, IfOk, IsOk, List, Ok, length, take};
ghost use Rattle.bio_queue.specs.Requests.{Request};
ghost use Rattle.block_traits.specs.Cabinet.{CabinetState};
ghost use Rattle.block_traits.specs.Streams.{EntropyState};
ghost use Rattle.hex.specs.Hex.{decode_of};
ghost use Rattle.command_rows.specs.Digits.{SpellsBytes, bytes_spelled};
ghost use Rattle.command_rows.specs.Requests.{bytes_read, read_answer, write_refusal};
ghost use Rattle.command_rows.specs.Steps.{or_refusal};
ghost use Rattle.eli_base.specs.Requests.{request_limit};
ghost use Rattle.command_rows.specs.Turn.{ReadRow, WriteRow};
ghost use Rattle.shelf.specs.Shelved.{attachment_of, reach_on};
ghost use Rattle.shelf.specs.Requests.{digit_value};

use block_traits::{Disk, DiskFailed};
use eli_base::{REQUEST_LIMIT, Refusal};
use provider::{Provider, ReadFault, WriteFault};

fn read_answer(answer: Result<(), ReadFault>, bytes: u32) -> Result<u32, Refusal>
    ensures { result ≡ read_answer bytes answer }
{
    match answer {
        Ok(()) => Ok(bytes),
        Err(
            ReadFault::OutOfRange {
                sector,
                count,
                media,
            },
        ) => Err(Refusal::OutOfRange {
            sector,
            count,
            media,
        }),
        Err(ReadFault::DeviceFault) => Err(Refusal::DeviceFault),
        Err(ReadFault::Integrity { offset }) => Err(Refusal::Integrity { offset }),
    }
}

fn write_answer(answer: Result<(), WriteFault>) -> Result<(), Refusal>
    ensures { result ≡ or_refusal write_refusal answer }
{
    match answer {
        Ok(()) => Ok(()),
        Err(WriteFault::ReadOnly) => Err(Refusal::ReadOnly),
        Err(
            WriteFault::OutOfRange {
                sector,
                count,
                media,
            },
        ) => Err(Refusal::OutOfRange {
            sector,
            count,
            media,
        }),
        Err(WriteFault::DeviceFault) => Err(Refusal::DeviceFault),
    }
}

/// Reads logical sectors to the front of the buffer, and returns how many bytes they have.
pub fn read<D: Disk>(
    provider: &mut Provider<D>,
    sector: u64,
    count: u32,
    buffer: &mut [u8],
) -> Result<u32, Refusal>
    requires { length buffer.old ≡ request_limit }
    ensures row { (queue : List Request) (cabinet : CabinetState) (entropy : EntropyState) →
        ReadRow sector count (attachment_of queue provider.old)
        (reach_on D.state queue provider.old cabinet entropy) (bytes_read buffer.new result)
        (reach_on D.state queue provider.new cabinet entropy) }
    ensures bound { IfOk result (λ bytes. bytes ≤ request_limit) }
{
    let sectorsize = provider.sector_size();
    let given = u64::from(count) * u64::from(sectorsize);
    if given == 0 || given > REQUEST_LIMIT {
        return Err(Refusal::BadLength { given, sectorsize });
    }
    let answer = provider.read(sector, &mut buffer[..given as usize]);
    read_answer(answer, given as u32)
}

/// Writes logical sectors with the bytes that digits spell, which are put at the front of the buffer.
pub fn write<D: Disk>(
    provider: &mut Provider<D>,
    sector: u64,
    digits: &[u8],
    buffer: &mut [u8],
) -> Result<(), Refusal>
    requires spelled { SpellsBytes digits.now }
    requires room { length buffer.old ≡ request_limit }
    ensures { (queue : List Request) (cabinet : CabinetState) (entropy : EntropyState) →
        WriteRow sector (bytes_spelled digits.now) (attachment_of queue provider.old)
        (reach_on D.state queue provider.old cabinet entropy) result
        (reach_on D.state queue provider.new cabinet entropy) }
{
    let given = decode(digits, buffer);
    let sectorsize = provider.sector_size();
    if given == 0 || given % sectorsize as usize != 0 {
        let given = given as u64;
        return Err(Refusal::BadLength { given, sectorsize });
    }
    write_answer(provider.write(sector, &buffer[..given]))
}

/// Puts the bytes that digits spell at the front of the buffer, and returns how many.
pub fn decode(digits: &[u8], buffer: &mut [u8]) -> usize
    requires spelled { SpellsBytes digits.now }
    requires room { length buffer.old ≡ request_limit }
    ensures bytes { take result buffer.new ≡ bytes_spelled digits.now }
    ensures bound { result ≤ request_limit }
{
    let count = digits.len() / 2;
    decode_into(digits, &mut buffer[..count]);
    count
}

// The value of a hexadecimal digit in either case: the low four bits, and nine more for a letter.
#[inline(always)]
fn digit_value(digit: u8) -> u8
    ensures { result ≡ digit_value digit }
{
    digit % 16 + 9 * (digit / 64)
}

// Puts the bytes that digits spell into room for just as many. No digit is checked, so that many are taken together.
fn decode_into(digits: &[u8], out: &mut [u8])
    requires spelled { IsOk (decode_of digits.now) }
    requires room { length digits.now ≡ 2 * length out.old }
    ensures { decode_of digits.now ≡ Ok out.new }
{
    for i in 0..out.len() {
        let high = digit_value(digits[2 * i]);
        let low = digit_value(digits[2 * i + 1]);
        out[i] = high.wrapping_mul(16).wrapping_add(low);
    }
}

/// A call of the disk that failed, as a refusal.
pub fn or_device_fault(answer: Result<(), DiskFailed>) -> Result<(), Refusal>
    ensures { result ≡ or_refusal (λ _. Refusal.DeviceFault) answer }
{
    match answer {
        Ok(()) => Ok(()),
        Err(_) => Err(Refusal::DeviceFault),
    }
}
