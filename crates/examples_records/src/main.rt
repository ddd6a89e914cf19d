// Runs worked examples of 01 and 02 on numbers, records and changes and prints what the calculator answers; the file stdout beside this one's
// folder holds what it must print.
#![tactic(auto)]

use answer::Refusal;
use codec::{Field, Standing};
use record_parts::PartList;
use std::io;
use std::io::Stdout;

fn main(rt: HostRuntime) -> io::Result<()> {
    let out = rt.stdout();
    numbers(out)?;
    part_numbers(out)?;
    replayed(out)?;
    groups(out)?;
    drawings(out)
}

// Numbers in groups of seven bits, on the edges of the field of counts.
fn numbers(out: Stdout) -> io::Result<()> {
    say(out, b"numbers\n")?;
    number(out, b"AC 02", &[0xAC, 0x02], Field::Count)?;
    number(out, b"80 00", &[0x80, 0x00], Field::Count)?;
    number(out, b"80", &[0x80], Field::Count)?;
    number(
        out,
        b"FF FF FF FF 0F",
        &[0xFF, 0xFF, 0xFF, 0xFF, 0x0F],
        Field::Count,
    )?;
    number(
        out,
        b"FF FF FF FF 10",
        &[0xFF, 0xFF, 0xFF, 0xFF, 0x10],
        Field::Count,
    )?;
    number(
        out,
        b"FF FF FF FF FF",
        &[0xFF, 0xFF, 0xFF, 0xFF, 0xFF],
        Field::Count,
    )
}

// And on those of part numbers.
fn part_numbers(out: Stdout) -> io::Result<()> {
    say(out, b"part numbers\n")?;
    number(
        out,
        b"80 80 80 80 10",
        &[0x80, 0x80, 0x80, 0x80, 0x10],
        Field::PartNumber,
    )?;
    number(
        out,
        b"FF FF FF FF FF FF 3F",
        &[0xFF, 0xFF, 0xFF, 0xFF, 0xFF, 0xFF, 0x3F],
        Field::PartNumber,
    )?;
    number(
        out,
        b"FF FF FF FF FF FF 40",
        &[0xFF, 0xFF, 0xFF, 0xFF, 0xFF, 0xFF, 0x40],
        Field::PartNumber,
    )?;
    number(
        out,
        b"FF FF FF FF FF FF",
        &[0xFF, 0xFF, 0xFF, 0xFF, 0xFF, 0xFF],
        Field::PartNumber,
    )?;
    number(
        out,
        b"FF FF FF FF FF FF FF",
        &[0xFF, 0xFF, 0xFF, 0xFF, 0xFF, 0xFF, 0xFF],
        Field::PartNumber,
    )
}

fn number(out: Stdout, name: &[u8], bytes: &[u8], field: Field) -> io::Result<()> {
    say(out, name)?;
    say(out, b": ")?;
    let found = codec::read_number(bytes, 0, field);
    match found {
        Err(refusal) => refused(out, refusal)?,
        Ok(Standing { value, next: _ }) => {
            print!(out; "{value}")?;
        }
    }
    say(out, b"\n")
}

// The spreadsheet's fault replayed: a pump is taken out and a sensor added. The sensor's number is new, and it stands in no set.
fn replayed(out: Stdout) -> io::Result<()> {
    say(out, b"the spreadsheet's fault replayed\n")?;
    let mut bytes = [0u8; 12];
    let made = record_changes::first_record(3, &[3, 5], &mut bytes);
    match made {
        Err(refusal) => refused(out, refusal)?,
        Ok(length) => with_spare_pump(out, &bytes, length)?,
    }
    Ok(())
}

fn with_spare_pump(out: Stdout, bytes: &[u8], length: usize) -> io::Result<()> {
    if length <= bytes.len() {
        take_pump_out(out, &bytes[..length])?;
    }
    Ok(())
}

fn take_pump_out(out: Stdout, record: &[u8]) -> io::Result<()> {
    design(out, b"controller 1, pump 2, spare pump 3", record)?;
    let mut bytes = [0u8; 12];
    let made = record_changes::take_out(record, 3, &mut bytes);
    match made {
        Err(refusal) => refused(out, refusal)?,
        Ok(length) => without_spare_pump(out, &bytes, length)?,
    }
    Ok(())
}

fn without_spare_pump(out: Stdout, bytes: &[u8], length: usize) -> io::Result<()> {
    if length <= bytes.len() {
        add_sensor(out, &bytes[..length])?;
    }
    Ok(())
}

fn add_sensor(out: Stdout, record: &[u8]) -> io::Result<()> {
    design(out, b"the spare pump taken out", record)?;
    let mut bytes = [0u8; 12];
    let made = record_changes::add_part(record, &mut bytes);
    match made {
        Err(refusal) => refused(out, refusal)?,
        Ok(length) => with_sensor(out, &bytes, length)?,
    }
    Ok(())
}

fn with_sensor(out: Stdout, bytes: &[u8], length: usize) -> io::Result<()> {
    if length <= bytes.len() {
        sensor_design(out, &bytes[..length])?;
    }
    Ok(())
}

fn sensor_design(out: Stdout, record: &[u8]) -> io::Result<()> {
    design(out, b"an oxygen sensor added", record)
}

// Groups taken out together: refusals, and a block of two parts out of the bridge.
fn groups(out: Stdout) -> io::Result<()> {
    say(out, b"groups taken out\n")?;
    group(out, b"no part", &[1, 1, 1, 1, 1], 0)?;
    group(out, b"a part behind the last", &[1, 1, 1, 1, 1], 2)?;
    let bridge: [u8; 12] = [5, 5, 1, 2, 3, 4, 5, 4, 9, 14, 18, 21];
    group(out, b"parts 1 and 2 of the bridge", &bridge, 3)?;
    group(out, b"parts 3 and 5 of the bridge", &bridge, 20)?;
    group(out, b"parts 1 and 2 of three", &[3, 3, 1, 2, 3, 2, 3, 5], 3)
}

fn group(out: Stdout, name: &[u8], record: &[u8], group: usize) -> io::Result<()> {
    let mut bytes = [0u8; 12];
    let made = record_changes::take_out_group(record, group, &mut bytes);
    match made {
        Err(refusal) => {
            say(out, name)?;
            say(out, b": ")?;
            refused(out, refusal)?;
            say(out, b"\n")?;
        }
        Ok(length) => group_left(out, name, &bytes, length)?,
    }
    Ok(())
}

fn group_left(out: Stdout, name: &[u8], bytes: &[u8], length: usize) -> io::Result<()> {
    if length <= bytes.len() {
        design(out, name, &bytes[..length])?;
    }
    Ok(())
}

// Texts of the drawing tool: one that is read, and written again from its record, and refusals with their lines.
fn drawings(out: Stdout) -> io::Result<()> {
    say(out, b"drawings\n")?;
    drawing(
        out,
        b"the bridge",
        b"parts 5\nset 4 1\nset 2 3 4\nset 5 2\nset 1 3 5\n",
    )?;
    drawing(out, b"parts 17, set x", b"parts 17\nset x\n")?;
    drawing(out, b"parts 5, set 9 x", b"parts 5\nset 9 x\n")?;
    drawing(out, b"parts 5, set 1 1 9", b"parts 5\nset 1 1 9\n")?;
    drawing(out, b"parts 5, set 1 1", b"parts 5\nset 1 1\n")?;
    drawing(out, b"parts 5, set 00", b"parts 5\nset 00\n")?;
    drawing(out, b"parts 2^64 + 1", b"parts 18446744073709551617\n")?;
    drawing(out, b"parts 5", b"parts 5\n")?;
    drawing(out, b"no line feed behind set 1", b"parts 5\nset 1")
}

fn drawing(out: Stdout, name: &[u8], text: &[u8]) -> io::Result<()> {
    let mut bytes = [0u8; 40];
    let read = drawing_reading::record_of_drawing(text, &mut bytes);
    match read {
        Err(refusal) => {
            say(out, name)?;
            say(out, b": ")?;
            refused(out, refusal)?;
            say(out, b"\n")?;
        }
        Ok(length) => drawn(out, name, &bytes, length)?,
    }
    Ok(())
}

fn drawn(out: Stdout, name: &[u8], bytes: &[u8], length: usize) -> io::Result<()> {
    if length <= bytes.len() {
        written_again(out, name, &bytes[..length])?;
    }
    Ok(())
}

fn written_again(out: Stdout, name: &[u8], record: &[u8]) -> io::Result<()> {
    design(out, name, record)?;
    let mut text = [0u8; 80];
    let written = drawing_writing::drawing_of_record(record, &mut text);
    match written {
        Err(refusal) => refused(out, refusal)?,
        Ok(length) => show_text(out, &text, length)?,
    }
    Ok(())
}

fn show_text(out: Stdout, text: &[u8], length: usize) -> io::Result<()> {
    if length <= text.len() {
        say(out, &text[..length])?;
    }
    Ok(())
}

// A design by its part numbers.
fn design(out: Stdout, name: &[u8], record: &[u8]) -> io::Result<()> {
    let contents = record_editions::whole_record(record);
    let list = contents.list;
    say(out, name)?;
    say(out, b": parts")?;
    show_parts(out, list, 65535)?;
    say(out, b"; mark ")?;
    print!(out; "{}", list.mark)?;
    say(out, b"; sets")?;
    show_named(out, record, list, contents.begin, contents.sets)?;
    say(out, b"\n")
}

// So many sets of a record from an offset on, by part numbers.
fn show_named(
    out: Stdout,
    record: &[u8],
    list: PartList,
    begin: usize,
    count: usize,
) -> io::Result<()> {
    let mut offset = begin;
    for _ in 0..count {
        let Some(found) = record_reader::read_set(record, offset) else {
            return Ok(());
        };
        say(out, b" {")?;
        show_parts(out, list, found.value)?;
        say(out, b" }")?;
        offset = found.next;
    }
    Ok(())
}

// The numbers of the parts that a set names.
fn show_parts(out: Stdout, list: PartList, set: u64) -> io::Result<()> {
    for (i, number) in list.numbers.iter().enumerate().take(list.count) {
        if (set >> i) % 2 == 1 {
            print!(out; " {number}")?;
        }
    }
    Ok(())
}

fn refused(out: Stdout, refusal: Refusal) -> io::Result<()> {
    print!(out; "refused {} at {}", refusal.reason.number(), refusal.place)
}

fn say(out: Stdout, text: &[u8]) -> io::Result<()> {
    out.write_all(text)
}
