// The listing of a show file.
use file::ShowFile;
use layout::{Record, Slot};
use std::io;
use std::io::Write;
use text::Value;

// One line for a record: its key, where it lies, and its value.
fn write_record<W: Write>(out: &mut W, page: usize, record: Record) -> io::Result<()> {
    let Record { key, slot, value } = record;
    let Slot { offset, length } = slot;
    let value = Value(value);
    writeln!(
        out,
        "{key} page {page} offset {offset} length {length} {value}"
    )
}

// Lists a file's records, pages in order and in a page by slot, which on a sound page is by key, or says why the file is refused.
pub fn list<W: Write>(bytes: &[u8], out: &mut W) -> io::Result<()> {
    let file = match ShowFile::check(bytes) {
        Ok(file) => file,
        Err(refusal) => return writeln!(out, "{refusal}"),
    };
    let pages = file.first.pages;
    let counter = file.first.counter;
    let cleared = file.pending();
    let records = file.count_records();
    writeln!(
        out,
        "file {pages} pages counter {counter} cleared {cleared} records {records}"
    )?;
    for (page, record) in file.records() {
        write_record(out, page, record)?;
    }
    Ok(())
}
