// The lines of a capture that was read; those of a refused one stand in `refused`.

#![tactic(auto)]

pub mod refused;

use column_type::Column;
use std::fmt::Write;
use std::{fmt, io};
use words::Hex;

// How wide a column's type is printed.
const TYPE_WIDTH: usize = 20;

// A writer that keeps no letter, and counts them.
#[derive(Drop)]
struct Letters(usize);

impl fmt::Write for Letters {
    fn write_str(&mut self, s: &str) -> fmt::Result {
        self.0 = self.0.saturating_add(s.len());
        Ok(())
    }
}

pub fn say_head(rt: &impl Print) -> io::Result<()> {
    println!(rt; "column  type                  value")
}

// The number of a column, from 1 on, and its type.
pub fn say_column(rt: &impl Print, i: usize, c: Column) -> io::Result<()> {
    let name = show_type::type_name(c);
    let mut letters = Letters(0);
    let _counted = letters.write(name);
    let blanks = TYPE_WIDTH.saturating_sub(letters.0);
    print!(rt; "{:>6}  {name}{:blanks$}  ", i.saturating_add(1), "")
}

// Where the row ends, and how many bytes follow it.
pub fn say_end(rt: &impl Print, next: usize, length: usize) -> io::Result<()> {
    let behind = length.saturating_sub(next);
    println!(rt; "The row ends at byte {next}; {behind} bytes follow it.")
}

// The normal form: its length, then its bytes, 32 in a line.
pub fn say_normal(rt: &impl Print, s: &[u8]) -> io::Result<()> {
    println!(rt; "Normal form, {} bytes:", s.len())?;
    for part in s.chunks(32) {
        println!(rt; "  {}", Hex(part))?;
    }
    Ok(())
}
