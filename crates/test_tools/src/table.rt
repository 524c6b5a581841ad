use crate::fault::Fault;
use crate::row::Row;
use std::alloc::Global;
use std::rt::Files;
use std::{fs, io};

/// The words that the rows of tables result in.
pub trait Cases {
    /// Appends the words that result from the input of a row in this table.
    fn put_words(alloc: Global, table: &str, given: &str, said: &mut String) -> Result<(), Fault>;
}

/// The words that result from the input of a row.
fn words_of<T: Cases>(alloc: Global, table: &str, given: &str) -> Result<String, Fault> {
    let mut said = String::new(alloc);
    T::put_words(alloc, table, given, &mut said)?;
    Ok(said)
}

/// Plays the tables with these names in a folder, one after another. Prints for each row the names
/// of the table and of the row and `ok`, or the words that came instead of the expected ones.
pub fn play<T: Cases, R: Files + Print + Eprint + AllocGlobal>(
    rt: &R,
    folder: &str,
    tables: &[&str],
) -> io::Result<()> {
    for table in tables {
        play_table::<T, R>(rt, folder, table)?;
    }
    Ok(())
}

fn play_table<T: Cases, R: Files + Print + Eprint + AllocGlobal>(
    rt: &R,
    folder: &str,
    table: &str,
) -> io::Result<()> {
    let rows = read_table(rt, folder, table)?;
    for line in rows.lines() {
        if let Some(row) = Row::read(line) {
            tell(rt, table, &row, words_of::<T>(rt.alloc(), table, row.given))?;
        }
    }
    Ok(())
}

/// The text of a table, which is the file `NAME.txt` in this folder. If it cannot be read, the
/// error output names the file.
pub fn read_table<R: Files + Print + Eprint + AllocGlobal>(
    rt: &R,
    folder: &str,
    table: &str,
) -> io::Result<String> {
    let file = format!(in rt.alloc(); "{folder}/{table}.txt")?;
    let read = fs::read_to_string(rt, file.as_str());
    if read.is_err() {
        eprintln!(rt; "{file} cannot be read")?;
    }
    read
}

/// Prints the line of a row: the names of its table and the row and `ok`, or the words that came
/// instead of the expected ones.
pub fn tell<R: Print>(
    rt: &R,
    table: &str,
    row: &Row<'_>,
    answer: Result<String, Fault>,
) -> io::Result<()> {
    let name = row.name;
    match answer {
        Ok(words) => {
            let words = words.as_str().trim();
            if words == row.wanted {
                println!(rt; "{table} {name} ok")
            } else {
                println!(rt; "{table} {name} gives {words}")
            }
        }
        Err(fault) => println!(rt; "{table} {name} gives nothing: {fault}"),
    }
}
