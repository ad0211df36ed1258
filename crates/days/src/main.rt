// Runs the stored days. For each name among the arguments it reads NAME.day, NAME.listing and
// NAME.panel, and compares what the library makes of the day with what is stored.

#![tactic(auto)]

use agreement::{agrees, sheet_room};
use arrayvec::ArrayString;
use listing::file_room;
use listing::sheets::Sheet;
use std::env::{Env, FillError};
use std::fmt::Write;
use std::rt::Files;
use std::{fs, str};
use streams::{Program, Told};
use thiserror::Error;

// Room for the path of a file, and for the longest name of a day that is taken: the endings fit behind it.
const PATH_ROOM: usize = 4096;

const LONGEST_NAME: usize = 4000;

// Room for what stands behind the name of a day that differs.
const DIFFERENCE_ROOM: usize = 24;

// How a stored day differs from what is made of it. One that cannot be read counts among those that differ.
#[derive(Clone, Copy, Debug, Error)]
enum Difference {
    #[error("cannot be read")]
    NotRead,
    #[error("listing differs")]
    Listing,
    #[error("panel differs")]
    Panel,
}

// Opens the file whose name has this ending, or answers nothing; so too for a name that is too long or is not UTF-8. Not one function with that of
// `books`, which is no plainer: each is two calls of std, with errors of its own.
fn open<R: Files>(files: &R, name: &[u8], ending: &str) -> Option<R::File> {
    if name.len() > LONGEST_NAME {
        return None;
    }
    let name = str::from_utf8(name).ok()?;
    let mut path = ArrayString::<PATH_ROOM>::new();
    write!(path, "{name}{ending}").ok()?;
    fs::open(files, path.as_str()).ok()
}

// Compares the stored listing or panel with what is made of the file. A read that fails cuts the
// stored bytes short, so that they differ.
fn compare_sheet<R: Files>(
    files: &R,
    name: &[u8],
    sheet: Sheet,
    file: &[u8],
) -> Result<(), Difference> {
    let (ending, difference) = match sheet {
        Sheet::Listing => (".listing", Difference::Listing),
        Sheet::Panel => (".panel", Difference::Panel),
    };
    let mut opened = open(files, name, ending).ok_or(Difference::NotRead)?;
    let mut stored = sheet_room();
    let (length, _) = streams::fill(&mut opened, &mut stored);
    if agrees(sheet, file, &stored[..length]) {
        Ok(())
    } else {
        Err(difference)
    }
}

// Compares a stored day with what is made of it. The panel is looked at where the listing agrees. A read that fails cuts the day short.
fn compare<R: Files>(files: &R, name: &[u8]) -> Result<(), Difference> {
    let mut opened = open(files, name, ".day").ok_or(Difference::NotRead)?;
    let mut file = file_room();
    let (length, _) = streams::fill(&mut opened, &mut file);
    compare_sheet(files, name, Sheet::Listing, &file[..length])?;
    compare_sheet(files, name, Sheet::Panel, &file[..length])
}

// The argument, in the buffer: an empty one for one that does not fit; none past the last.
fn argument<'a, R: Env>(env: &R, i: usize, buffer: &'a mut [u8]) -> Option<&'a [u8]> {
    match env.arg(i, buffer) {
        Ok(length) => Some(&buffer[..length]),
        Err(FillError::TooLong) => Some(&[]),
        Err(FillError::NotPresent) => None,
    }
}

// Writes a line for each day that differs, and one that counts.
fn run(rt: &HostRuntime, output: &mut Program<'_>) -> Result<(), Told> {
    let mut days: u64 = 0;
    let mut differ: u64 = 0;
    for i in 1..usize::MAX {
        let mut room = [0; PATH_ROOM];
        let Some(name) = argument(rt, i, &mut room) else {
            break;
        };
        days += 1;
        if let Err(difference) = compare(rt, name) {
            differ += 1;
            let mut words = ArrayString::<DIFFERENCE_ROOM>::new();
            let _ = writeln!(words, ": {difference}");
            output.write_whole(name)?;
            output.write_whole(words.as_str().as_bytes())?;
        }
    }
    writeln!(output, "{days} days, {differ} differ")
}

fn main(rt: HostRuntime) {
    let mut output = Program::new(&rt, b"days");
    let _ = run(&rt, &mut output);
}
