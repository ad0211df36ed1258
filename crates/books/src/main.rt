// Compares two posts' books, whose names are its arguments, and prints the answer in words.

#![tactic(auto)]

ghost use Rattle.std.specs.Io.{ReadsAtMost};

use registers::words::{ANSWER_ROOM, put_answer};
use std::env::{Env, FillError};
use std::rt::Files;
use std::str::Utf8Error;
use std::{fs, io, str};
use streams::{Program, Told};
use thiserror::Error;

// The largest book that is taken: 65,536 records.
const LARGEST_BOOK: usize = 524288;

// A byte more, by which a longer book is known.
const BOOK_ROOM: usize = LARGEST_BOOK + 1;

// Why there is no book, as the system says it where it has words for it.
#[derive(Debug, Drop, Error)]
enum BookError {
    #[error("Invalid argument")]
    NotNamed,
    #[error("File name too long")]
    NameTooLong,
    // The library takes a name as text only.
    #[error("Invalid or incomplete multibyte or wide character")]
    NameNotText,
    #[error("{0}")]
    NotRead(#[from] io::Error),
    #[error("more than 65536 records")]
    TooLong,
}

impl From<FillError> for BookError {
    fn from(error: FillError) -> BookError {
        match error {
            FillError::NotPresent => BookError::NotNamed,
            FillError::TooLong => BookError::NameTooLong,
        }
    }
}

impl From<Utf8Error> for BookError {
    fn from(_error: Utf8Error) -> BookError {
        BookError::NameNotText
    }
}

// An array with the count of what was read beside it, and no Vec: the project has no heap.
fn book_room() -> [u8; BOOK_ROOM] {
    [0; BOOK_ROOM]
}

// Whether argument i was given.
fn is_given<R: Env>(env: &R, i: usize) -> bool {
    !matches!(env.arg(i, &mut [0; 1]), Err(FillError::NotPresent))
}

// Opens the file that argument i names. Not one function with that of `days`, which is no plainer: each is two calls of std, with errors of its own.
fn open<R: Files + Env>(rt: &R, i: usize) -> Result<R::File, BookError> {
    let mut name = [0; 4096];
    let length = rt.arg(i, &mut name)?;
    let path = str::from_utf8(&name[..length])?;
    Ok(fs::open(rt, path)?)
}

// Reads the book that argument i names, and answers its length.
fn read_book<R: Files + Env>(rt: &R, i: usize, book: &mut [u8]) -> Result<usize, BookError>
    ensures { ReadsAtMost result book.new }
{
    let length = streams::read_from(&mut open(rt, i)?, book)?;
    if length > LARGEST_BOOK {
        return Err(BookError::TooLong);
    }
    Ok(length)
}

#[tactic(auto, using(registers::proofs::words::Laws::answer_length_lem, std::proofs::lemmas::Grind::common_steps))]
fn print(books: &mut Program<'_>, first: &[u8], second: &[u8]) -> Result<(), Told> {
    let mut text = [0; ANSWER_ROOM];
    let length = put_answer(&mut text, registers::compare(first, second));
    books.write_whole(&text[..length])
}

// Reads both books, and prints the answer where neither read failed.
fn run(rt: &HostRuntime, books: &mut Program<'_>) -> Result<(), Told> {
    if !is_given(rt, 2) || is_given(rt, 3) {
        return Err(books.tell(b"give the names of two books"));
    }
    let mut first = book_room();
    let mut second = book_room();
    let one = read_book(rt, 1, &mut first).map_err(|error| books.fail(b"first book", error));
    let other = read_book(rt, 2, &mut second).map_err(|error| books.fail(b"second book", error));
    print(books, &first[..one?], &second[..other?])
}

fn main(rt: HostRuntime) {
    let mut books = Program::new(&rt, b"books");
    let _ = run(&rt, &mut books);
}
