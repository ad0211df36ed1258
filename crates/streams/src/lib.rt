// A program's standard streams: input read whole, output written whole, and what fails told on standard error.

#![tactic(auto)]

ghost use Rattle.std.specs.Prelude.{◌≡◌, ◌<◌, ◌≤◌, ◌↔◌, IfOk, IfSome, IsErr, OnOk, length, take};
ghost use Rattle.std.specs.Io.{ReadsAtMost};
ghost use Rattle.std.specs.Io.KnownBytes.{Consumes, IsAtEnd};
ghost use Rattle.streams.specs.Program.{HasFailed};

use arrayvec::ArrayString;
use std::fmt::{Display, Write as FormatText};
use std::io;
use std::io::{ErrorKind, Read, Stderr, Stdin, Stdout, Write};

// Room for the longest words of the system, and for the error's number that std adds to them.
const WORDS_ROOM: usize = 320;

// A failure that is told on standard error, or of which no line is written: nothing is left to be done about it.
#[derive(Clone, Copy, Debug, PartialEq, Eq)]
pub struct Told;

// A program's standard streams, and the name under which it tells what fails.
#[derive(Drop)]
pub struct Program<'a> {
    name: &'a [u8],
    stdin: Stdin,
    // none after a failure
    stdout: Option<Stdout>,
    stderr: Stderr,
}

// Reads until the buffer is full, the input ends or a read fails. Answers how many bytes stand at the buffer's front, and whether a read failed.
// The count is kept by hand, since each read says how far it came: an iterator over turns would be no plainer.
pub fn fill<R: Read>(reader: &mut R, buffer: &mut [u8]) -> (usize, io::Result<()>)
    ensures bound { result.0 ≤ length buffer.new }
    ensures counted { result.0 ≡ length (take result.0 buffer.new) }
    ensures bytes { Consumes (R.remaining reader.old) (R.remaining reader.new) (take result.0 buffer.new) }
    ensures end { OnOk result.1 (result.0 < length buffer.new → IsAtEnd (R.remaining reader.new)) }
{
    let mut done = 0;
    while done < buffer.len() {
        match reader.read(&mut buffer[done..]) {
            Ok(0) => break,
            Ok(more) => done += more,
            Err(error) => return (done, Err(error)),
        }
    }
    (done, Ok(()))
}

// Reads until the buffer is full or the input ends, and answers how many bytes were read.
pub fn read_from<R: Read>(reader: &mut R, buffer: &mut [u8]) -> io::Result<usize>
    ensures bound { ReadsAtMost result buffer.new }
    ensures bytes { IfOk result (λ n. Consumes (R.remaining reader.old) (R.remaining reader.new) (take n buffer.new)) }
    ensures end { IfOk result (λ n. n < length buffer.new → IsAtEnd (R.remaining reader.new)) }
{
    let (done, read) = fill(reader, buffer);
    read?;
    Ok(done)
}

// The system's words of an error, without its number, which std adds in parentheses.
fn without_number(error: &str) -> &str {
    match error.split_once(" (os error ") {
        Some((words, _)) => words,
        None => error,
    }
}

impl<'a> Program<'a> {
    pub fn new(rt: &HostRuntime, name: &'a [u8]) -> Program<'a>
        ensures { ¬ HasFailed result }
    {
        Program {
            name,
            stdin: rt.stdin(),
            stdout: Some(rt.stdout()),
            stderr: rt.stderr(),
        }
    }

    // Writes to standard error. Where it cannot be written either, nobody is left to be told.
    fn put(&self, text: &[u8]) {
        let mut stderr = self.stderr;
        let _ = stderr.write_all(text);
    }

    // Writes a line to standard error: the program's name, a colon and these words. No contract can say what is written.
    pub fn tell(&self, words: &[u8]) -> Told
        ensures { result ≡ record {} }
    {
        self.put(self.name);
        self.put(b": ");
        self.put(words);
        self.put(b"\n");
        Told
    }

    // Writes a line to standard error: the program's name, what failed and the error's words, with colons between. No contract can say what is written.
    pub fn fail<E: Display + Drop>(&self, what: &[u8], error: E) -> Told
        ensures { result ≡ record {} }
    {
        let mut text = ArrayString::<WORDS_ROOM>::new();
        let _ = write!(text, "{error}");
        self.put(self.name);
        self.put(b": ");
        self.put(what);
        self.put(b": ");
        self.put(without_number(text.as_str()).as_bytes());
        self.put(b"\n");
        Told
    }

    // Reads standard input until it ends or the buffer is full. No contract can say what the input holds: only that what is read is within the buffer.
    pub fn read_whole(&self, buffer: &mut [u8]) -> Result<usize, Told>
        ensures { ReadsAtMost result buffer.new }
    {
        let mut stdin = self.stdin;
        match read_from(&mut stdin, buffer) {
            Ok(n) => Ok(n),
            Err(error) => Err(self.fail(b"cannot read standard input", error)),
        }
    }

    // Writes, if all before it was written. A failure is told once, and stays one: after it nothing is written. A pipe that nobody reads any more is a
    // failure too, of which no line is written. No contract can say what is written.
    fn write_by<F: FnOnce(&mut Stdout) -> io::Result<()>>(&mut self, write: F) -> Result<(), Told>
        requires { F.IsAlwaysCallable write }
        ensures stays { HasFailed self.old → IsErr result }
        ensures failed { IsErr result ↔ HasFailed self.new }
    {
        let mut stdout = self.stdout.ok_or(Told)?;
        let Err(error) = write(&mut stdout) else {
            return Ok(());
        };
        self.stdout = None;
        if error.kind() == ErrorKind::BrokenPipe {
            return Err(Told);
        }
        Err(self.fail(b"cannot write standard output", error))
    }

    // Writes the text, if all before it was written.
    pub fn write_whole(&mut self, text: &[u8]) -> Result<(), Told>
        ensures stays { HasFailed self.old → IsErr result }
        ensures failed { IsErr result ↔ HasFailed self.new }
    {
        self.write_by(|stdout| stdout.write_all(text))
    }

    // Writes what is formatted, if all before it was written: so `write!` and `writeln!` take a program.
    pub fn write_fmt<D: Display + Drop>(&mut self, text: D) -> Result<(), Told>
        ensures stays { HasFailed self.old → IsErr result }
        ensures failed { IsErr result ↔ HasFailed self.new }
    {
        self.write_by(|stdout| stdout.write_fmt(text))
    }

    // Reads standard input whole, makes the text of it in a second buffer, and writes that text. It is as long as `make` answers, if there is one.
    pub fn convert<F: FnOnce(&[u8], &mut [u8]) -> Option<usize>>(
        &mut self,
        input: &mut [u8],
        text: &mut [u8],
        make: F,
    ) -> Result<(), Told>
        requires callable { F.IsAlwaysCallable make }
        requires fits { (p : _) (q : _) (r : _) (q' : _) → F.post make p q r q' → IfSome r (λ n. n ≤ length q'.now) }
        ensures { HasFailed self.old → HasFailed self.new }
    {
        let length = self.read_whole(input)?;
        match make(&input[..length], text) {
            Some(n) => self.write_whole(&text[..n]),
            None => Ok(()),
        }
    }
}
