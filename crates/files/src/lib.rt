// Reading and writing by the library's calls, which the programs share: files by name, standard input and output.
// What an answer of the system's means, and what a row of answers comes to, is proved in the crate transfer; here the calls are made.
#![tactic(auto)]

ghost use Rattle.std.specs.Prelude.{◌<◌, ◌≤◌, ◌≡◌, ◌^◌, IfOk, IsErr, length, take};
ghost use Rattle.files.specs.TurnLaws.{Under};
ghost use Rattle.files.specs.Within.{Within, Turned, AnswersTo};

use asked::open;
use std::io;
use std::io::{ErrorKind, Read, Write};
use std::rt::Files;
use transfer::{Answer, EINTR, INTERRUPTIONS, Transfer};

mod asked;
mod beside;

pub use beside::save;

// What a call of the library's came to, by what it returned.
// Kept as a function: From takes every value, and this one asks that a count is below 2^63.
fn answer_to(got: io::Result<usize>) -> Answer
    requires { IfOk got (λ n. n < 2 ^ 63) }
    ensures { AnswersTo got result }
{
    match got {
        Ok(count) => transfer::answer_of(count as isize, 0),
        Err(error) => {
            if error.kind() == ErrorKind::Interrupted {
                return transfer::answer_of(-1, EINTR);
            }
            transfer::answer_of(-1, 0)
        }
    }
}

// A transfer before its first call: of no bytes there is nothing to do.
fn begin(room: usize) -> Transfer
    ensures { Under room result }
{
    if room == 0 {
        return Transfer::All;
    }
    Transfer::Going(0, INTERRUPTIONS)
}

// One read behind the bytes that are there, and how far it brings the transfer.
fn read_turn<R: Read>(input: &mut R, buffer: &mut [u8], at: usize, left: u32) -> Transfer
    requires { at < length buffer.old }
    ensures turned { Turned (length buffer.old) at left result }
    ensures buffer_unchanged { take at buffer.new ≡ take at buffer.old }
{
    let room = buffer.len();
    let got = input.read(&mut buffer[at..]);
    transfer::go_on(room, at, left, answer_to(got))
}

// Reads until the buffer is full, the input ends or a read fails.
fn read<R: Read>(input: &mut R, buffer: &mut [u8]) -> Transfer
    ensures { Within (length buffer.old) result }
{
    let mut now = begin(buffer.len());
    while let Transfer::Going(at, left) = now {
        now = read_turn(input, buffer, at, left);
    }
    now
}

// One write of the bytes that are left, and how far it brings the transfer.
fn write_turn<W: Write>(out: &mut W, bytes: &[u8], at: usize, left: u32) -> Transfer
    requires { at < length bytes.now }
    ensures { Turned (length bytes.now) at left result }
{
    let put = out.write(&bytes[at..]);
    transfer::go_on(bytes.len(), at, left, answer_to(put))
}

// Writes until all is written, or a write fails or takes nothing.
pub fn write<W: Write>(out: &mut W, bytes: &[u8]) -> Transfer
    ensures { Within (length bytes.now) result }
{
    // Kept beside the loop of `read`: a loop for both would take a closure that owns the buffer, with a contract on each state of it; these are three lines.
    let mut now = begin(bytes.len());
    while let Transfer::Going(at, left) = now {
        now = write_turn(out, bytes, at, left);
    }
    now
}

// The number of bytes of an input that was read to its end. Where it has as many as the buffer or more, or a read fails, or it could not be opened,
// which an error in its place tells, it is the buffer's length: a buffer for a file has one byte more than the file may have, so that this
// stands for a file that is not to be had.
// Kept as a length: this call cannot fail, and its clause `value` says what it answers of a file that is not to be had.
pub fn read_all<R: Read + Drop>(input: io::Result<R>, buffer: &mut [u8]) -> usize
    ensures upper_bound { result ≤ length buffer.new }
    ensures value { IsErr input → result ≡ length buffer.new }
{
    let room = buffer.len();
    match input {
        Ok(mut opened) => transfer::taken(room, read(&mut opened, buffer)),
        Err(_) => room,
    }
}

// The same of a file by its name.
pub fn read_named<F: Files>(files: &F, name: &[u8], buffer: &mut [u8]) -> usize
    ensures { result ≤ length buffer.new }
{
    read_all(open(files, name), buffer)
}

// Writes to standard output. What cannot be written is told on standard error, since a program has no exit status to tell it by.
pub fn print<P: Print + Eprint>(rt: &P, bytes: &[u8]) -> Transfer
    ensures { Within (length bytes.now) result }
{
    let done = write(&mut io::writer(rt), bytes);
    if !transfer::is_all(done) {
        let _ = rt.eprintln("standard output could not be written whole");
    }
    done
}
