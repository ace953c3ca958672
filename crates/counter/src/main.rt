// The counter program: a survey line and a sequence file on standard input, the listing and the file line, or a refusal, on standard output. No contract can
// speak of what is read or printed; so `main` only reads, calls and prints, and what is printed for the bytes that were read is `program::run`'s.

#![tactic(auto)]

ghost use Rattle.std.specs.Prelude.{◌≡◌, ◌≤◌, length};
ghost use Rattle.program.specs.Program.{unread_line, Prints};
ghost use Rattle.counter.specs.Needs.{bytes_read, text_for};

use std::io::{Read, Write};
use texts::Writer;

// A read that failed: how many bytes of standard input were read before it.
#[derive(Clone, Copy)]
struct Unread(usize);

// Room for one byte more than the program takes, so that a longer input shows.
fn input_buffer() -> [u8; 65537]
    ensures { 65537 ≡ length result }
{
    [0; 65537]
}

// Room for every output.
fn output_buffer() -> [u8; 2097152]
    ensures { 2097152 ≡ length result }
{
    [0; 2097152]
}

// Reads standard input to the start of buf: how many bytes, to its end or to the buffer's. A read that fails is not the input's end: what came before it may be
// half a file.
fn read_input<R: Read>(input: &mut R, buf: &mut [u8]) -> Result<usize, Unread>
    ensures { (bytes_read result ≤ length buf.new) × (length buf.new ≡ length buf.old) }
{
    let mut n: usize = 0;
    while n < buf.len() {
        match input.read(&mut buf[n..]) {
            Err(_) => return Err(Unread(n)),
            Ok(0) => break,
            Ok(more) => n += more,
        }
    }
    Ok(n)
}

// The line for an input that could not be read to its end.
fn put_unread(out: &mut [u8], n: usize) -> usize
    ensures { Prints (unread_line n) out.old result out.new }
{
    let mut w = Writer::new(out);
    w.put_field(b"(unread ", n as u64);
    w.put_text(b")\n");
    w.place()
}

// The output for what was read.
fn put_answer(out: &mut [u8], read: Result<usize, Unread>, input: &[u8]) -> usize
    requires { bytes_read read ≤ length input.now }
    ensures { Prints (text_for read input.now) out.old result out.new }
{
    match read {
        Ok(n) => program::run(&input[..n], out),
        Err(Unread(n)) => put_unread(out, n),
    }
}

// What cannot be written is passed over: nobody is left to tell, and the program ends as it does otherwise.
fn main(rt: HostRuntime) {
    let mut input = input_buffer();
    let mut output = output_buffer();
    let mut stdin = rt.stdin();
    let mut stdout = rt.stdout();
    let read = read_input(&mut stdin, &mut input);
    let length = put_answer(&mut output, read, &input);
    let _ = stdout.write_all(&output[..length]);
}
