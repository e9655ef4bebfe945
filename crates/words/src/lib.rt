// What a program that replays a list reads and writes. Its input is words of eight bytes, the lowest byte first; what
// it writes is text. Standard input and output have no contract that says which bytes: these say what a word means, and
// that a count fits its array.
#![tactic(auto)]

ghost use Rattle.std.specs.Prelude.{◌≡◌, ◌%◌, ◌≤◌};
ghost use Rattle.std.specs.Float.{binary64};
ghost use Rattle.std.specs.Float.Ieee.{of_bits, to_bits};
ghost use Rattle.std.specs.Int.{w64, cast_signed};
ghost use Rattle.words.specs.Counts.{Counts};

use std::io;
use std::io::{Read, Write};

const SIGN: u64 = 0x8000_0000_0000_0000;

const INFINITY: u64 = 0x7ff0_0000_0000_0000;

const NAN: u64 = 0x7ff8_0000_0000_0000;

// The next bytes, and zeros past the input's end. A read that fails is the end of the input.
fn next_bytes<R: Read>(input: &mut R) -> [u8; 8] {
    let mut b = [0u8; 8];
    let mut k = 0;
    // A while: the place moves by as many bytes as a read gave.
    while k < 8 {
        let n = match input.read(&mut b[k..]) {
            Ok(n) => n,
            Err(_) => 0,
        };
        if n == 0 {
            break;
        }
        k += n;
    }
    b
}

// The next word, 0 where the input has ended.
pub fn next<R: Read>(input: &mut R) -> u64 {
    u64::from_le_bytes(next_bytes(input))
}

pub fn next_place<R: Read>(input: &mut R) -> usize {
    next(input) as usize
}

// The lowest byte of a word.
pub fn byte_of(word: u64) -> u8
    ensures { result ≡ word % 256 }
{
    (word % 256) as u8
}

pub fn next_byte<R: Read>(input: &mut R) -> u8 {
    byte_of(next(input))
}

// The double with these bits; all NaN are one.
pub fn double_of(bits: u64) -> f64
    ensures { result ≡ of_bits binary64 bits }
{
    if INFINITY < bits % SIGN {
        return 0.0 / 0.0;
    }
    f64::from_bits(bits)
}

pub fn bits_of(x: f64) -> u64
    ensures { result ≡ to_bits binary64 x }
{
    if x != x {
        return NAN;
    }
    f64::to_bits(x)
}

pub fn next_double<R: Read>(input: &mut R) -> f64 {
    double_of(next(input))
}

// A count that comes from the input, held to what there is room for.
pub fn least(n: usize, room: usize) -> usize
    ensures { result ≤ room }
{
    if room < n {
        return room;
    }
    n
}

// The first n cells, or all.
pub fn fill<T: Cell, R: Read>(input: &mut R, out: &mut [T], n: usize) {
    for cell in out.iter_mut().take(n) {
        *cell = T::of_word(next(input));
    }
}

// A length, then so many cells: how many of the array are lent.
pub fn read<T: Cell, R: Read>(input: &mut R, out: &mut [T]) -> usize
    ensures { Counts result out.new }
{
    let n = least(next_place(input), out.len());
    fill(input, out, n);
    n
}

pub fn text<W: Write>(out: &mut W, bytes: &[u8]) -> io::Result<()> {
    out.write_all(bytes)
}

pub fn end_line<W: Write>(out: &mut W) -> io::Result<()> {
    text(out, b"\n")
}

// How many hexadecimal digits a number takes.
fn digits_of(n: u64) -> usize {
    let mut k = 1;
    let mut rest = n / 16;
    // A while: it ends where no digit is left.
    while rest > 0 {
        rest /= 16;
        k += 1;
    }
    k
}

// With zeros in front, up to width digits, or sixteen.
pub fn hex<W: Write>(out: &mut W, n: u64, width: usize) -> io::Result<()> {
    for _ in digits_of(n)..least(width, 16) {
        text(out, b"0")?;
    }
    write!(out, "{n:x}")
}

pub fn decimal<W: Write>(out: &mut W, n: u64) -> io::Result<()> {
    write!(out, "{n}")
}

// A space first, here and below.
pub fn place<W: Write>(out: &mut W, n: usize) -> io::Result<()> {
    text(out, b" ")?;
    decimal(out, n as u64)
}

pub fn double<W: Write>(out: &mut W, x: f64) -> io::Result<()> {
    text(out, b" ")?;
    hex(out, bits_of(x), 16)
}

// The first n cells, or all.
pub fn list<T: Cell, W: Write>(out: &mut W, cells: &[T], n: usize) -> io::Result<()> {
    for x in cells.iter().take(n) {
        x.show(out)?;
    }
    Ok(())
}

// A number of an array: the word that it is read from, and how it is written.
pub trait Cell: Copy {
    fn of_word(word: u64) -> Self;

    // A space first.
    fn show<W: Write>(self, out: &mut W) -> io::Result<()>;
}

impl Cell for usize {
    fn of_word(word: u64) -> usize
        ensures { result ≡ word }
    {
        word as usize
    }

    fn show<W: Write>(self, out: &mut W) -> io::Result<()> {
        place(out, self)
    }
}

impl Cell for u8 {
    fn of_word(word: u64) -> u8
        ensures { result ≡ word % 256 }
    {
        byte_of(word)
    }

    fn show<W: Write>(self, out: &mut W) -> io::Result<()> {
        place(out, usize::from(self))
    }
}

// By two's complement.
impl Cell for i64 {
    fn of_word(word: u64) -> i64
        ensures { result ≡ cast_signed w64 word }
    {
        word.cast_signed()
    }

    fn show<W: Write>(self, out: &mut W) -> io::Result<()> {
        text(out, b" ")?;
        // The sign is a write of its own, so that output that ends early ends where it always did.
        if self < 0 {
            text(out, b"-")?;
        }
        decimal(out, self.unsigned_abs())
    }
}

impl Cell for f64 {
    fn of_word(word: u64) -> f64
        ensures { result ≡ of_bits binary64 word }
    {
        double_of(word)
    }

    fn show<W: Write>(self, out: &mut W) -> io::Result<()> {
        double(out, self)
    }
}
