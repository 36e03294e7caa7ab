// Numbers and fixed texts in bytes: each reader says what stands at a position of a text, each writer writes at the start of what it is
// lent. A reader takes any position: past the end nothing stands.
#![tactic(auto)]

ghost use Rattle.std.specs.Prelude.{◌+◌, ◌<◌, ◌≤◌, length};
ghost use Rattle.model.specs.Text.{decimal};
ghost use Rattle.text.specs.Number.{DigitOf, Begins, NumberAt};
ghost use Rattle.text.specs.Literal.{Starts, FourAt, LiteralAt};
ghost use Rattle.text.specs.Writing.{Put};

// The digit that b is, or more than 9: one difference and one comparison test a byte, and its digit is there.
fn digit(b: u8) -> u32
    ensures { DigitOf b result }
{
    u32::from(b).wrapping_sub(48)
}

// "A number is in decimal digits, 0 to 4,294,967,295, no leading zero": reads digits up to a byte that is none.
pub fn number_at(s: &[u8], at: usize) -> Option<(u32, usize)>
    ensures { NumberAt s.now at result }
{
    if s.len() <= at {
        return None;
    }
    let first = digit(s[at]);
    if 9 < first {
        return None;
    }
    let mut v = first as u64;
    for i in at + 1..s.len() {
        let d = digit(s[i]);
        if 9 < d {
            return Some((v as u32, i));
        }
        if v == 0 {
            return None;
        }
        v = v * 10 + d as u64;
        if 4294967295 < v {
            return None;
        }
    }
    Some((v as u32, s.len()))
}

// The same as number_at, where eleven bytes or more are left: ten digits and what follows them need no test whether the text has ended, and
// nine digits none whether they fit. Only the reader of words calls it, so that it is compiled into that reader's loop.
pub fn number_within(s: &[u8], at: usize) -> Option<(u32, usize)>
    requires { at + 11 ≤ length s.now }
    ensures { NumberAt s.now at result }
{
    let first = digit(s[at]);
    if 9 < first {
        return None;
    }
    let second = digit(s[at + 1]);
    if 9 < second {
        return Some((first, at + 1));
    }
    if first == 0 {
        return None;
    }
    let mut v = first * 10 + second;
    for k in 2..9 {
        let d = digit(s[at + k]);
        if 9 < d {
            return Some((v, at + k));
        }
        v = v * 10 + d;
    }
    tenth(s, at, v)
}

// Goes on after the nine digits of v: a tenth may make a number, an eleventh makes none.
fn tenth(s: &[u8], at: usize, v: u32) -> Option<(u32, usize)>
    requires at_in_bounds { at + 11 ≤ length s.now }
    requires begins { Begins s.now at 9 v }
    ensures { NumberAt s.now at result }
{
    let d = digit(s[at + 9]);
    if 9 < d {
        return Some((v, at + 9));
    }
    let w = v as u64 * 10 + d as u64;
    if 4294967295 < w {
        return None;
    }
    if digit(s[at + 10]) < 10 {
        return None;
    }
    Some((w as u32, at + 10))
}

// Reads the fixed text p, four bytes at a time as long as it has four more: by `starts_with` or a comparison of slices, a change's line takes 14 to
// 26 instructions more. An empty text would stand even past the end, so none is asked for.
pub fn literal_at(s: &[u8], at: usize, p: &[u8]) -> Option<usize>
    requires { 0 < length p.now }
    ensures { LiteralAt s.now at p.now result }
{
    if s.len() <= at {
        return None;
    }
    if s.len() - at < p.len() {
        return None;
    }
    let fours = p.len() / 4;
    for i in 0..fours {
        let k = 4 * i;
        if four(s, at + k) != four(p, k) {
            return None;
        }
    }
    rest_at(s, at, p, 4 * fours)
}

// Goes on byte by byte after the first bytes of p, which stand there.
fn rest_at(s: &[u8], at: usize, p: &[u8], from: usize) -> Option<usize>
    requires p_in_bounds { at + length p.now ≤ length s.now }
    requires from_in_bounds { from ≤ length p.now }
    requires starts { Starts s.now at p.now from }
    ensures { LiteralAt s.now at p.now result }
{
    for k in from..p.len() {
        if s[at + k] != p[k] {
            return None;
        }
    }
    Some(at + p.len())
}

// The four bytes from i on as one number.
fn four(s: &[u8], i: usize) -> u32
    requires { i + 4 ≤ length s.now }
    ensures { FourAt s.now i result }
{
    u32::from_le_bytes([s[i], s[i + 1], s[i + 2], s[i + 3]])
}

// Writes n in decimal, and answers how many bytes that is. Most numbers of a record have one digit: those are written without a call.
pub fn put_number(out: &mut [u8], n: u32) -> usize
    requires { length (decimal n) ≤ length out.old }
    ensures { Put (decimal n) out.old out.new result }
{
    if n < 10 {
        out[0] = 48 + n as u8;
        return 1;
    }
    put_digits(out, n)
}

// The same for a number of any length: the digits before the last one first, by a call of itself.
fn put_digits(out: &mut [u8], n: u32) -> usize
    requires { length (decimal n) ≤ length out.old }
    ensures { Put (decimal n) out.old out.new result }
{
    if n < 10 {
        out[0] = 48 + n as u8;
        1
    } else {
        let k = put_digits(out, n / 10);
        out[k] = 48 + (n % 10) as u8;
        k + 1
    }
}

// Writes the fixed text p, and answers how many bytes that is.
pub fn put_literal(out: &mut [u8], p: &[u8]) -> usize
    requires { length p.now ≤ length out.old }
    ensures { Put p.now out.old out.new result }
{
    out[..p.len()].copy_from_slice(p);
    p.len()
}
