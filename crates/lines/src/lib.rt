// The lines of a trace. Each reader is a thin function of the text and a position, which `reader` holds as one. It takes
// any position, and answers the value whose printed form stands there with the position after it, or that none stands there.
#![tactic(auto)]

ghost use Rattle.std.specs.Prelude.{◌+◌, ◌≤◌, length};
ghost use Rattle.lines.specs.Clauses.{LongAt, RackEndAt, RackAt, CodeAt, EndsAt, WordAt, LineEndAt, WordsAt, ChangeAt};

use calls::{Kind, Settings};

// The number of vertices, and the settings: the short line names none.
#[derive(Clone, Copy)]
pub struct FirstLine {
    pub n: u32,
    pub settings: Option<Settings>,
}

// The two vertices of a change.
#[derive(Clone, Copy)]
pub struct Ends {
    pub a: u32,
    pub b: u32,
}

// The two vertices of a change, its kind, and how many words it has: at most 128. In this order a line takes twelve bytes.
#[derive(Clone, Copy)]
pub struct Line {
    pub a: u32,
    pub b: u32,
    pub kind: Kind,
    pub count: u8,
}

// What is missing where a word should stand: the space before it, or its number.
#[derive(Clone, Copy)]
pub enum Missing {
    Space,
    Number,
}

// Reads `) (growth G) (top T))` and the line feed.
fn long_at(text: &[u8], at: usize) -> Option<(Settings, usize)>
    ensures { LongAt text.now at result }
{
    let i = text::literal_at(text, at, b") (growth ")?;
    let (growth, j) = text::number_at(text, i)?;
    let k = text::literal_at(text, j, b") (top ")?;
    let (top, l) = text::number_at(text, k)?;
    let next = text::literal_at(text, l, b"))\n")?;
    Some((Settings { growth, top }, next))
}

// The end of line 1, after its N: of the short line, or of the long one.
fn rack_end_at(text: &[u8], at: usize) -> Option<(Option<Settings>, usize)>
    ensures { RackEndAt text.now at result }
{
    if let Some(next) = text::literal_at(text, at, b"))\n") {
        return Some((None, next));
    }
    let (settings, next) = long_at(text, at)?;
    Some((Some(settings), next))
}

// "Line 1 is `(rack (boards N))`.", or "may read `(rack (boards N) (growth G) (top T))`"
pub fn rack_at(text: &[u8], at: usize) -> Option<(FirstLine, usize)>
    ensures { RackAt text.now at result }
{
    let i = text::literal_at(text, at, b"(rack (boards ")?;
    let (n, j) = text::number_at(text, i)?;
    let (settings, next) = rack_end_at(text, j)?;
    Some((FirstLine { n, settings }, next))
}

// Reads `(add (` or `(drop (`.
fn code_at(text: &[u8], at: usize) -> Option<(Kind, usize)>
    ensures { CodeAt text.now at result }
{
    if let Some(next) = text::literal_at(text, at, b"(add (") {
        return Some((Kind::Add, next));
    }
    let next = text::literal_at(text, at, b"(drop (")?;
    Some((Kind::Drop, next))
}

// Reads `A B) (draws`. It and `long_at` read two numbers each: one function of both would need a clause for each text that it is given.
fn ends_at(text: &[u8], at: usize) -> Option<(Ends, usize)>
    ensures { EndsAt text.now at result }
{
    let (a, i) = text::number_at(text, at)?;
    let j = text::literal_at(text, i, b" ")?;
    let (b, k) = text::number_at(text, j)?;
    let next = text::literal_at(text, k, b") (draws")?;
    Some((Ends { a, b }, next))
}

// Reads a space and a word where twelve bytes or more are left.
fn word_within(text: &[u8], at: usize) -> Result<(u32, usize), Missing>
    requires { at + 12 ≤ length text.now }
    ensures { WordAt text.now at result }
{
    if text[at] != 32 {
        return Err(Missing::Space);
    }
    text::number_within(text, at + 1).ok_or(Missing::Number)
}

// The same at any position.
fn word_near_end(text: &[u8], at: usize) -> Result<(u32, usize), Missing>
    ensures { WordAt text.now at result }
{
    if text.len() <= at {
        return Err(Missing::Space);
    }
    if text[at] != 32 {
        return Err(Missing::Space);
    }
    text::number_at(text, at + 1).ok_or(Missing::Number)
}

// The quicker of the two where it may be used: only the last word or two of a text are near its end.
fn word_at(text: &[u8], at: usize) -> Result<(u32, usize), Missing>
    ensures { WordAt text.now at result }
{
    if text.len() < 12 {
        return word_near_end(text, at);
    }
    if text.len() - 12 < at {
        return word_near_end(text, at);
    }
    word_within(text, at)
}

// "with 0 to 128 words, one space before each": reads them into the first places of `words`, and the end of the line.
fn words_at(text: &[u8], at: usize, words: &mut [u32]) -> Option<(usize, usize)>
    requires { 128 ≤ length words.old }
    ensures { WordsAt text.now at words.new result }
{
    let mut i = at;
    for count in 0..128 {
        match word_at(text, i) {
            Ok((word, next)) => {
                words[count] = word;
                i = next;
            }
            Err(Missing::Space) => {
                return line_end_at(text, i, count);
            }
            Err(Missing::Number) => {
                return None;
            }
        }
    }
    line_end_at(text, i, 128)
}

// Reads the end of the line after so many words.
fn line_end_at(text: &[u8], at: usize, count: usize) -> Option<(usize, usize)>
    ensures { LineEndAt text.now at count result }
{
    let next = text::literal_at(text, at, b"))\n")?;
    Some((count, next))
}

// "Each further line is `(add (A B) (draws W W))` or the same with `drop`": its words go to the first places of `words`.
pub fn change_at(text: &[u8], at: usize, words: &mut [u32]) -> Option<(Line, usize)>
    requires { 128 ≤ length words.old }
    ensures { ChangeAt text.now at words.new result }
{
    let (kind, i) = code_at(text, at)?;
    let (Ends { a, b }, j) = ends_at(text, i)?;
    let (count, next) = words_at(text, j, words)?;
    let count = count as u8;
    Some((Line { a, b, kind, count }, next))
}
