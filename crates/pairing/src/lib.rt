// The calls for C and Rust, under one prefix. Numbers pass as themselves, a slice as a pointer and then a length. The result is document
// 01's number, 0 if the call ran; a figure comes back through a pointer, 0 where the call is turned back.
// Exports that differ in a name alone stay apart, since C calls each by its own.
#![tactic(auto)]

ghost use Rattle.std.specs.Prelude.{◌≡◌};
ghost use Rattle.model.specs.Shape.{low};
ghost use Rattle.model.specs.Counting.{bit};
ghost use Rattle.model.specs.State.{low_with, low_kind};
ghost use Rattle.model.specs.Calls.{make_number, made, change_bytes, audit as audit_of, level_query, mate_query, linked_query, roster_query};
ghost use Rattle.model.specs.Run.{Ran};
ghost use Rattle.calls.specs.Terms.{outcome};
ghost use Rattle.changes.specs.Sounded.{brought};
ghost use Rattle.run.specs.Recording.{told};

use calls::{Figures, Refusal, Settings};

// The number that a call answers: 0 if it ran.
fn number<T: Copy>(answer: Result<T, Refusal>) -> u32
    ensures { result ≡ outcome answer }
{
    match answer {
        Ok(_) => 0,
        Err(why) => u32::from(why),
    }
}

// The line that a run names where the text does not fit, or 0.
fn line_of(answer: Result<usize, Refusal>) -> usize
    ensures { result ≡ (told answer).line }
{
    match answer {
        Ok(_) => 0,
        Err(why) => why.line(),
    }
}

// Making a rack of n boards with settings.
#[unsafe(no_mangle)]
pub extern "C" fn pairing_make_with(rack: &mut [u8], n: u32, growth: u32, top: u32) -> u32
    ensures number { result ≡ make_number (low_with growth top) rack.old n }
    ensures leaves { rack.new ≡ made (low_with growth top) rack.old n }
{
    number(engine::make_with(rack, n, Settings { growth, top }))
}

// The short form of making a rack of n boards.
#[unsafe(no_mangle)]
pub extern "C" fn pairing_make(rack: &mut [u8], n: u32) -> u32
    ensures number { result ≡ make_number low_kind rack.old n }
    ensures leaves { rack.new ≡ made low_kind rack.old n }
{
    number(engine::make(rack, n))
}

// A change: code 1 adds the link a-b, code 2 drops it, with words lent for its draws.
#[unsafe(no_mangle)]
pub extern "C" fn pairing_change(
    rack: &mut [u8],
    code: u32,
    a: u32,
    b: u32,
    words: &[u32],
    draws: &mut u64,
    falls: &mut u32,
    pairs: &mut u32,
) -> u32
    ensures number { result ≡ (change_bytes low rack.old (brought code a b words.now)).answer.number }
    ensures draws { draws.new ≡ (change_bytes low rack.old (brought code a b words.now)).answer.draws }
    ensures falls { falls.new ≡ (change_bytes low rack.old (brought code a b words.now)).answer.falls }
    ensures pairs { pairs.new ≡ (change_bytes low rack.old (brought code a b words.now)).answer.pairs }
    ensures leaves { rack.new ≡ (change_bytes low rack.old (brought code a b words.now)).rack }
{
    let answer = engine::change(rack, code, a, b, words);
    let none = Figures {
        draws: 0,
        falls: 0,
        pairs: 0,
    };
    let figures = answer.unwrap_or(none);
    *draws = figures.draws;
    *falls = figures.falls;
    *pairs = figures.pairs;
    number(answer)
}

// The audit: yes is 1 if the rack is sound.
#[unsafe(no_mangle)]
pub extern "C" fn pairing_audit(rack: &[u8], yes: &mut u32) -> u32
    ensures number { result ≡ (audit_of low rack.now).number }
    ensures yes { yes.new ≡ bit (audit_of low rack.now).yes }
{
    let answer = engine::audit(rack);
    *yes = u32::from(answer.unwrap_or(false));
    number(answer)
}

// A board's level, -1 to 3.
#[unsafe(no_mangle)]
pub extern "C" fn pairing_level(rack: &[u8], v: u32, level: &mut i32) -> u32
    ensures number { result ≡ (level_query low rack.now v).number }
    ensures level { level.new ≡ (level_query low rack.now v).level }
{
    let answer = engine::level(rack, v);
    *level = answer.unwrap_or(0);
    number(answer)
}

// A board's mate, 65,535 if it is idle.
#[unsafe(no_mangle)]
pub extern "C" fn pairing_mate(rack: &[u8], v: u32, mate: &mut u32) -> u32
    ensures number { result ≡ (mate_query low rack.now v).number }
    ensures mate { mate.new ≡ (mate_query low rack.now v).value }
{
    let answer = engine::mate(rack, v);
    *mate = answer.unwrap_or(0);
    number(answer)
}

// Whether two boards are linked: 1 or 0.
#[unsafe(no_mangle)]
pub extern "C" fn pairing_linked(rack: &[u8], v: u32, w: u32, linked: &mut u32) -> u32
    ensures number { result ≡ (linked_query low rack.now v w).number }
    ensures linked { linked.new ≡ (linked_query low rack.now v w).value }
{
    let answer = engine::linked(rack, v, w);
    *linked = answer.unwrap_or(0);
    number(answer)
}

// The number of boards at a level, 0 for a level outside -1 to 3.
#[unsafe(no_mangle)]
pub extern "C" fn pairing_roster(rack: &[u8], level: i32, count: &mut u32) -> u32
    ensures number { result ≡ (roster_query low rack.now level).number }
    ensures count { count.new ≡ (roster_query low rack.now level).value }
{
    let answer = engine::roster(rack, level);
    *count = answer.unwrap_or(0);
    number(answer)
}

// Running a trace text to its record, which stands at the start of `space`; line is the first that doesn't fit, for number 4.
#[unsafe(no_mangle)]
pub extern "C" fn pairing_run(
    rack: &mut [u8],
    text: &[u8],
    space: &mut [u8],
    line: &mut usize,
    length: &mut usize,
) -> u32
    ensures { Ran rack.old text.now space.old (record { number = result; line = line.new; length = length.new }) rack.new space.new }
{
    let answer = run::run(rack, text, space);
    *line = line_of(answer);
    *length = answer.unwrap_or(0);
    number(answer)
}
