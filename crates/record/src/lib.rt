// The lines of a record. A printer writes at the start of the part that it is lent and answers how much it wrote; bytes past that keep
// their values. "each line is put straight after the one before it in the record space": a caller lends the rest of the space.
// No line is an `impl Display`: without a heap its text would go through a formatter to the lent space, and each byte there is promised.
#![tactic(auto)]

ghost use Rattle.std.specs.Prelude.{◌≡◌, ◌+◌, ◌≤◌, length};
ghost use Rattle.model.specs.Text.{largest};
ghost use Rattle.model.specs.Trace.{settings_text, rack_line};
ghost use Rattle.model.specs.Record.{answer_line, end_text, blank_record};
ghost use Rattle.model.specs.Run.{bad_line};
ghost use Rattle.text.specs.Writing.{Put};
ghost use Rattle.text.specs.Rooms.{short_room, answer_room, pair_room, end_room, bad_room};
ghost use Rattle.calls.specs.Terms.{number_of, line_of, told, named_by};
ghost use Rattle.record.specs.Pen.{Adds};
ghost use Rattle.record.specs.Line.{settings_room, answered, done_text, refused_text, pair_text, mean_of};

mod pen;

use calls::{Figures, Refusal, Settings};
use pen::Pen;

// Writes line 1, which the record repeats from the trace, in the form that it has there: long with settings, else short.
pub fn put_rack(out: &mut [u8], n: u32, settings: Option<Settings>) -> usize
    requires { short_room + settings_room settings ≤ length out.old }
    ensures { Put (rack_line n (named_by settings)) out.old out.new result }
{
    let mut pen = Pen { out, at: 0 };
    pen.literal(b"(rack (boards ");
    pen.number(n);
    pen.literal(b")");
    put_settings(&mut pen, settings);
    pen.literal(b")\n");
    pen.at
}

// The settings that line 1 names, if it does.
fn put_settings(pen: &mut Pen, settings: Option<Settings>)
    requires { pen.old.at + settings_room settings ≤ length pen.old.out.now }
    ensures adds { Adds (settings_text (named_by settings)) pen.old pen.new }
    ensures few { pen.new.at ≤ pen.old.at + settings_room settings }
{
    if let Some(given) = settings {
        pen.literal(b" (growth ");
        pen.number(given.growth);
        pen.literal(b") (top ");
        pen.number(given.top);
        pen.literal(b")");
    }
}

// Writes the line of a change by its number: `(done (draws D) (falls F) (pairs P))` for 0, else `(refused K)`.
pub fn put_answer(out: &mut [u8], number: u32, draws: u32, falls: u32, pairs: u32) -> usize
    requires { answer_room ≤ length out.old }
    ensures { Put (answer_line (answered number draws falls pairs)) out.old out.new result }
{
    if number == 0 {
        let draws = u64::from(draws);
        let figures = Figures {
            draws,
            falls,
            pairs,
        };
        put_done(out, figures)
    } else {
        put_refused(out, number)
    }
}

// The same of what a change answers: 0 with its figures, or the refusal's number.
pub fn put_outcome(out: &mut [u8], answer: Result<Figures, Refusal>) -> usize
    requires room { answer_room ≤ length out.old }
    requires draws_fit { (told answer).draws ≤ largest }
    ensures { Put (answer_line (told answer)) out.old out.new result }
{
    match answer {
        Ok(figures) => put_answer(out, 0, figures.draws as u32, figures.falls, figures.pairs),
        Err(why) => put_answer(out, u32::from(why), 0, 0, 0),
    }
}

// The line of a change made.
pub fn put_done(out: &mut [u8], figures: Figures) -> usize
    requires room { answer_room ≤ length out.old }
    requires draws_fit { figures.draws ≤ largest }
    ensures { Put (done_text figures.draws figures.falls figures.pairs) out.old out.new result }
{
    let mut pen = Pen { out, at: 0 };
    pen.literal(b"(done (draws ");
    pen.number(figures.draws as u32);
    pen.literal(b") (falls ");
    pen.number(figures.falls);
    pen.literal(b") (pairs ");
    pen.number(figures.pairs);
    pen.literal(b"))\n");
    pen.at
}

// The line of a change refused, by any number.
pub fn put_refused(out: &mut [u8], number: u32) -> usize
    requires { answer_room ≤ length out.old }
    ensures { Put (refused_text number) out.old out.new result }
{
    let mut pen = Pen { out, at: 0 };
    pen.literal(b"(refused ");
    pen.number(number);
    pen.literal(b")\n");
    pen.at
}

// Writes the line of the pair a-b, a the lower vertex.
pub fn put_pair(out: &mut [u8], a: u32, b: u32, level: u32) -> usize
    requires { pair_room ≤ length out.old }
    ensures { Put (pair_text a b level) out.old out.new result }
{
    let mut pen = Pen { out, at: 0 };
    pen.literal(b"(pair (");
    pen.number(a);
    pen.literal(b" ");
    pen.number(b);
    pen.literal(b") (level ");
    pen.number(level);
    pen.literal(b"))\n");
    pen.at
}

// Writes the end line: the pairs held, and the mean of the links, `whole` for each vertex and `rest` left over.
pub fn put_end(out: &mut [u8], pairs: u32, whole: u32, rest: u32) -> usize
    requires { end_room ≤ length out.old }
    ensures { Put (end_text pairs (mean_of whole rest)) out.old out.new result }
{
    let mut pen = Pen { out, at: 0 };
    pen.literal(b"(end (pairs ");
    pen.number(pairs);
    pen.literal(b") (mean ");
    pen.number(whole);
    pen.literal(b" ");
    pen.number(rest);
    pen.literal(b"))\n");
    pen.at
}

// Writes the record of a blank paper, which is this line alone.
pub fn put_blank(out: &mut [u8]) -> usize
    requires { length blank_record ≤ length out.old }
    ensures { Put blank_record out.old out.new result }
{
    text::put_literal(out, b"(end (pairs 0))\n")
}

// Writes the line of a run that was turned back, of any number and line.
pub fn put_bad(out: &mut [u8], number: u32, line: u32) -> usize
    requires { bad_room ≤ length out.old }
    ensures { Put (bad_line number line) out.old out.new result }
{
    let mut pen = Pen { out, at: 0 };
    pen.literal(b"(bad ");
    pen.number(number);
    pen.literal(b" ");
    pen.number(line);
    pen.literal(b")\n");
    pen.at
}

// The same of the reason.
pub fn put_turned_back(out: &mut [u8], why: Refusal) -> usize
    requires room { bad_room ≤ length out.old }
    requires line_fits { line_of why ≤ largest }
    ensures { Put (bad_line (number_of why) (line_of why)) out.old out.new result }
{
    put_bad(out, u32::from(why), why.line() as u32)
}
