// A trace text run to its record. The whole text is read before the rack is made; then each change that was read is made on the rack, and
// answered by a line straight after the one before it. The rack is made here and stays sound, so no change is audited. That it is sound is asked in
// the contracts and is no invariant of a type: `layout` and `changes` take the bytes, so each function here would take them out of it again.
#![tactic(auto)]

ghost use Rattle.std.specs.Prelude.{◌≡◌, ◌≤◌, ◌<◌, length};
ghost use Rattle.model.specs.Shape.{low};
ghost use Rattle.model.specs.Bytes.{rules_at, read, write};
ghost use Rattle.model.specs.Change.{change as change_of};
ghost use Rattle.model.specs.Calls.{asked_number};
ghost use Rattle.model.specs.Trace.{Trace as TraceOf};
ghost use Rattle.model.specs.Record.{answer_line, pair_lines, end_line, kind_of, rack_of};
ghost use Rattle.model.specs.Run.{Ran, space_length};
ghost use Rattle.text.specs.Writing.{Put};
ghost use Rattle.text.specs.Rooms.{answer_room, pair_room, end_room, ending_room};
ghost use Rattle.calls.specs.Terms.{code_of};
ghost use Rattle.changes.specs.Sounded.{Sounded, brought};
ghost use Rattle.run.specs.Recording.{ending_text, pair_part, trace_of, IsKept, Ready, Played, Recordable, Written, Took, told, Shown};

use calls::{Refusal, Settings};
use layout::shape::{RACK_BYTES, Rack};
use lines::Line;
use std::marker::Model;

// The most bytes of a trace text.
pub const TEXT_LIMIT: usize = 16384;

// The fewest bytes of a record space.
pub const RECORD_SPACE: usize = 65536;

// The pair's line of v, if v is the lower vertex of a pair.
fn put_lower(rack: &Rack, v: usize, out: &mut [u8]) -> usize
    requires sounded { Sounded low rack.now }
    requires v_bound { (v < (read low rack.now).n) × (pair_room ≤ length out.old) }
    ensures { Put (pair_part (read low rack.now) v) out.old out.new result }
{
    let Some(m) = layout::mate(rack, v) else {
        return 0;
    };
    if m as usize <= v {
        return 0;
    }
    let level = layout::rank(rack, v) - 1;
    record::put_pair(out, v as u32, u32::from(m), u32::from(level))
}

// "then the pairs by rising lower board"
fn put_pairs(rack: &Rack, out: &mut [u8]) -> usize
    requires sounded { Sounded low rack.now }
    requires ending_room_in_bounds { ending_room ≤ length out.old }
    ensures { Put (pair_lines (read low rack.now)) out.old out.new result }
{
    let n = layout::size(rack);
    let mut at = 0;
    for v in 0..n {
        at += put_lower(rack, v, &mut out[at..]);
    }
    at
}

// "The end line becomes `(end (pairs P) (mean Q R))`, where twice the links equals Q times n plus R and R is below n."
fn put_last(rack: &Rack, out: &mut [u8]) -> usize
    requires sounded { Sounded low rack.now }
    requires end_room_in_bounds { end_room ≤ length out.old }
    ensures { Put (end_line (read low rack.now)) out.old out.new result }
{
    let pairs = changes::pairs(rack);
    let n = layout::size(rack) as u32;
    let twice = 2 * u32::from(layout::edges(rack));
    record::put_end(out, pairs, twice / n, twice % n)
}

// "then the pairs by rising lower board, then the end line"
fn put_ending(rack: &Rack, out: &mut [u8]) -> usize
    requires sounded { Sounded low rack.now }
    requires ending_room_in_bounds { ending_room ≤ length out.old }
    ensures { Put (ending_text (read low rack.now)) out.old out.new result }
{
    let at = put_pairs(rack, out);
    at + put_last(rack, &mut out[at..])
}

// One change of a trace, which has at most 128 words, and the line that answers it.
fn put_change(rack: &mut Rack, line: Line, words: &[u32], out: &mut [u8]) -> usize
    requires sounded { Sounded low rack.old }
    requires words_len_bound { (length words.now ≤ 128) × (answer_room ≤ length out.old) }
    ensures leaves { rack.new ≡ write (change_of (rules_at rack.old) (read low rack.old) (brought (code_of line.kind) line.a line.b words.now)).state }
    ensures prints { Put (answer_line (change_of (rules_at rack.old) (read low rack.old) (brought (code_of line.kind) line.a line.b words.now)).answer) out.old out.new result }
{
    // A change takes any code, and tells 7 of one that is no kind's.
    let code = u32::from(line.kind);
    let answer = changes::change(rack, code, line.a, line.b, words);
    record::put_outcome(out, answer)
}

// A trace that was read: what its line 1 says, and the heads and the words of its changes, as they are kept.
#[derive(Drop)]
struct KeptTrace<'a> {
    n: u32,
    settings: Option<Settings>,
    heads: &'a [Line],
    words: &'a [u32],
}

impl<'a> Model for KeptTrace<'a> {
    ghost Value = { TraceOf };

    ghost view = { λ x. trace_of x.n x.settings x.heads.now x.words.now };

    ghost invariant = { λ x. IsKept x.heads.now x.words.now };
}

// "one line for each change, then the pairs by rising lower board, then the end line": the changes that are kept are made, and "each line is
// put straight after the one before it": the rest of the record space is lent on from the present length.
fn put_changes(rack: &mut Rack, trace: &KeptTrace, out: &mut [u8]) -> usize
    requires sounded { Sounded low rack.old }
    requires ready { Ready trace.now.changes (length out.old) }
    ensures { Played trace.now.changes rack.old rack.new out.old out.new result }
{
    let mut w = 0;
    let mut at = 0;
    for head in trace.heads {
        let end = w + head.count as usize;
        at += put_change(rack, *head, &trace.words[w..end], &mut out[at..]);
        w = end;
    }
    at + put_ending(rack, &mut out[at..])
}

// "The record repeats line 1, has one line for each change, then the pairs by rising lower board, then the end line": on the rack just made.
fn put_record(rack: &mut Rack, trace: &KeptTrace, space: &mut [u8]) -> usize
    requires made { (asked_number (kind_of trace.now) trace.now.n ≡ 0) × (rack.old ≡ write (rack_of trace.now)) }
    requires recordable { Recordable trace.now (length space.old) }
    ensures { Written trace.now rack.new space.old space.new result }
{
    let at = record::put_rack(space, trace.n, trace.settings);
    at + put_changes(rack, trace, &mut space[at..])
}

// A run of a text that fits the grammar, whose changes are kept: "5. The board number n asked for isn't 1 to 256.", W-207: "A setting outside its
// range is number 13, looked at just after 5, in a trace too", or its record. "the short line means 4 and 3".
fn taken(rack: &mut Rack, trace: &KeptTrace, space: &mut [u8]) -> Result<usize, Refusal>
    requires { Recordable trace.now (length space.old) }
    ensures { Took (asked_number (kind_of trace.now) trace.now.n) trace.now rack.old space.old (told result) rack.new space.new }
{
    let settings = trace.settings.unwrap_or(calls::SHORT);
    engine::make_with(rack, trace.n, settings)?;
    Ok(put_record(rack, trace, space))
}

// "a trace 1 to 5", and 13, first fit first: the lengths, then the grammar, then the board number and the settings. A blank paper is recorded,
// and the rack left as it is. The answer is the record's length.
pub fn run(bytes: &mut [u8], text: &[u8], space: &mut [u8]) -> Result<usize, Refusal>
    ensures { Ran bytes.old text.now space.old (told result) bytes.new space.new }
{
    let rack = bytes
        .as_mut_array::<RACK_BYTES>()
        .ok_or(Refusal::RackLength)?;
    if TEXT_LIMIT < text.len() {
        return Err(Refusal::TextLength);
    }
    if space.len() < RECORD_SPACE {
        return Err(Refusal::SpaceLength);
    }
    let mut heads = trace::heads_space();
    let mut words = trace::words_space();
    match trace::read(text, &mut heads, &mut words)? {
        None => Ok(record::put_blank(space)),
        Some(found) => {
            let trace = KeptTrace {
                n: found.n,
                settings: found.settings,
                heads: &heads[..found.changes],
                words: &words,
            };
            taken(rack, &trace, space)
        }
    }
}

// "prints the record, or `(bad K L)`": the text to print stands at the start of the space, and its length is the answer. It is no call for
// others: the program lends it a space of its own, long enough for either.
pub fn show(bytes: &mut [u8], text: &[u8], space: &mut [u8]) -> usize
    requires { space_length ≤ length space.old }
    ensures { Shown bytes.old text.now space.old bytes.new space.new result }
{
    match run(bytes, text, space) {
        Ok(length) => length,
        Err(why) => record::put_turned_back(space, why),
    }
}
