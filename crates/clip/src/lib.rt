// What the program broodline reads and prints, on slices and values: the header of its input, how long the planes are that follow it,
// and its lines (rules W1 to W7).
#![tactic(auto)]

ghost use Rattle.std.specs.Prelude.{◌≡◌, ◌&&◌, cond, [], ◌≤◌, length};
ghost use Rattle.refusal.specs.Test.{between};
ghost use Rattle.clip.specs.Header.{head_of, head_reply, header_of};
ghost use Rattle.clip.specs.Planes.{plane_lengths_of};
ghost use Rattle.clip.specs.ToldPush.{pushes};
ghost use Rattle.clip.specs.Line.{spaced, concatenated, refusal_line, macroblock_words, four_words, macroblock_line};

use record::Record;
use refusal::{Refusal, Reply};

mod write;

pub use write::Text;

// What a header says, under the names of the standard and of the rules (rule W1).
#[derive(Clone, Copy, Debug, PartialEq, Eq)]
pub struct Head {
    pub width: usize,
    pub height: usize,
    pub fcode: u32,
    pub mode: u32,
    pub quantiser: u32,
    pub vectors: u32,
}

// How many bytes a plane has.
#[derive(Clone, Copy, Debug, PartialEq, Eq)]
pub struct PlaneLengths {
    pub luma: usize,
    pub chroma: usize,
}

fn head_of(bytes: &[u8; 8]) -> Head
    ensures { result ≡ head_of bytes.now }
{
    Head {
        width: usize::from(u16::from_be_bytes([bytes[0], bytes[1]])),
        height: usize::from(u16::from_be_bytes([bytes[2], bytes[3]])),
        fcode: u32::from(bytes[4]),
        mode: u32::from(bytes[5]),
        quantiser: u32::from(bytes[6]),
        vectors: u32::from(bytes[7]),
    }
}

fn sides_allowed(head: Head) -> bool
    ensures { result ≡ (between 1 176 head.width && between 1 144 head.height) }
{
    (1..=176).contains(&head.width) && (1..=144).contains(&head.height)
}

// 1 2 6 10 14
#[tactic(auto, unfolding(crate::specs::Header::head_reply))]
fn head_reply(head: Head) -> Reply
    ensures { result ≡ head_reply head }
{
    refusal::require((1..=7).contains(&head.fcode), Refusal::Fcode)?;
    refusal::require(head.mode == 0 || head.mode == 1, Refusal::Mode)?;
    refusal::require(sides_allowed(head), Refusal::SourceSide)?;
    refusal::require((1..=31).contains(&head.quantiser), Refusal::Quantiser)?;
    refusal::require(head.vectors == 1 || head.vectors == 4, Refusal::Choice)
}

// 12, then 1 2 6 10 14: the header whose first n bytes were read. Bytes that were not read decide nothing.
#[tactic(auto, unfolding(crate::specs::Header::header_of))]
pub fn read_header(bytes: &[u8; 8], n: usize) -> Result<Head, Refusal>
    ensures { result ≡ header_of bytes.now n }
{
    refusal::require(8 <= n, Refusal::Length)?;
    let head = head_of(bytes);
    head_reply(head)?;
    Ok(head)
}

// The planes that a header announces; 0 where it would be refused, whoever made it.
#[tactic(auto, unfolding(crate::specs::Planes::plane_lengths_of))]
pub fn plane_lengths(head: Head) -> PlaneLengths
    ensures { (result ≡ plane_lengths_of head) × (result.luma ≤ 25344) × (result.chroma ≤ 6336) }
{
    let width = head.width;
    let height = head.height;
    match head_reply(head) {
        Ok(()) => PlaneLengths {
            luma: width * height,
            chroma: (width + 1) / 2 * ((height + 1) / 2),
        },
        Err(_) => PlaneLengths { luma: 0, chroma: 0 },
    }
}

// `refused` and the number.
pub fn refusal_line(why: Refusal) -> Text
    ensures { (result ≡ refusal_line why) × (length result ≤ 198) }
{
    let mut refused = Text::new();
    refused.push_all(b"refused");
    refused.word(u64::from(u8::from(why)));
    refused.push_all(b"\n");
    refused
}

// Column, row, vector, sum, patterns, events.
fn macroblock_words(line: &mut Text, column: usize, row: usize, given: Record)
    ensures { line.new ≡ pushes line.old (concatenated (macroblock_words column row given)) }
{
    line.number(column as u64);
    line.word(row as u64);
    line.vector_words(given.vector);
    line.word(u64::from(given.sum));
    line.word(u64::from(given.luma_pattern));
    line.word(u64::from(given.chroma_pattern));
    line.word(record::event_count(given.counts));
}

// The four vectors and the total of their sums.
fn four_words(line: &mut Text, given: Record)
    ensures { line.new ≡ pushes line.old (spaced (four_words given)) }
{
    let vectors = given.vectors;
    line.vector_words(vectors[0]);
    line.vector_words(vectors[1]);
    line.vector_words(vectors[2]);
    line.vector_words(vectors[3]);
    line.word(record::four_total(given.sums));
}

// The words that follow where four vectors were searched for.
#[tactic(auto, unfolding(crate::specs::Line::spaced, crate::specs::ToldPush::pushes))]
fn further_words(line: &mut Text, given: Record, four: bool)
    ensures { line.new ≡ pushes line.old (spaced (cond four (four_words given) [])) }
{
    if four {
        four_words(line, given);
    }
}

// A macroblock's line, whatever its record holds.
pub fn macroblock_line(column: usize, row: usize, given: Record, four: bool) -> Text
    ensures { (result ≡ macroblock_line column row given four) × (length result ≤ 198) }
{
    let mut line = Text::new();
    macroblock_words(&mut line, column, row, given);
    further_words(&mut line, given, four);
    line.push_all(b"\n");
    line
}
