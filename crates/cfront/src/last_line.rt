ghost use Rattle.std.specs.Prelude.{◌≡◌, [], ◌∷◌, ◌-◌, codes, get_or, decimal, map, string_bytes};
ghost use Rattle.std.specs.List.{concat};
ghost use Rattle.cf_base.specs.Rule.{texts};
ghost use Rattle.cc_whole_memory.specs.Store.{act_number as number_of};
ghost use Rattle.cfront.specs.LastLine.{last_line, file_name, bound_name, limit_place, opening, section, closing};

use crate::answer::Answer;
use crate::outcome::Outcome;
use cc_whole_memory::Act;
use cf_base::{Bound, Rule};
use itoa::Buffer;

/// Room for the digits of the numbers of a line.
#[derive(Drop)]
pub struct Digits {
    first: Buffer,
    second: Buffer,
    third: Buffer,
}

impl Digits {
    pub fn new() -> Digits {
        Digits {
            first: Buffer::new(),
            second: Buffer::new(),
            third: Buffer::new(),
        }
    }
}

/// The pieces of a line, of which those that it doesn't need are empty.
pub type Pieces<'a> = [&'a [u8]; 12];

const EMPTY: &[u8] = b"";

/// The line that an answer writes to `err` at the end; `names` has the FILEs of the job.
pub fn line_pieces<'a>(
    names: &'a [String],
    answer: &'a Answer,
    digits: &'a mut Digits,
) -> Pieces<'a>
    ensures { concat (map (λ piece. piece.now) result) ≡ last_line (map string_bytes names.now) answer.now.position answer.now.outcome }
{
    match &answer.outcome {
        Outcome::Ended { status } => number_line(b"cfront: ended ", digits.first.format(*status)),
        Outcome::Ticks => plain_line(b"cfront: out of ticks\n"),
        Outcome::Depth => plain_line(b"cfront: too deep\n"),
        Outcome::Undefined { act } => {
            number_line(
                b"cfront: undefined act A",
                digits.first.format(act_number(*act)),
            )
        }
        Outcome::Frames { product } => number_line(
            b"cfront: frames ",
            digits.first.format(*product),
        ),
        Outcome::Usage => plain_line(b"usage: cfront go|translate|layout|link|run|name|sample\n"),
        Outcome::FileFault => plain_line(b"cfront: file fault\n"),
        Outcome::SourceFault => plain_line(b"cfront: source fault\n"),
        Outcome::SinkFault => plain_line(b"cfront: sink fault\n"),
        Outcome::Limit { file, limit } => {
            limit_line(
                place_name(names, *file),
                limit.bound,
                digits.first.format(limit.most),
            )
        }
        Outcome::Refused { file, rule, at: _ } => refusal_line(
            name_of(names, *file),
            digits.first.format(answer.position.line),
            digits.second.format(answer.position.column),
            digits.third.format(rule.number()),
            *rule,
        ),
        Outcome::LinkRefused { rule, name } => {
            link_line(digits.first.format(*rule), name.as_slice())
        }
    }
}

fn plain_line<'a>(text: &'a [u8]) -> Pieces<'a>
    ensures { concat (map (λ piece. piece.now) result) ≡ concat (text.now ∷ []) }
{
    [
        EMPTY, EMPTY, EMPTY, EMPTY, EMPTY, EMPTY, EMPTY, EMPTY, EMPTY, EMPTY, EMPTY, text,
    ]
}

fn number_line<'a>(text: &'a [u8], number: &'a str) -> Pieces<'a>
    ensures { concat (map (λ piece. piece.now) result) ≡ concat (text.now ∷ number.now ∷ codes "\n" ∷ []) }
{
    [
        EMPTY,
        EMPTY,
        EMPTY,
        EMPTY,
        EMPTY,
        EMPTY,
        EMPTY,
        EMPTY,
        EMPTY,
        text,
        number.as_bytes(),
        b"\n",
    ]
}

fn limit_line<'a>(place: &'a [u8], bound: Bound, most: &'a str) -> Pieces<'a>
    ensures { concat (map (λ piece. piece.now) result)
        ≡ concat (place.now ∷ codes ": limit " ∷ bound_name bound ∷ codes " " ∷ most.now ∷ codes "\n" ∷ []) }
{
    let bound = bound_text(bound);
    [
        EMPTY,
        EMPTY,
        EMPTY,
        EMPTY,
        EMPTY,
        EMPTY,
        place,
        b": limit ",
        bound,
        b" ",
        most.as_bytes(),
        b"\n",
    ]
}

fn link_line<'a>(rule: &'a str, name: &'a [u8]) -> Pieces<'a>
    ensures { concat (map (λ piece. piece.now) result) ≡ concat (codes "link: L" ∷ rule.now ∷ codes " " ∷ name.now ∷ codes "\n" ∷ []) }
{
    [
        EMPTY,
        EMPTY,
        EMPTY,
        EMPTY,
        EMPTY,
        EMPTY,
        EMPTY,
        b"link: L",
        rule.as_bytes(),
        b" ",
        name,
        b"\n",
    ]
}

fn refusal_line<'a>(
    file: &'a [u8],
    line: &'a str,
    column: &'a str,
    number: &'a str,
    rule: Rule,
) -> Pieces<'a>
    ensures { concat (map (λ piece. piece.now) result)
        ≡ concat (file.now ∷ codes ":" ∷ line.now ∷ codes ":" ∷ column.now ∷ codes ": K" ∷ number.now
        ∷ opening rule ∷ section rule ∷ closing rule ∷ get_or texts (rule - 1) [] ∷ codes "\n" ∷ []) }
{
    let (opening, section, closing) = bracketed_section(rule);
    let text = rule_text(rule);
    [
        file,
        b":",
        line.as_bytes(),
        b":",
        column.as_bytes(),
        b": K",
        number.as_bytes(),
        opening,
        section,
        closing,
        text,
        b"\n",
    ]
}

fn rule_text<'a>(rule: Rule) -> &'a [u8]
    ensures { result.now ≡ get_or texts (rule - 1) [] }
{
    rule.text().as_bytes()
}

/// The section of a rule, with what stands before and after it.
fn bracketed_section<'a>(rule: Rule) -> (&'a [u8], &'a [u8], &'a [u8])
    ensures before { result.0.now ≡ opening rule }
    ensures section { result.1.now ≡ section rule }
    ensures after { result.2.now ≡ closing rule }
{
    if rule.number() == 48 {
        (b"", b"", b" ")
    } else {
        (b" (", rule.section().as_bytes(), b") ")
    }
}

/// The name of the FILE of this number, from 1.
fn name_of(names: &[String], number: u32) -> &[u8]
    ensures { result.now ≡ file_name (map string_bytes names.now) number }
{
    match names.get((number as usize).saturating_sub(1)) {
        Some(name) => name.as_bytes(),
        None => b"",
    }
}

fn place_name(names: &[String], file: Option<u32>) -> &[u8]
    ensures { result.now ≡ limit_place (map string_bytes names.now) file }
{
    match file {
        Some(number) => name_of(names, number),
        None => b"cfront",
    }
}

fn bound_text<'a>(bound: Bound) -> &'a [u8]
    ensures { result.now ≡ bound_name bound }
{
    match bound {
        Bound::Bytes => b"Bytes",
        Bound::Tokens => b"Tokens",
        Bound::Nesting => b"Nesting",
        Bound::Classes => b"Classes",
        Bound::Subobjects => b"Subobjects",
        Bound::Size => b"Size",
        Bound::Names => b"Names",
        Bound::Entries => b"Entries",
        Bound::Frame => b"Frame",
        Bound::Destroyed => b"Destroyed",
        Bound::Units => b"Units",
        Bound::Text => b"Text",
        Bound::Static => b"Static",
        Bound::Nodes => b"Nodes",
    }
}

fn act_number(act: Act) -> u8
    ensures { result ≡ number_of act }
{
    match act {
        Act::A1 => 1,
        Act::A2 => 2,
        Act::A3 => 3,
        Act::A4 => 4,
        Act::A5 => 5,
        Act::A6 => 6,
        Act::A7 => 7,
        Act::A8 => 8,
        Act::A9 => 9,
        Act::A10 => 10,
        Act::A11 => 11,
    }
}
