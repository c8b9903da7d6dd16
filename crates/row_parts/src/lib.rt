// The call row (document 01, What it covers): a concept's row, handed out as a part of the caller's store.
#![tactic(auto)]

ghost use Rattle.std.specs.Prelude.{◌≡◌};
ghost use Rattle.row_parts.specs.Rows.{row_answer, Within, Names, HandsOut};

use catalogue::Refusal;
use layout::{Shape, pair_offset};
use read_checks::check_reading;

// Where a row stands: the byte of the store at which it begins, and how many it has.
#[derive(Clone, Copy)]
pub struct Place {
    pub offset: usize,
    pub width: usize,
}

// Where the row of concept c stands.
#[tactic(auto, using(catalogue::proofs::HandedOn::handed_on, read_checks::proofs::Acceptance::read_twice, crate::proofs::Answered::row_accepted, crate::proofs::Answered::row_refused, layout::proofs::Sizes::shape_width))]
pub fn row_answer(b: &[u8], c: usize, store: &[u8]) -> Result<Place, Refusal>
    ensures { result ≡ row_answer b.now c store.now }
{
    check_reading(b, c, c, store)?;
    let s = Shape::of(b);
    Ok(Place {
        offset: pair_offset(b, c),
        width: s.width,
    })
}

// The part of the store that an answer names; refused, the empty part.
fn part_of<'a>(store: &'a [u8], answer: Result<Place, Refusal>) -> &'a [u8]
    requires { Within store.now answer }
    ensures { Names store.entry answer result }
{
    match answer {
        Ok(place) => {
            let end = place.offset + place.width;
            &store[place.offset..end]
        }
        Err(_) => &store[0..0],
    }
}

// The row of concept c, as that part of the store; refused, the empty part.
#[tactic(auto, using(crate::proofs::Answered::answer_within, crate::proofs::Answered::names_handed))]
pub fn row<'a>(b: &[u8], c: usize, store: &'a [u8]) -> &'a [u8]
    ensures { HandsOut b.now c store.entry result }
{
    let answer = row_answer(b, c, store);
    part_of(store, answer)
}

// A row asked for: the part, and the answer beside it.
#[derive(Clone, Copy)]
pub struct RowAnswer<'a> {
    pub part: &'a [u8],
    pub answer: Result<Place, Refusal>,
}

// The row of concept c as that part of the store, beside the answer.
#[tactic(auto, using(crate::proofs::Answered::answer_within, crate::proofs::Answered::names_handed))]
pub fn row_and_answer<'a, 'b>(b: &'b [u8], c: usize, store: &'a [u8]) -> RowAnswer<'a>
    ensures { HandsOut b.now c store.entry result.part × (result.answer ≡ row_answer b.now c store.now) }
{
    let answer = row_answer(b, c, store);
    let part = part_of(store, answer);
    RowAnswer { part, answer }
}
