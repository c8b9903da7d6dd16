// Classify: questions 1 to 11, and then the store and the work space filled.
ghost use Rattle.std.specs.Prelude.{◌≡◌};
ghost use Rattle.catalogue.specs.Outcome.{accepted};
ghost use Rattle.catalogue.specs.Checks.{checked};
ghost use Rattle.classification.specs.Classified.{UsedParts, Classifying, Classifies};

use super::Classified;
use super::closing::close;
use axiom_rows::put_axioms;
use buffers::{TABLE, zeros};
use catalogue::{Refusal, check};
use layout::{Shape, used, work_used};
use rows::count;
use store::{store_fits, work_fits};

// Classifies into the used parts of a store and of a work space, whatever they held.
fn fill(b: &[u8], store: &mut [u8], work: &mut [u8]) -> Classified
    requires { UsedParts b.now store.old work.old }
    ensures { Classifying b.now result store.new work.new }
{
    let s = Shape::of(b);
    let pairs_at = s.concepts * s.width;
    let links_at = pairs_at + pairs_at;
    let end = store.len();
    let mut axioms = zeros::<TABLE>();
    put_axioms(b, s, store, &mut axioms[..pairs_at]);
    close(b, s, &axioms[..pairs_at], &mut store[pairs_at..end], work);
    let pairs = count(&store[pairs_at..links_at]);
    let links = count(&store[links_at..end]);
    Classified { pairs, links }
}

// Questions 10 and 11 of a catalogue that 1 to 9 accept.
fn classify_checked(b: &[u8], store: &mut [u8], work: &mut [u8]) -> Result<Classified, Refusal>
    requires { checked b.now ≡ accepted }
    ensures { Classifies b.now store.old work.old result store.new work.new }
{
    if !store_fits(b, store.len()) {
        return Err(Refusal { number: 10, at: 0 });
    }
    if !work_fits(b, work.len()) {
        return Err(Refusal { number: 11, at: 0 });
    }
    let store_end = used(b);
    let work_end = work_used(b);
    Ok(fill(b, &mut store[..store_end], &mut work[..work_end]))
}

// Classifies a catalogue of any content and length, into a store and a work space of any content and length.
pub fn classify(b: &[u8], store: &mut [u8], work: &mut [u8]) -> Result<Classified, Refusal>
    ensures { Classifies b.now store.old work.old result store.new work.new }
{
    check(b)?;
    classify_checked(b, store, work)
}
