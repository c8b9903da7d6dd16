// Role reach: the square of marks, closed by Warshall's algorithm.
ghost use Rattle.std.specs.Prelude.{◌≡◌, false, ℕ, ◌<◌, get_or};
ghost use Rattle.catalogue.specs.Header as header;
ghost use Rattle.catalogue.specs.WellFormed.{WellFormed};
ghost use Rattle.structure.specs.Square.{mark, Included, Sized, MarksExactly, mark_through, Through, Closed};

use catalogue::{Concept, Inclusion, inclusions};

// A square of marks, role by role.
pub type Square = [[bool; Concept::ROLES]; Concept::ROLES];

// Each role reaches itself.
fn reflexive() -> Square
    ensures sized { Sized result }
    ensures marks_exactly { MarksExactly (λ (r s : ℕ). r ≡ s) result }
{
    let mut square = [[false; Concept::ROLES]; Concept::ROLES];
    for role in 0..Concept::ROLES {
        square[role][role] = true;
    }
    square
}

// Each role reaches itself and the roles around it.
fn included(b: &[u8]) -> Square
    requires { WellFormed b.now }
    ensures { MarksExactly (Included b.now (header.inclusions b.now)) result }
{
    let mut square = reflexive();
    let count = inclusions(b);
    for k in 0..count {
        let inclusion = Inclusion::at(b, k);
        let r = inclusion.within;
        let s = inclusion.around;
        square[r][s] = true;
    }
    square
}

// Row r with what it reaches by way of role k.
fn row_through(square: Square, k: usize, r: usize) -> [bool; Concept::ROLES]
    requires k_bound { k < 16 }
    requires r_bound { r < 16 }
    ensures { (s : ℕ) → s < 16 → get_or result s false ≡ mark_through k square r s }
{
    let mut row = [false; Concept::ROLES];
    for s in 0..Concept::ROLES {
        row[s] = square[r][s] | (square[r][k] & square[k][s]);
    }
    row
}

// The square with what is reached by way of role k.
fn through(square: Square, k: usize) -> Square
    requires { k < 16 }
    ensures { Through k square result }
{
    let mut next = [[false; Concept::ROLES]; Concept::ROLES];
    for r in 0..Concept::ROLES {
        next[r] = row_through(square, k, r);
    }
    next
}

// The square of role reach, closed once for a call.
pub fn close_roles(b: &[u8]) -> Square
    requires { WellFormed b.now }
    ensures { Closed b.now result }
{
    let mut square = included(b);
    for k in 0..Concept::ROLES {
        let next = through(square, k);
        square = next;
    }
    square
}

// Does role r reach role s? Reach is read here alone.
pub fn reaches(square: &Square, r: usize, s: usize) -> bool
    requires r_bound { r < 16 }
    requires s_bound { s < 16 }
    ensures { result ≡ mark square.now r s }
{
    square[r][s]
}
