ghost use Rattle.std.specs.Prelude.{◌≡◌, ◌++◌, ◌∷◌, [], OnOk, IfOk};
ghost use Rattle.row_eval.specs.Kept.{kept_places};

use pgq_base::NoMemory;
use std::alloc::Global;
use std::marker::Model;

// The fields that places fill. So many need no memory of their own, since most keys are those of one row.
#[derive(Drop)]
enum Kept {
    Empty,
    One([usize; 1]),
    Two([usize; 2]),
    Three([usize; 3]),
    Many(Vec<usize>),
}

/// Places of rows, in order. Up to three of them take no memory of their own.
#[derive(Drop)]
pub struct Group {
    kept: Kept,
}

impl Model for Group {
    ghost use Rattle.std.specs.Prelude.{ℕ, List};
    ghost use Rattle.row_eval.specs.Kept.{kept_places};

    ghost Value = { List ℕ };

    ghost view = { λ group. kept_places group.kept };
}

fn four(alloc: Global, three: &[usize], last: usize) -> Result<Vec<usize>, NoMemory>
    ensures { IfOk result (λ all. all.items ≡ three.now ++ last ∷ []) }
{
    let mut all = Vec::with_capacity(alloc, 8)?;
    all.extend_from_slice(three)?;
    all.push(last)?;
    Ok(all)
}

impl Group {
    /// The group without places.
    pub fn new() -> Group
        ensures { result ≡ [] }
    {
        Group { kept: Kept::Empty }
    }

    /// The places, in order.
    pub fn as_slice(&self) -> &[usize]
        ensures { result.now ≡ self.now }
    {
        match &self.kept {
            Kept::Empty => &[],
            Kept::One(places) => places.as_slice(),
            Kept::Two(places) => places.as_slice(),
            Kept::Three(places) => places.as_slice(),
            Kept::Many(places) => places.as_slice(),
        }
    }

    /// Puts a place behind the others.
    pub fn push(&mut self, alloc: Global, place: usize) -> Result<(), NoMemory>
        ensures { OnOk result (self.new ≡ self.old ++ place ∷ []) }
    {
        let kept = match &mut self.kept {
            Kept::Empty => Kept::One([place]),
            Kept::One(places) => Kept::Two([places[0], place]),
            Kept::Two(places) => Kept::Three([places[0], places[1], place]),
            Kept::Three(places) => Kept::Many(four(alloc, places.as_slice(), place)?),
            Kept::Many(places) => {
                places.push(place)?;
                return Ok(());
            }
        };
        self.kept = kept;
        Ok(())
    }
}
