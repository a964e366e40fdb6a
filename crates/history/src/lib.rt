// The history: actual improvements for the years from B + 1 to F, where the base table is older than F.
#![tactic(auto)]

pub mod actual;
pub mod check;

ghost use Rattle.history.specs.History.{Workable};

// A data run and its history, as they are lent, that may be worked with: wherever one is made, their checks have passed.
#[derive(Clone, Copy)]
pub struct LentBasis<'a> {
    pub run: &'a [u8],
    pub history: &'a [u8],
    ghost workable: { Workable run.now history.now },
}
