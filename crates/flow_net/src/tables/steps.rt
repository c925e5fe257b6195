//! The count of steps. It takes no bytes, its calls do nothing at run time, and contracts alone read it.
//!
//! No call lowers a table's count. The count's field, module and functions are private to the table, and the only way
//! from one count to another is [`Steps::after`], which is one more than a count that it borrows. A new table starts at
//! 0, so replacing a table would lose its count; a solver cannot do that, since it gets no allocator. The proofs of
//! both functions, in `proofs/tables/steps/`, are written by hand. No other proof may be, since it could claim any
//! count.
ghost use Rattle.std.specs.Prelude.{◌≡◌, ℕ, ◌+◌};
ghost use Rattle.std.specs.Borrow.{ftrue};

use std::marker::Model;

/// How many steps were taken.
#[derive(Drop)]
pub struct Steps {
    seal: (),
    pub(super) ghost count: { ℕ },
}

impl Model for Steps {
    ghost also_owns = { λ _. ftrue };
}

impl Steps {
    /// No step so far.
    pub(super) fn new() -> Steps
        ensures { result.count ≡ 0 }
    {
        Steps { seal: () }
    }

    /// One step more than before.
    pub(super) fn after(_before: &Steps) -> Steps
        ensures { result.count ≡ _before.now.count + 1 }
    {
        Steps { seal: () }
    }
}

const _: () = prove!(size_of::<Steps>() == 0);
