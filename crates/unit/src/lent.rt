// Numbers left in a lent run.
ghost use Rattle.std.specs.Prelude.{[], ◌∷◌};
ghost use Rattle.unit.specs.Lent.{LendsValues};

// Leaves four numbers at the start of a run: 0; or 10 where the run is too short, with nothing written.
pub(crate) fn lend_four(a: u64, b: u64, c: u64, d: u64, run: &mut [u64]) -> u64
    ensures { LendsValues 0 (a ∷ b ∷ c ∷ d ∷ []) run.old run.new result }
{
    if run.len() < 4 {
        return 10;
    }
    run[0] = a;
    run[1] = b;
    run[2] = c;
    run[3] = d;
    0
}
