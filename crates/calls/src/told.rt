// What a function of the C interface tells of what an operation answered.
ghost use Rattle.std.specs.Prelude.{◌≡◌, ℕ, List};
ghost use Rattle.std.proofs.lemmas.List.Edits.{sets};
ghost use Rattle.refusal.specs.Refusals.{outcome};
ghost use Rattle.refusal.specs.Effect.{status, told};

use refusal::Refusal;

// An answer with values, which go to `out` from the first place on.
pub trait Told {
    ghost values: { Self → List ℕ };

    fn tell(self, out: &mut [u64; 8])
        ensures { out.new ≡ sets out.old 0 (values self) };
}

// 0 with an answer, else the number of the refusal. The values of either go to `out`, whose other places stay as they were.
pub(crate) fn report<A: Told>(answer: Result<A, Refusal>, out: &mut [u64; 8]) -> u32
    ensures status { result ≡ status (outcome A.values answer) }
    ensures values { out.new ≡ sets out.old 0 (told (λ vs. vs) (outcome A.values answer)) }
{
    match answer {
        Ok(a) => {
            a.tell(out);
            0
        }
        Err(r) => r.report(out),
    }
}

// The same of a call that tells no values.
pub(crate) fn status<A: Drop>(answer: Result<A, Refusal>) -> u32
    ensures { result ≡ status (outcome (λ a. a) answer) }
{
    match answer {
        Ok(_) => 0,
        Err(r) => u32::from(r),
    }
}
