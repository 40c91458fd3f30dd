//! Results beside a value that is already there. Code that holds a value of many forms hands it to these, which let go of it where the result is a refusal.
ghost use Rattle.std.specs.Prelude.{◌≡◌};
ghost use Rattle.std.specs.Result.{result_map_both};

/// The first with what came second, or the second's refusal.
pub fn beside<A: Drop, B: Drop, E: Drop>(first: A, second: Result<B, E>) -> Result<(A, B), E>
    ensures { result ≡ result_map_both (λ there. (first, there)) (λ refusal. refusal) second }
{
    match second {
        Ok(there) => Ok((first, there)),
        Err(refusal) => Err(refusal),
    }
}

/// The first if the second came, or the second's refusal.
pub fn followed<A: Drop, E: Drop>(first: A, second: Result<(), E>) -> Result<A, E>
    ensures { result ≡ result_map_both (λ there. first) (λ refusal. refusal) second }
{
    match second {
        Ok(()) => Ok(first),
        Err(refusal) => Err(refusal),
    }
}
