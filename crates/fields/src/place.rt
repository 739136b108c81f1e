ghost use Rattle.std.specs.Prelude.{◌≡◌};
ghost use Rattle.fields.specs.Reading.{placed};

// A fault with its place, for the fault around it to take in.
pub fn at<T, E>(place: usize, r: Result<T, E>) -> Result<T, (usize, E)>
    ensures { result ≡ placed place r }
{
    r.map_err(|e| (place, e))
}
