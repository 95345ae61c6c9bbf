// The error of a call's answer, which a reader and a writer keep.
ghost use Rattle.std.specs.Prelude.{◌≡◌};
ghost use Rattle.std.specs.Result.{result_err};

pub(crate) fn error_of<T, E: Copy>(of: &Result<T, E>) -> Option<E>
    ensures { result ≡ result_err of.now }
{
    match of {
        Ok(_) => None,
        Err(error) => Some(*error),
    }
}
