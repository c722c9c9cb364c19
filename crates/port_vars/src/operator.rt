// The operators of an assignment.
ghost use Rattle.std.specs.Prelude.{◌≡◌};
ghost use Rattle.port_vars.specs.Assignment.{operator_in};

/// How an assignment changes a variable.
#[derive(Clone, Copy, PartialEq, Eq)]
pub(crate) enum Operator {
    /// `=` gives the text.
    Set,
    /// `+=` appends the text.
    Append,
    /// `?=` gives the text where the variable is not set.
    Default,
}

/// The operator, by what stands before the first `=`.
pub(crate) fn operator_of(before: &[u8]) -> Operator
    ensures { result ≡ operator_in before.now }
{
    match before.last() {
        Some(b'+') => Operator::Append,
        Some(b'?') => Operator::Default,
        _ => Operator::Set,
    }
}
