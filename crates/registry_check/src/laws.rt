//! What the problems say of everything that is stored.

ghost use Rattle.registry_check.specs.Right.{NoneMeansRight};

/// Nothing that is stored breaks a rule exactly where the registry is right: the premises of a
/// request hold, and everything is in form.
pub fn no_problem_means_all_premises()
    ensures { NoneMeansRight }
{}
