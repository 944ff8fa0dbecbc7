//! The values of a path, from left to right.

ghost use Rattle.registry_routes.specs.Readings.{values_view};
ghost use Rattle.registry_service.specs.Readings as spec;

use crate::from_path::FromPath;
use registry_names::Stop;
use registry_routes::Values;
use std::alloc::Global;

/// The first value.
#[tactic(auto, unfolding(crate::specs::Readings::one))]
pub(crate) fn one<A: FromPath>(alloc: Global, values: Values<'_>) -> Result<A, Stop>
    ensures { spec.one A.reads (values_view values.entry) result }
{
    A::read(alloc, values.first)
}

/// The first two values.
#[tactic(auto, unfolding(crate::specs::Readings::two))]
pub(crate) fn two<A: FromPath + Drop, B: FromPath + Drop>(
    alloc: Global,
    values: Values<'_>,
) -> Result<(A, B), Stop>
    ensures { spec.two A.reads B.reads (values_view values.entry) result }
{
    let first = A::read(alloc, values.first)?;
    let second = B::read(alloc, values.second)?;
    Ok((first, second))
}

/// The three values.
#[tactic(auto, unfolding(crate::specs::Readings::three))]
pub(crate) fn three<A: FromPath + Drop, B: FromPath + Drop, C: FromPath + Drop>(
    alloc: Global,
    values: Values<'_>,
) -> Result<(A, B, C), Stop>
    ensures { spec.three A.reads B.reads C.reads (values_view values.entry) result }
{
    let first = A::read(alloc, values.first)?;
    let second = B::read(alloc, values.second)?;
    let third = C::read(alloc, values.third)?;
    Ok((first, second, third))
}
