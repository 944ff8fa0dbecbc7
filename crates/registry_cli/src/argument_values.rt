//! The arguments after a subcommand's name, in their order.

ghost use Rattle.std.specs.Prelude.{◌≡◌};
ghost use Rattle.std.specs.Str.{bytes_eq};
ghost use Rattle.registry_cli.specs.Lines as lines;
ghost use Rattle.registry_cli.specs.Readings as spec;

use crate::from_argument::FromArgument;
use registry_names::{Stop, Text};
use std::alloc::Global;

/// Whether two texts are the same.
pub(crate) fn is_same(text: &str, other: &str) -> bool
    ensures { result ≡ bytes_eq text.now other.now }
{
    text == other
}

/// The argument at this index, or the empty text where there isn't one.
pub(crate) fn argument_at(arguments: &[Text], index: usize) -> &str
    ensures { result.now ≡ lines.argument_at arguments.now index }
{
    match arguments.get(index) {
        Some(argument) => argument.as_str(),
        None => "",
    }
}

/// Whether the first argument stands for standard input.
pub(crate) fn says_input(arguments: &[Text]) -> bool
    ensures { result ≡ lines.says_input arguments.now }
{
    is_same(argument_at(arguments, 1), "-")
}

/// The argument after a subcommand's name.
pub(crate) fn one<A: FromArgument>(alloc: Global, arguments: &[Text]) -> Result<A, Stop>
    ensures { spec.one A.reads arguments.now result }
{
    A::read(alloc, argument_at(arguments, 1))
}

/// The two arguments after a subcommand's name.
#[tactic(auto, unfolding(crate::specs::Readings::two))]
pub(crate) fn two<A: FromArgument + Drop, B: FromArgument + Drop>(
    alloc: Global,
    arguments: &[Text],
) -> Result<(A, B), Stop>
    ensures { spec.two A.reads B.reads arguments.now result }
{
    let left = A::read(alloc, argument_at(arguments, 1))?;
    let right = B::read(alloc, argument_at(arguments, 2))?;
    Ok((left, right))
}

/// The three arguments after a subcommand's name.
#[tactic(auto, unfolding(crate::specs::Readings::three))]
pub(crate) fn three<A: FromArgument + Drop, B: FromArgument + Drop, C: FromArgument + Drop>(
    alloc: Global,
    arguments: &[Text],
) -> Result<(A, B, C), Stop>
    ensures { spec.three A.reads B.reads C.reads arguments.now result }
{
    let first = A::read(alloc, argument_at(arguments, 1))?;
    let second = B::read(alloc, argument_at(arguments, 2))?;
    let third = C::read(alloc, argument_at(arguments, 3))?;
    Ok((first, second, third))
}

/// The four arguments after a subcommand's name.
#[tactic(auto, unfolding(crate::specs::Readings::four))]
pub(crate) fn four<
    A: FromArgument + Drop,
    B: FromArgument + Drop,
    C: FromArgument + Drop,
    D: FromArgument + Drop,
>(alloc: Global, arguments: &[Text]) -> Result<(A, B, C, D), Stop>
    ensures { spec.four A.reads B.reads C.reads D.reads arguments.now result }
{
    let first = A::read(alloc, argument_at(arguments, 1))?;
    let second = B::read(alloc, argument_at(arguments, 2))?;
    let third = C::read(alloc, argument_at(arguments, 3))?;
    let fourth = D::read(alloc, argument_at(arguments, 4))?;
    Ok((first, second, third, fourth))
}
